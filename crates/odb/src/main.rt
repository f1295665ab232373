//! The program `odb`: it reads a script on standard input, and answers each line on standard output. Files are those of
//! the current folder.
#![tactic(auto)]

mod folder_shelf;

use folder_shelf::FolderShelf;
use odb_base::Text;
use odb_run::{Status, odb_main};
use standard_streams::{StandardInput, StandardOutput};
use std::io::ErrorKind;
use std::process::ExitCode;
use std::rt::{Env, Files};
use std::{env, io};

fn main(rt: HostRuntime) -> ExitCode {
    let status = run(&rt);
    if let Some(message) = message(status) {
        let _ = eprintln!(rt; "odb: {message}");
    }
    ExitCode::from(status as u8)
}

fn run<R: Env + Files + Input + Print + AllocGlobal>(rt: &R) -> Status {
    let words = match words(rt) {
        Ok(words) => words,
        Err(fault) => return status_without_words(fault.kind()),
    };
    let mut script = StandardInput::new(rt.reader());
    let mut out = StandardOutput::new(io::writer(rt));
    let mut shelf = FolderShelf::new(rt);
    let status = odb_main(rt.alloc(), &words, &mut script, &mut out, &mut shelf);
    shelf.discard();
    status
}

// The status where the words can't be had. One that isn't UTF-8 is on no lawful command line.
fn status_without_words(kind: ErrorKind) -> Status {
    match kind {
        ErrorKind::OutOfMemory => Status::Memory,
        _ => Status::Usage,
    }
}

// The words behind the program's name.
fn words<R: Env + AllocGlobal>(rt: &R) -> io::Result<Vec<Text>> {
    let mut words = Vec::new(rt.alloc());
    for word in env::args(rt)?.skip(1) {
        words.push(Text::new(rt.alloc(), word.as_bytes())?)?;
    }
    Ok(words)
}

// What is told of a status on standard error.
fn message(status: Status) -> Option<&'static str> {
    match status {
        Status::Done | Status::Refused => None,
        Status::Usage => Some("bad arguments"),
        Status::ScriptFault => Some("reading the script failed"),
        Status::OutFault => Some("writing replies failed"),
        Status::FileFault => Some("a file failed"),
        Status::ScriptTooLong => Some("the script is too long"),
        Status::Memory => Some("out of memory"),
    }
}
