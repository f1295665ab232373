//! The program `def_counts`: it reads a DEF text on standard input, and prints how many elements of each sort it has, or
//! its first fault with its line.
#![tactic(auto)]

use def_reader::{DefFault, DefKind, DefRead, read_def};
use ld_reader::TextFault;
use ld_words::{WordFault, Words};
use standard_streams::StandardInput;
use std::io;
use std::process::ExitCode;

fn main(rt: HostRuntime) -> ExitCode {
    match counted(&rt) {
        Ok(read) => {
            let told = print(&rt, &read);
            drop(read);
            status(told.is_ok())
        }
        Err(fault) => {
            let _ = tell(&rt, &fault);
            drop(fault);
            status(false)
        }
    }
}

fn status(is_good: bool) -> ExitCode {
    ExitCode::from(if is_good { 0 } else { 1 })
}

fn counted<R: Input + AllocGlobal>(rt: &R) -> Result<DefRead, DefFault> {
    let mut words = Words::new(rt.alloc(), StandardInput::new(rt.reader()))?;
    read_def(rt.alloc(), &mut words)
}

fn print<R: Print>(rt: &R, read: &DefRead) -> io::Result<()> {
    let tree = &read.tree;
    println!(rt; "rows {}", tree.rows.count())?;
    println!(rt; "tracks {}", tree.tracks.items().len())?;
    println!(rt; "vias {}", tree.vias.count())?;
    println!(rt; "regions {}", tree.regions.count())?;
    println!(rt; "components {}", tree.components.count())?;
    println!(rt; "pins {}", tree.pins.count())?;
    println!(rt; "blockages {}", tree.blockages.items().len())?;
    println!(rt; "nets {}", tree.nets.count())?;
    println!(rt; "groups {}", tree.groups.count())?;
    println!(rt; "passed {}", read.passed)?;
    println!(rt; "miscounted {}", read.miscounted)
}

fn tell<R: Print>(rt: &R, fault: &DefFault) -> io::Result<()> {
    match fault {
        TextFault::At { line, kind } => println!(rt; "line {line}: {}", text_of(kind)),
        TextFault::Word(WordFault::OpenQuote { line }) => println!(rt; "line {line}: open quote"),
        TextFault::Word(WordFault::LongWord { line }) => println!(rt; "line {line}: long word"),
        TextFault::Word(WordFault::TooLong { line }) => println!(rt; "line {line}: too long"),
        TextFault::Word(_) => println!(rt; "the text can't be read"),
        TextFault::Memory => println!(rt; "out of memory"),
    }
}

fn text_of(kind: &DefKind) -> &'static str {
    match kind {
        DefKind::Unexpected => "unexpected word",
        DefKind::BadNumber => "bad number",
        DefKind::BadName => "bad name",
        DefKind::Unsupported { .. } => "a word by which something begins that isn't read here",
        DefKind::Duplicate => "a name that stands already",
        DefKind::Cut => "the text ends too early",
    }
}
