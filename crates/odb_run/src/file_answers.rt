//! Answers to the lines that read and write files.

ghost use Rattle.std.specs.Prelude.{◌≡◌, None, IfOk, IsErrOf, OnOk};
ghost use Rattle.odb_outside.specs.Shelves.{files_told};
ghost use Rattle.odb_outside.specs.declared.shelf.Hand.{Hand as AnyHand};
ghost use Rattle.shelf_files.specs.Causes.{HasCause};
ghost use Rattle.odb_run.specs.Answering.{IsLoadOf, IsLoadReply, save_to_answer};
ghost use Rattle.odb_run.specs.Loaded.{GivesInSession, IsReadReply};
ghost use Rattle.odb_run.specs.Running.{GivesTold};

use crate::reply::{put_load_fault, put_long_file, put_no_file, put_ok_number, put_wrong_state};
use crate::session::Session;
use odb_base::EcoState;
use odb_outside::{Hand, Shelf};
use odb_save::save;
use script_words::FileName;
use shelf_files::{FileFault, FileRead, read_file, write_file};
use std::alloc::{AllocError, Global};

/// Answers `save FILE`.
pub fn answer_save_to<F: Shelf>(
    alloc: Global,
    session: &mut Session,
    file: FileName,
    shelf: &mut F,
    replies: &mut Vec<u8>,
) -> Result<bool, FileFault>
    requires { F.hand shelf.old ≡ Hand.Nothing }
    ensures gives { IfOk result (λ refused. GivesTold (λ m a. a ≡ save_to_answer m file) session.old session.new (files_told (F.told shelf.old)) (files_told (F.told shelf.new)) replies.old.items replies.new.items refused) }
    ensures failed { IsErrOf result FileFault.Failed → replies.new.items ≡ replies.old.items }
    ensures hand { OnOk result (F.hand shelf.new ≡ Hand.Nothing) }
    ensures cause { HasCause (F.faults shelf.old) (F.faults shelf.new) result }
{
    let bytes = save(alloc, session.database())?;
    write_file(shelf, file.as_str(), &bytes)?;
    put_ok_number(replies, bytes.len() as u64)?;
    Ok(false)
}

/// Answers `load FILE`.
pub fn answer_load<F: Shelf>(
    alloc: Global,
    session: &mut Session,
    file: FileName,
    shelf: &mut F,
    replies: &mut Vec<u8>,
) -> Result<bool, FileFault>
    requires { F.hand shelf.old ≡ Hand.Nothing }
    ensures gives { IfOk result (λ refused. GivesTold (λ m a. IsLoadReply m file m.state.eco a) session.old session.new (files_told (F.told shelf.old)) (files_told (F.told shelf.new)) replies.old.items replies.new.items refused) }
    ensures failed { IsErrOf result FileFault.Failed → replies.new.items ≡ replies.old.items }
    ensures hand { OnOk result (F.hand shelf.new ≡ Hand.Nothing) }
    ensures cause { HasCause (F.faults shelf.old) (F.faults shelf.new) result }
{
    if !session.is_without_eco() {
        put_wrong_state(replies, EcoState::Open)?;
        return Ok(true);
    }
    let read = read_file(alloc, shelf, file.as_str())?;
    Ok(answer_read(alloc, session, read, replies)?)
}

// Answers a file that was read.
fn answer_read(
    alloc: Global,
    session: &mut Session,
    read: FileRead,
    replies: &mut Vec<u8>,
) -> Result<bool, AllocError>
    requires { session.old.eco ≡ None }
    ensures { IfOk result (λ refused. GivesInSession (λ m a. IsReadReply read m a) session.old session.new replies.old.items replies.new.items refused) }
{
    match read {
        FileRead::Bytes(bytes) => answer_bytes(alloc, session, &bytes, replies),
        FileRead::NoFile => {
            put_no_file(replies)?;
            Ok(true)
        }
        FileRead::TooLong => {
            put_long_file(replies)?;
            Ok(true)
        }
    }
}

// Answers bytes that are to be loaded.
fn answer_bytes(
    alloc: Global,
    session: &mut Session,
    bytes: &[u8],
    replies: &mut Vec<u8>,
) -> Result<bool, AllocError>
    requires { session.old.eco ≡ None }
    ensures { IfOk result (λ refused. GivesInSession (λ m a. IsLoadOf m bytes.now a) session.old session.new replies.old.items replies.new.items refused) }
{
    match session.load(alloc, bytes) {
        Ok(()) => {
            put_ok_number(replies, bytes.len() as u64)?;
            Ok(false)
        }
        Err(fault) => {
            put_load_fault(replies, fault)?;
            Ok(true)
        }
    }
}
