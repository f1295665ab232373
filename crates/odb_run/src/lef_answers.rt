//! Answers to the line that reads a LEF file.

ghost use Rattle.std.specs.Prelude.{◌≡◌, None, IfOk, IsErrOf, OnOk};
ghost use Rattle.odb_outside.specs.Shelves.{files_told};
ghost use Rattle.odb_outside.specs.declared.shelf.Hand.{Hand as AnyHand};
ghost use Rattle.shelf_files.specs.Causes.{HasCause};
ghost use Rattle.lef_build.specs.Building.{built_of};
ghost use Rattle.odb_run.specs.Answering.{built_answer, lef_answer, read_lef_answer};
ghost use Rattle.odb_run.specs.Loaded.{GivesInSession};
ghost use Rattle.odb_run.specs.Running.{GivesTold};

use crate::reply::{
    put_added, put_build_fault, put_lef_fault, put_no_file, put_part_fault, put_wrong_state,
};
use crate::session::{AddFault, Session};
use lef_build::{Parts, parts_of};
use lef_files::{LefFileRead, read_lef_file};
use lef_tree::LefTree;
use odb_base::EcoState;
use odb_outside::{Hand, Shelf};
use script_words::FileName;
use shelf_files::FileFault;
use std::alloc::{AllocError, Global};

/// Answers `read_lef FILE`.
pub fn answer_read_lef<F: Shelf>(
    alloc: Global,
    session: &mut Session,
    file: FileName,
    shelf: &mut F,
    replies: &mut Vec<u8>,
) -> Result<bool, FileFault>
    requires { F.hand shelf.old ≡ Hand.Nothing }
    ensures gives { IfOk result (λ refused. GivesTold (λ m a. a ≡ read_lef_answer m file m.state.eco) session.old session.new (files_told (F.told shelf.old)) (files_told (F.told shelf.new)) replies.old.items replies.new.items refused) }
    ensures failed { IsErrOf result FileFault.Failed → replies.new.items ≡ replies.old.items }
    ensures hand { OnOk result (F.hand shelf.new ≡ Hand.Nothing) }
    ensures cause { HasCause (F.faults shelf.old) (F.faults shelf.new) result }
{
    if !session.is_without_eco() {
        put_wrong_state(replies, EcoState::Open)?;
        return Ok(true);
    }
    let read = read_lef_file(alloc, shelf, file.as_str())?;
    Ok(answer_read(alloc, session, read, replies)?)
}

// Answers a file that was read.
fn answer_read(
    alloc: Global,
    session: &mut Session,
    read: LefFileRead,
    replies: &mut Vec<u8>,
) -> Result<bool, AllocError>
    requires { session.old.eco ≡ None }
    ensures { IfOk result (λ refused. GivesInSession (λ m a. a ≡ lef_answer m read) session.old session.new replies.old.items replies.new.items refused) }
{
    match read {
        LefFileRead::Tree(tree) => answer_tree(alloc, session, &tree, replies),
        LefFileRead::NoFile => {
            put_no_file(replies)?;
            Ok(true)
        }
        LefFileRead::Refused { line, kind } => {
            put_lef_fault(replies, line, kind)?;
            Ok(true)
        }
    }
}

// Answers what the text of a file holds.
fn answer_tree(
    alloc: Global,
    session: &mut Session,
    tree: &LefTree,
    replies: &mut Vec<u8>,
) -> Result<bool, AllocError>
    requires { session.old.eco ≡ None }
    ensures { IfOk result (λ refused. GivesInSession (λ m a. a ≡ built_answer m (built_of session.old.database.tech session.old.database.library tree.now)) session.old session.new replies.old.items replies.new.items refused) }
{
    let db = session.database();
    match parts_of(alloc, &db.tech, &db.library, tree) {
        Ok(parts) => answer_parts(session, parts, replies),
        Err(fault) => {
            put_build_fault(replies, fault)?;
            Ok(true)
        }
    }
}

// Answers parts that are to be entered.
fn answer_parts(
    session: &mut Session,
    parts: Parts,
    replies: &mut Vec<u8>,
) -> Result<bool, AllocError>
    requires { session.old.eco ≡ None }
    ensures { IfOk result (λ refused. GivesInSession (λ m a. a ≡ built_answer m (Ok parts)) session.old session.new replies.old.items replies.new.items refused) }
{
    let Parts { parts, passed } = parts;
    match session.add_parts(parts.into_vec()) {
        Ok(added) => {
            put_added(replies, &added, passed)?;
            Ok(false)
        }
        Err(AddFault::WrongState { is }) => {
            put_wrong_state(replies, is)?;
            Ok(true)
        }
        Err(AddFault::Part(fault)) => {
            put_part_fault(replies, fault)?;
            Ok(true)
        }
    }
}
