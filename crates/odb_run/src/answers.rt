ghost use Rattle.std.specs.Prelude.{◌≡◌, IfOk, IsErrOf, OnOk};
ghost use Rattle.odb_outside.specs.Shelves.{files_told};
ghost use Rattle.odb_outside.specs.declared.shelf.Hand.{Hand as AnyHand};
ghost use Rattle.shelf_files.specs.Causes.{HasCause};
ghost use Rattle.odb_run.specs.Answering.{IsAnswer, IsCommandAnswer, IsRequestAnswer, TouchesFile};
ghost use Rattle.odb_run.specs.Loaded.{GivesInSession, TouchesNoFile};
ghost use Rattle.odb_run.specs.Machine.{begin_answer, edit_answer, part_answer, report_answer, save_answer, undo_answer};
ghost use Rattle.odb_run.specs.Running.{Answers, FailsAt, GivesTold};
ghost use Rattle.script_words.specs.Commands.{request_of};

use crate::file_answers::{answer_load, answer_save_to};
use crate::lef_answers::answer_read_lef;
use crate::reply::{
    put_fault, put_long_line, put_ok, put_ok_number, put_outcome, put_part_fault, put_refusal,
    put_report_fault, put_saved, put_wrong_state,
};
use crate::run::LINE_LIMIT;
use crate::session::{AddFault, Session, UndoFault};
use edit_words::{Edit, Refusal, TechPart};
use odb_base::Steps;
use odb_outside::{Hand, Shelf};
use odb_save::save;
use reports::{Query, ReportFault, report};
use script_words::{Command, LineFault, command};
use shelf_files::FileFault;
use std::alloc::{AllocError, Global};
use std::sync::ledger::Ledger;

/// Answers a line, and says whether its reply is a refusal. The reply is appended.
#[tactic(auto, unfolding(crate::specs::Answering::IsAnswer))]
pub fn answer_line<F: Shelf, L: Ledger>(
    alloc: Global,
    session: &mut Session,
    line: &[u8],
    shelf: &mut F,
    replies: &mut Vec<u8>,
    moves: &mut Steps<L>,
) -> Result<bool, FileFault>
    requires { F.hand shelf.old ≡ Hand.Nothing }
    ensures gives { IfOk result (λ refused. GivesTold (λ m a. IsAnswer m line.now a) session.old session.new (files_told (F.told shelf.old)) (files_told (F.told shelf.new)) replies.old.items replies.new.items refused) }
    ensures failed { IsErrOf result FileFault.Failed → FailsAt line.now replies.old.items replies.new.items }
    ensures hand { OnOk result (F.hand shelf.new ≡ Hand.Nothing) }
    ensures cause { HasCause (F.faults shelf.old) (F.faults shelf.new) result }
{
    if line.len() > LINE_LIMIT {
        put_long_line(replies)?;
        return Ok(true);
    }
    answer_request(alloc, session, line, shelf, replies, moves)
}

fn answer_request<F: Shelf, L: Ledger>(
    alloc: Global,
    session: &mut Session,
    line: &[u8],
    shelf: &mut F,
    replies: &mut Vec<u8>,
    moves: &mut Steps<L>,
) -> Result<bool, FileFault>
    requires { F.hand shelf.old ≡ Hand.Nothing }
    ensures gives { IfOk result (λ refused. GivesTold (λ m a. IsRequestAnswer m (request_of line.now) a) session.old session.new (files_told (F.told shelf.old)) (files_told (F.told shelf.new)) replies.old.items replies.new.items refused) }
    ensures failed { IsErrOf result FileFault.Failed → FailsAt line.now replies.old.items replies.new.items }
    ensures hand { OnOk result (F.hand shelf.new ≡ Hand.Nothing) }
    ensures cause { HasCause (F.faults shelf.old) (F.faults shelf.new) result }
{
    match command(alloc, line) {
        Ok(None) => Ok(false),
        Ok(Some(command)) => answer_command(alloc, session, command, shelf, replies, moves),
        Err(LineFault::Memory) => Err(FileFault::Memory),
        Err(fault) => {
            put_fault(replies, fault)?;
            Ok(true)
        }
    }
}

fn answer_command<F: Shelf, L: Ledger>(
    alloc: Global,
    session: &mut Session,
    command: Command,
    shelf: &mut F,
    replies: &mut Vec<u8>,
    moves: &mut Steps<L>,
) -> Result<bool, FileFault>
    requires { F.hand shelf.old ≡ Hand.Nothing }
    ensures gives { IfOk result (λ refused. GivesTold (λ m a. IsCommandAnswer m command a) session.old session.new (files_told (F.told shelf.old)) (files_told (F.told shelf.new)) replies.old.items replies.new.items refused) }
    ensures failed { IsErrOf result FileFault.Failed → TouchesFile command × (replies.new.items ≡ replies.old.items) }
    ensures hand { OnOk result (F.hand shelf.new ≡ Hand.Nothing) }
    ensures cause { HasCause (F.faults shelf.old) (F.faults shelf.new) result }
{
    match command {
        Command::Save { file } => answer_save_to(alloc, session, file, shelf, replies),
        Command::Load { file } => answer_load(alloc, session, file, shelf, replies),
        Command::ReadLef { file } => answer_read_lef(alloc, session, file, shelf, replies),
        other => Ok(answer_in_session(alloc, session, other, replies, moves)?),
    }
}

// Answers a command that reads and writes no file.
fn answer_in_session<L: Ledger>(
    alloc: Global,
    session: &mut Session,
    command: Command,
    replies: &mut Vec<u8>,
    moves: &mut Steps<L>,
) -> Result<bool, AllocError>
    requires { TouchesNoFile command }
    ensures { IfOk result (λ refused. GivesInSession (λ m a. IsCommandAnswer m command a) session.old session.new replies.old.items replies.new.items refused) }
{
    match command {
        Command::Edit(edit) => answer_edit(alloc, session, edit, replies, moves),
        Command::Units(units) => answer_part(alloc, session, TechPart::Units(units), replies),
        Command::Layer(layer) => answer_part(alloc, session, TechPart::Layer(layer), replies),
        Command::Site(site) => answer_part(alloc, session, TechPart::Site(site), replies),
        Command::Master(master) => {
            answer_part(alloc, session, TechPart::Master(master), replies)
        }
        Command::Find { kind, name } => answer_query(session, Query::Find { kind, name }, replies),
        Command::List { kind } => answer_query(session, Query::List { kind }, replies),
        Command::Free { kind } => answer_query(session, Query::Free { kind }, replies),
        Command::Counts => answer_query(session, Query::Counts, replies),
        Command::Terms { net } => answer_query(session, Query::Terms { net }, replies),
        Command::SaveShown => answer_save(alloc, session, replies),
        Command::EcoBegin => answer_begin(alloc, session, replies),
        Command::EcoUndo => answer_undo(session, replies, moves),
        Command::Save { .. } | Command::Load { .. } | Command::ReadLef { .. } => unreachable!(),
    }
}

#[tactic(auto, unfolding(crate::specs::Machine::edit_answer))]
fn answer_edit<L: Ledger>(
    alloc: Global,
    session: &mut Session,
    edit: Edit,
    replies: &mut Vec<u8>,
    moves: &mut Steps<L>,
) -> Result<bool, AllocError>
    ensures { IfOk result (Answers (edit_answer session.old edit) session.new replies.old.items replies.new.items) }
{
    let result = session.edit(alloc, &edit, moves);
    drop(edit);
    match result {
        Ok(outcome) => {
            put_outcome(replies, &outcome)?;
            Ok(false)
        }
        Err(refusal) => {
            put_refusal(replies, refusal)?;
            Ok(true)
        }
    }
}

#[tactic(auto, unfolding(crate::specs::Machine::part_answer))]
fn answer_part(
    alloc: Global,
    session: &mut Session,
    part: TechPart,
    replies: &mut Vec<u8>,
) -> Result<bool, AllocError>
    ensures { IfOk result (Answers (part_answer session.old part session.old.eco) session.new replies.old.items replies.new.items) }
{
    let mut parts = Vec::new(alloc);
    parts.push(part)?;
    match session.add_parts(parts) {
        Ok(added) => {
            put_ok_number(replies, added.last as u64)?;
            Ok(false)
        }
        Err(AddFault::WrongState { is }) => {
            put_wrong_state(replies, is)?;
            Ok(true)
        }
        Err(AddFault::Part(fault)) => {
            put_part_fault(replies, fault)?;
            Ok(true)
        }
    }
}

#[tactic(auto, unfolding(crate::specs::Machine::report_answer))]
fn answer_query(
    session: &mut Session,
    query: Query,
    replies: &mut Vec<u8>,
) -> Result<bool, AllocError>
    ensures { IfOk result (Answers (report_answer session.old query) session.new replies.old.items replies.new.items) }
{
    let result = report(session.database(), &query, replies);
    drop(query);
    match result {
        Ok(()) => Ok(false),
        Err(fault) => {
            put_report_fault(replies, fault)?;
            Ok(true)
        }
    }
}

fn answer_save(
    alloc: Global,
    session: &mut Session,
    replies: &mut Vec<u8>,
) -> Result<bool, AllocError>
    ensures { IfOk result (Answers (save_answer session.old) session.new replies.old.items replies.new.items) }
{
    let bytes = save(alloc, session.database())?;
    put_saved(alloc, replies, &bytes)?;
    Ok(false)
}

fn answer_begin(
    alloc: Global,
    session: &mut Session,
    replies: &mut Vec<u8>,
) -> Result<bool, AllocError>
    ensures { IfOk result (Answers (begin_answer session.old session.old.eco) session.new replies.old.items replies.new.items) }
{
    match session.eco_begin(alloc) {
        Ok(()) => {
            put_ok(replies)?;
            Ok(false)
        }
        Err(fault) => {
            put_wrong_state(replies, fault.is)?;
            Ok(true)
        }
    }
}

fn answer_undo<L: Ledger>(
    session: &mut Session,
    replies: &mut Vec<u8>,
    moves: &mut Steps<L>,
) -> Result<bool, AllocError>
    ensures { IfOk result (Answers (undo_answer session.old session.old.eco) session.new replies.old.items replies.new.items) }
{
    match session.eco_undo(moves) {
        Ok(count) => {
            put_ok_number(replies, count)?;
            Ok(false)
        }
        Err(UndoFault::WrongState { is }) => {
            put_wrong_state(replies, is)?;
            Ok(true)
        }
        Err(UndoFault::Memory) => Err(AllocError),
    }
}
