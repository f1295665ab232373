ghost use Rattle.std.specs.Prelude.{◌≡◌, ◌∷◌, ◌++◌, ◌+◌, ◌≤◌, [], None, true, false, IfOk, OnErr, OnOk, length};
ghost use Rattle.block_store.specs.Store.{Store};
ghost use Rattle.steps_net.specs.Can.{Can};
ghost use Rattle.steps_net.specs.Room.{IsReady, lacks};
ghost use Rattle.odb_run.specs.Journal.{IsFront, IsUndoable, steps_of, undone};
ghost use Rattle.odb_run.specs.Machine.{after_steps};

use crate::journal::Journal;
use block_steps::{apply, make_room, room_back, unapply};
use block_store::{Block, Database, RoomFault};
use edit_words::Step;
use library::Library;
use odb_base::Steps;
use std::alloc::AllocError;
use std::sync::ledger::Ledger;

// Makes room in memory for a step for which the tables have room.
fn memory_for(block: &mut Block, library: &Library, step: &Step) -> Result<(), AllocError>
    requires { lacks step.now block.old.cap block.old.block ≡ None }
    ensures ready { OnOk result (IsReady step.now block.new) }
    ensures block { block.new.block ≡ block.old.block }
    ensures cap { block.new.cap ≡ block.old.cap }
{
    match make_room(block, library, step) {
        Ok(()) => Ok(()),
        Err(RoomFault::Memory) => Err(AllocError),
        Err(RoomFault::Full { .. }) => unreachable!(),
    }
}

/// Does a step that can be done and for which the tables have room. For want of memory nothing is done.
pub fn do_unnoted<L: Ledger>(
    db: &mut Database,
    step: Step,
    moves: &mut Steps<L>,
) -> Result<(), AllocError>
    requires can { Can db.old.tech db.old.library db.old.block step }
    requires room { lacks step db.old.cap db.old.block ≡ None }
    ensures ok { OnOk result (db.new ≡ after_steps (step ∷ []) db.old) }
    ensures err { OnErr result (db.new ≡ db.old) }
{
    if let Err(refused) = memory_for(&mut db.block, &db.library, &step) {
        drop(step);
        return Err(refused);
    }
    drop(apply(&mut db.block, &db.tech, &db.library, step, moves));
    Ok(())
}

/// Does a step that can be done and for which the tables have room, and notes it in the journal. For want of
/// memory nothing is done.
pub fn do_noted<L: Ledger>(
    db: &mut Database,
    journal: &mut Journal,
    step: Step,
    moves: &mut Steps<L>,
) -> Result<(), AllocError>
    requires can { Can db.old.tech db.old.library db.old.block step }
    requires room { lacks step db.old.cap db.old.block ≡ None }
    requires undoable { IsUndoable db.old journal.old.entries db.old.block }
    ensures ok { OnOk result (db.new ≡ after_steps (step ∷ []) db.old) }
    ensures noted { OnOk result (steps_of journal.new.entries ≡ steps_of journal.old.entries ++ step ∷ []) }
    ensures copy { undone journal.new.entries db.new.block ≡ undone journal.old.entries db.old.block }
    ensures undoable { IsUndoable db.new journal.new.entries db.new.block }
    ensures err { OnErr result ((db.new ≡ db.old) × (journal.new.entries ≡ journal.old.entries)) }
{
    match copy_to_note(&mut db.block, &db.library, journal, &step) {
        Ok(noted) => {
            let memo = apply(&mut db.block, &db.tech, &db.library, step, moves);
            journal.push(noted, memo);
            Ok(())
        }
        Err(refused) => {
            drop(step);
            Err(refused)
        }
    }
}

// Makes room in memory for a step for which the tables have room, and for its entry in the journal, and copies it.
fn copy_to_note(
    block: &mut Block,
    library: &Library,
    journal: &mut Journal,
    step: &Step,
) -> Result<Step, AllocError>
    requires { lacks step.now block.old.cap block.old.block ≡ None }
    ensures ready { OnOk result (IsReady step.now block.new) }
    ensures block { block.new.block ≡ block.old.block }
    ensures cap { block.new.cap ≡ block.old.cap }
    ensures spare { OnOk result (1 ≤ journal.new.spare) }
    ensures entries { journal.new.entries ≡ journal.old.entries }
    ensures copy { IfOk result (λ noted. noted ≡ step.now) }
{
    memory_for(block, library, step)?;
    journal.reserve()?;
    step.try_clone()
}

/// Takes the steps of a journal back, from the last to the first. For want of memory the first of them are left,
/// and the database is the one that they led to.
pub fn undo_all<L: Ledger>(
    db: &mut Database,
    journal: &mut Journal,
    moves: &mut Steps<L>,
) -> Result<(), AllocError>
    requires { IsUndoable db.old journal.old.entries db.old.block }
    ensures ok { OnOk result (db.new ≡ record db.old { block = undone journal.old.entries db.old.block }) }
    ensures undoable { IsUndoable db.new journal.new.entries db.new.block }
    ensures copy { undone journal.new.entries db.new.block ≡ undone journal.old.entries db.old.block }
    ensures same { db.new ≡ record db.old { block = db.new.block } }
    ensures front { IsFront journal.new.entries journal.old.entries }
{
    'steps: while undo_last(db, journal, moves)? {}
    Ok(())
}

// Takes the last step of a journal back, if there is one.
fn undo_last<L: Ledger>(
    db: &mut Database,
    journal: &mut Journal,
    moves: &mut Steps<L>,
) -> Result<bool, AllocError>
    requires { IsUndoable db.old journal.old.entries db.old.block }
    ensures more { IfOk result (λ more. more ≡ true → length journal.old.entries ≡ length journal.new.entries + 1) }
    ensures over { IfOk result (λ more. more ≡ false → journal.new.entries ≡ []) }
    ensures undoable { IsUndoable db.new journal.new.entries db.new.block }
    ensures copy { undone journal.new.entries db.new.block ≡ undone journal.old.entries db.old.block }
    ensures same { db.new ≡ record db.old { block = db.new.block } }
    ensures front { IsFront journal.new.entries journal.old.entries }
{
    let Some(entry) = journal.pop() else {
        return Ok(false);
    };
    let tag = entry.step.tag();
    if let Err(refused) = room_back(&mut db.block, tag, &entry.memo) {
        journal.push(entry.step, entry.memo);
        return Err(refused);
    }
    unapply(&mut db.block, &db.tech, &db.library, tag, entry.memo, moves);
    Ok(true)
}
