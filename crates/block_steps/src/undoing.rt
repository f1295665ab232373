ghost use Rattle.std.specs.Prelude.{◌≡◌, Some};
ghost use Rattle.edit_words.specs.Tag.{new_at, tag_of};
ghost use Rattle.edit_words.specs.declared.step.Step.{Step};
ghost use Rattle.block_store.specs.Block as Model;
ghost use Rattle.block_store.specs.Moves.{untaken_in, with_name};
ghost use Rattle.steps_net.specs.Back.{Came, IsLedTo, IsReadyBack, back, grew_of, master_moved, name_moved, record_moved, terminals_moved, undeleted, unmade_at};
ghost use Rattle.steps_net.specs.Do.{swapped};
ghost use Rattle.block_steps.specs.Owes.{IsAskedBack, IsNamedBack, IsPlain, IsSwappedBack, IsTakenBack, IsUnmade, Owes};

use crate::memos::{direction_before, grew, grown, next, place_before, usage_before};
use block_records::Record;
use block_store::block::Block;
use edit_words::{Memo, Tag};
use library::Library;
use odb_base::{Kind, Steps};
use std::sync::ledger::Ledger;
use steps_net::instances::{undo_del_inst, undo_new_inst};
use steps_net::joins::{part, rejoin};
use steps_net::swaps::exchange;
use tech::Tech;

/// Takes back a step of this tag, which led to this block and moved this memo out: the block is again what it
/// was before the step.
pub fn unapply<L: Ledger>(
    block: &mut Block,
    tech: &Tech,
    library: &Library,
    tag: Tag,
    memo: Memo,
    moves: &mut Steps<L>,
)
    requires came { IsLedTo tech.now library.now block.old.cap tag memo block.old.block }
    requires ready { IsReadyBack tag block.old }
    ensures back { block.new.block ≡ back tag memo block.old.block }
    ensures gives { (d : Model.Block) (s : Step) → tag_of s ≡ tag → Came tech.now library.now block.old.cap d s memo block.old.block → block.new.block ≡ d }
    ensures cap { block.new.cap ≡ block.old.cap }
{
    undo_one(block, tag, memo, moves);
}

fn undo_one<L: Ledger>(block: &mut Block, tag: Tag, memo: Memo, moves: &mut Steps<L>)
    requires owed { Owes tag memo block.old.block }
    requires ready { IsReadyBack tag block.old }
    ensures back { block.new.block ≡ back tag memo block.old.block }
    ensures cap { block.new.cap ≡ block.old.cap }
{
    match tag {
        Tag::Del { id, .. } => undelete(block, id, memo, moves),
        Tag::Rename { kind, id } => name_back(block, kind, id, memo, moves),
        Tag::Swap { inst } => master_back(block, inst, memo, moves),
        other => {
            undo_plain(block, other, &memo, moves);
            drop(memo);
        }
    }
}

// Takes back a step that moved no name, no record and no terminals out of the block.
fn undo_plain<L: Ledger>(block: &mut Block, tag: Tag, memo: &Memo, moves: &mut Steps<L>)
    requires plain { IsPlain tag }
    requires owed { Owes tag memo.now block.old.block }
    requires ready { IsReadyBack tag block.old }
    ensures back { block.new.block ≡ back tag memo.now block.old.block }
    ensures cap { block.new.cap ≡ block.old.cap }
{
    match tag {
        Tag::NewInst { id, .. } => undo_new_inst(block, id, grew(memo), grown(memo), moves),
        Tag::Place { kind, id } => {
            block.set_place(kind, id, place_before(memo), moves);
        }
        Tag::SetUse { kind, id } => {
            block.set_usage(kind, id, usage_before(memo), moves);
        }
        Tag::SetDir { bterm } => {
            block.set_direction(bterm, direction_before(memo), moves);
        }
        Tag::MakeSpecial { net } => {
            block.set_special(net, false, moves);
        }
        Tag::Join { kind, id, net } => {
            part(block, kind, id, net, moves);
        }
        Tag::Part { kind, id, net } => rejoin(block, kind, id, net, next(memo), moves),
        _ => unmake(block, tag, memo, moves),
    }
}

// Takes the new object of a step back.
fn unmake<L: Ledger>(block: &mut Block, tag: Tag, memo: &Memo, moves: &mut Steps<L>)
    requires { IsUnmade (new_at tag) memo.now block.old.block }
    ensures back { block.new.block ≡ unmade_at (new_at tag) (grew_of memo.now) block.old.block }
    ensures cap { block.new.cap ≡ block.old.cap }
{
    match tag.new_object() {
        Some((kind, id)) => untake(block, kind, id, memo, moves),
        None => unreachable!(),
    }
}

// Takes a new object out of its table.
fn untake<L: Ledger>(block: &mut Block, kind: Kind, id: u32, memo: &Memo, moves: &mut Steps<L>)
    requires { IsTakenBack kind id memo.now block.old.block }
    ensures back { block.new.block ≡ untaken_in kind id (grew_of memo.now) block.old.block }
    ensures cap { block.new.cap ≡ block.old.cap }
{
    drop(block.untake(kind, id, grew(memo), moves));
}

// Puts an object that went back into its table.
fn undelete<L: Ledger>(block: &mut Block, id: u32, memo: Memo, moves: &mut Steps<L>)
    requires { IsAskedBack (record_moved memo) block.old.block }
    ensures back { block.new.block ≡ undeleted id (record_moved memo) block.old.block }
    ensures cap { block.new.cap ≡ block.old.cap }
{
    match memo {
        Memo::Record { record, .. } => ungive(block, id, record, moves),
        _ => unreachable!(),
    }
}

// Puts an object back into its table, and an instance with its terminals.
fn ungive<L: Ledger>(block: &mut Block, id: u32, object: Record, moves: &mut Steps<L>)
    requires { IsAskedBack (Some object) block.old.block }
    ensures back { block.new.block ≡ undeleted id (Some object) block.old.block }
    ensures cap { block.new.cap ≡ block.old.cap }
{
    match object {
        Record::Inst(inst) => undo_del_inst(block, inst, id, moves),
        other => {
            block.ungive(other, moves);
        }
    }
}

// Gives an object the name that it had.
fn name_back<L: Ledger>(block: &mut Block, kind: Kind, id: u32, memo: Memo, moves: &mut Steps<L>)
    requires { IsNamedBack kind id memo block.old.block }
    ensures back { block.new.block ≡ with_name kind id (name_moved memo) block.old.block }
    ensures cap { block.new.cap ≡ block.old.cap }
{
    match memo {
        Memo::Name(name) => {
            block.rename(kind, id, name, moves);
        }
        _ => unreachable!(),
    }
}

// Gives an instance the master and the terminals that it had.
fn master_back<L: Ledger>(block: &mut Block, inst: u32, memo: Memo, moves: &mut Steps<L>)
    requires { IsSwappedBack inst memo block.old.block }
    ensures back { block.new.block ≡ swapped inst (master_moved memo) (terminals_moved memo) block.old.block }
    ensures cap { block.new.cap ≡ block.old.cap }
{
    match memo {
        Memo::Swapped { master, terminals } => {
            drop(exchange(block, inst, master, terminals, moves));
        }
        _ => unreachable!(),
    }
}
