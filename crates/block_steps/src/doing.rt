ghost use Rattle.std.specs.Prelude.{◌≡◌, ◌≤◌, ◌+◌, IfSome, length};
ghost use Rattle.odb_base.specs.declared.codes.kind.Kind.TheVariants as kind;
ghost use Rattle.edit_words.specs.Tag.{new_at, tag_of};
ghost use Rattle.edit_words.specs.declared.step.Step.TheVariants as step;
ghost use Rattle.block_store.specs.Sound.{IsSound, inst_terms};
ghost use Rattle.block_store.specs.Store.{IsRoomBounded};
ghost use Rattle.steps_net.specs.Back.{back, memo_of};
ghost use Rattle.steps_net.specs.Can.{Can, CanSwap};
ghost use Rattle.steps_net.specs.Do.{do_step};
ghost use Rattle.steps_net.specs.Room.{IsReady};

use crate::masters::master_of;
use block_store::block::Block;
use edit_words::{Memo, Step, Tag};
use library::Library;
use odb_base::{Kind, MasterId, Steps};
use std::sync::ledger::Ledger;
use steps_net::instances::{del_inst, new_inst};
use steps_net::joins::{join, part};
use steps_net::objects::make;
use steps_net::swaps::swap;
use tech::Tech;

/// Does a step that may be done and for which there is room, and answers what it moved out of the block.
pub fn apply<L: Ledger>(
    block: &mut Block,
    tech: &Tech,
    library: &Library,
    step: Step,
    moves: &mut Steps<L>,
) -> Memo
    requires sound { IsSound tech.now library.now block.old.cap block.old.block }
    requires can { Can tech.now library.now block.old.block step }
    requires ready { IsReady step block.old }
    ensures memo { result ≡ memo_of step block.old.block }
    ensures after { block.new.block ≡ do_step library.now step block.old.block }
    ensures cap { block.new.cap ≡ block.old.cap }
    ensures sound { IsSound tech.now library.now block.new.cap block.new.block }
    ensures back { back (tag_of step) result block.new.block ≡ block.old.block }
{
    count_room(block, step.tag());
    do_one(block, tech, library, step, moves)
}

// No table to which a step adds has room in memory for more new objects than the cap leaves slots for.
fn count_room(block: &Block, tag: Tag)
    ensures object { IfSome (new_at tag) (λ new. IsRoomBounded new.0 block.now) }
    ensures iterm { IsRoomBounded kind.ITerm block.now }
{
    block.slots(Kind::ITerm);
    if let Some((kind, _)) = tag.new_object() {
        block.slots(kind);
    }
}

fn do_one<L: Ledger>(
    block: &mut Block,
    tech: &Tech,
    library: &Library,
    step: Step,
    moves: &mut Steps<L>,
) -> Memo
    requires sound { IsSound tech.now library.now block.old.cap block.old.block }
    requires can { Can tech.now library.now block.old.block step }
    requires ready { IsReady step block.old }
    ensures memo { result ≡ memo_of step block.old.block }
    ensures after { block.new.block ≡ do_step library.now step block.old.block }
    ensures cap { block.new.cap ≡ block.old.cap }
{
    match step {
        Step::NewInst {
            id,
            name,
            master,
            terminals,
        } => new_inst(block, id, name, master, terminals, moves),
        Step::Del { kind, id } => Memo::Record {
            record: match kind {
                Kind::Inst => del_inst(block, id, moves),
                _ => block.give(kind, id, moves),
            },
            next: None,
        },
        Step::Rename { kind, id, name } => Memo::Name(block.rename(kind, id, name, moves)),
        Step::Swap { inst, master } => exchange_master(block, tech, library, inst, master, moves),
        Step::Place { kind, id, place } => Memo::Place(block.set_place(kind, id, place, moves)),
        Step::SetUse { kind, id, usage } => Memo::Usage(block.set_usage(kind, id, usage, moves)),
        Step::SetDir { bterm, direction } => Memo::Direction(block.set_direction(
            bterm, direction, moves,
        )),
        Step::MakeSpecial { net } => {
            block.set_special(net, true, moves);
            Memo::Nothing
        }
        Step::Join { kind, id, net } => {
            join(block, kind, id, net, moves);
            Memo::Nothing
        }
        Step::Part { kind, id, net } => Memo::Next(part(block, kind, id, net, moves)),
        other => make(block, other, moves),
    }
}

// Gives an instance another master, by the two masters' names of terminals.
fn exchange_master<L: Ledger>(
    block: &mut Block,
    tech: &Tech,
    library: &Library,
    inst: u32,
    master: u32,
    moves: &mut Steps<L>,
) -> Memo
    requires sound { IsSound tech.now library.now block.old.cap block.old.block }
    requires can { CanSwap library.now block.old.block inst master }
    requires room { length (inst_terms block.old.block inst) + 1 ≤ block.old.room.list }
    ensures memo { result ≡ memo_of (step.Swap inst master) block.old.block }
    ensures after { block.new.block ≡ do_step library.now (step.Swap inst master) block.old.block }
    ensures cap { block.new.cap ≡ block.old.cap }
{
    match (
        master_of(block, library, inst),
        library.master(MasterId(master)),
    ) {
        (Some(old), Some(new)) => swap(block, inst, master, old, new, moves),
        _ => unreachable!(),
    }
}
