ghost use Rattle.std.specs.Prelude.{◌≡◌, ◌≤◌, ◌<◌, ◌+◌, ◌↔◌, Err, IfErr, None, OnOk, Some, length};
ghost use Rattle.odb_base.specs.declared.codes.kind.Kind.{Kind as AnyKind};
ghost use Rattle.odb_base.specs.declared.codes.kind.Kind.TheVariants as kind;
ghost use Rattle.edit_words.specs.Tag.{new_at};
ghost use Rattle.block_store.specs.Block.{left_in};
ghost use Rattle.block_store.specs.Lists.{list_at};
ghost use Rattle.block_store.specs.Store.{ChangesRoom};
ghost use Rattle.steps_net.specs.Back.{IsReadyBack};
ghost use Rattle.steps_net.specs.Room.{IsReady, IsReadyForNew, lacking, lacking_new, lacks};

use block_store::block::{Block, SLOT_LIMIT};
use block_store::fault::RoomFault;
use block_store::list_of::ListOf;
use edit_words::{Memo, Step, Tag};
use library::Library;
use odb_base::{InstId, Kind, NetId};
use std::alloc::AllocError;

/// Makes room for what a step puts into the block. `Full` names the first kind, in the order of the kinds, whose
/// table has too few slots within the cap. After a fault, too, the block is as it was.
pub fn make_room(block: &mut Block, library: &Library, step: &Step) -> Result<(), RoomFault>
    ensures ok { OnOk result (IsReady step.now block.new) }
    ensures room { OnOk result (lacks step.now block.old.cap block.old.block ≡ None) }
    ensures full { IfErr result (λ fault. (k : AnyKind) → fault ≡ RoomFault.Full k → lacks step.now block.old.cap block.old.block ≡ Some k) }
    ensures block { block.new.block ≡ block.old.block }
    ensures cap { block.new.cap ≡ block.old.cap }
{
    match step {
        Step::NewInst { terminals, .. } => room_for_inst(block, terminals.items().len()),
        Step::Swap { inst, .. } => room_in(block, ListOf::InstTerms(InstId(*inst))),
        Step::Join { net, .. } => room_in(block, ListOf::Terms(NetId(*net))),
        other => room_for_new(block, other.tag()),
    }
}

/// Makes room for what the way back of a step puts into the block. Whatever the answer, the block is as it was.
pub fn room_back(block: &mut Block, tag: Tag, memo: &Memo) -> Result<(), AllocError>
    ensures ok { OnOk result (IsReadyBack tag block.new) }
    ensures block { block.new.block ≡ block.old.block }
    ensures cap { block.new.cap ≡ block.old.cap }
{
    match tag {
        Tag::Part { net, .. } => block.room_in(ListOf::Terms(NetId(net))),
        _ => Ok(()),
    }
}

// Makes room for a new object, where there is one.
fn room_for_new(block: &mut Block, tag: Tag) -> Result<(), RoomFault>
    ensures ok { OnOk result (IsReadyForNew (new_at tag) block.new) }
    ensures room { OnOk result (lacking_new (new_at tag) block.old.cap block.old.block ≡ None) }
    ensures full { IfErr result (λ fault. (k : AnyKind) → fault ≡ RoomFault.Full k → lacking_new (new_at tag) block.old.cap block.old.block ≡ Some k) }
    ensures block { block.new.block ≡ block.old.block }
    ensures cap { block.new.cap ≡ block.old.cap }
{
    match tag.new_object() {
        Some((kind, _)) => block.room(kind, 1),
        None => Ok(()),
    }
}

// Makes room for a new instance with so many terminals.
fn room_for_inst(block: &mut Block, terminals: usize) -> Result<(), RoomFault>
    ensures inst { OnOk result (1 ≤ block.new.room.inst) }
    ensures iterm { OnOk result (terminals ≤ block.new.room.iterm) }
    ensures room { OnOk result (lacking kind.Inst 1 block.old.cap block.old.block (lacking kind.ITerm terminals block.old.cap block.old.block None) ≡ None) }
    ensures full { IfErr result (λ fault. (k : AnyKind) → fault ≡ RoomFault.Full k → lacking kind.Inst 1 block.old.cap block.old.block (lacking kind.ITerm terminals block.old.cap block.old.block None) ≡ Some k) }
    ensures block { block.new.block ≡ block.old.block }
    ensures cap { block.new.cap ≡ block.old.cap }
{
    match block.room(Kind::Inst, 1) {
        Ok(()) => room_for_terms(block, terminals),
        Err(fault) => Err(fault),
    }
}

// Makes room for so many terminals of an instance. No table has as many slots as 32 bits can't count.
fn room_for_terms(block: &mut Block, terminals: usize) -> Result<(), RoomFault>
    ensures iterm { OnOk result (terminals ≤ block.new.room.iterm) }
    ensures full { (result ≡ Err (RoomFault.Full kind.ITerm)) ↔ (left_in kind.ITerm block.old.cap block.old.block < terminals) }
    ensures kind { IfErr result (λ fault. (k : AnyKind) → fault ≡ RoomFault.Full k → k ≡ kind.ITerm) }
    ensures block { block.new.block ≡ block.old.block }
    ensures cap { block.new.cap ≡ block.old.cap }
    ensures others { ChangesRoom kind.ITerm block.old.room block.new.room }
{
    match u32::try_from(terminals) {
        Ok(terminals) => block.room(Kind::ITerm, terminals),
        Err(_) => {
            let (live, slots, cap) = (
                block.live_count(Kind::ITerm),
                block.slots(Kind::ITerm),
                block.cap(),
            );
            prove!(live <= slots && slots <= cap && cap <= SLOT_LIMIT);
            Err(RoomFault::Full { kind: Kind::ITerm })
        }
    }
}

// Makes room for one more member of a list. No cap is on it.
fn room_in(block: &mut Block, list: ListOf) -> Result<(), RoomFault>
    ensures ok { OnOk result (length (list_at list block.old.block) + 1 ≤ block.new.room.list) }
    ensures memory { IfErr result (λ fault. fault ≡ RoomFault.Memory) }
    ensures block { block.new.block ≡ block.old.block }
    ensures cap { block.new.cap ≡ block.old.cap }
{
    match block.room_in(list) {
        Ok(()) => Ok(()),
        Err(_) => Err(RoomFault::Memory),
    }
}
