// Instances come and go with their terminals.
ghost use Rattle.std.specs.Prelude.{◌≡◌, ◌≤◌, ◌<◌, ◌^◌, ◌-◌, IsTrue, length};
ghost use Rattle.slot_pool.specs.Table.{IsGood};
ghost use Rattle.odb_base.specs.declared.codes.kind.Kind.TheVariants as kind;
ghost use Rattle.block_records.specs.declared.record.Record.TheVariants as rec;
ghost use Rattle.block_store.specs.Block.{is_empty, record_of};
ghost use Rattle.block_store.specs.Moves.{taken_in};
ghost use Rattle.block_store.specs.Names.{IsFree};
ghost use Rattle.block_store.specs.Store.{ChangesRoom};
ghost use Rattle.edit_words.specs.declared.memo.Memo.TheVariants as memo;
ghost use Rattle.steps_net.specs.Back.{terms_untaken, undeleted, unmade};
ghost use Rattle.steps_net.specs.Do.{deleted, fresh_inst, terms_given, terms_taken};
ghost use Rattle.steps_net.specs.Terms.{AreGivable, AreInNoNet, AreUntakable, CanGo, CanReturn, CanUnmake};

use block_records::{ITermRec, InstRec, Record, Terminals};
use block_store::block::Block;
use edit_words::Memo;
use odb_base::{Kind, Name, Placement, Steps, Text};
use std::sync::ledger::Ledger;

/// Puts a new instance into its table, unplaced, with new terminals that are joined to nothing.
pub fn new_inst<L: Ledger>(
    block: &mut Block,
    id: u32,
    name: Name,
    master: u32,
    terminals: Terminals,
    moves: &mut Steps<L>,
) -> Memo
    requires good { IsGood block.old.block.iterm }
    requires name { IsFree kind.Inst name block.old.block }
    requires inst { 1 ≤ block.old.room.inst }
    requires terms { length terminals ≤ block.old.room.iterm }
    ensures block { block.new.block ≡ taken_in (rec.Inst (fresh_inst name master terminals)) (record block.old.block { iterm = terms_taken id 0 terminals block.old.block.iterm }) }
    ensures memo { result ≡ memo.Grown (is_empty block.old.block.inst.free) (length terminals - length block.old.block.iterm.free) }
    ensures cap { block.new.cap ≡ block.old.cap }
{
    let before = block.slots(Kind::ITerm);
    let _cap = block.cap();
    take_terms(block, id, terminals.items(), moves);
    let after = block.slots(Kind::ITerm);
    let kept = Text::from_vec(Vec::new(block.allocator()));
    let inst = InstRec {
        name,
        master,
        place: Placement::UNPLACED,
        group: 0,
        terminals,
        kept,
    };
    let taken = block.take(Record::Inst(inst), moves);
    Memo::Grown {
        object: taken.grew,
        terminals: after - before,
    }
}

/// Takes a new instance back, with its terminals. `grew` says whether the instance added a slot to its table,
/// and `grown` how many slots the terminals added to theirs.
pub fn undo_new_inst<L: Ledger>(
    block: &mut Block,
    id: u32,
    grew: bool,
    grown: u32,
    moves: &mut Steps<L>,
)
    requires { CanUnmake id grew grown block.old.block }
    ensures block { block.new.block ≡ unmade id grew grown block.old.block }
    ensures cap { block.new.cap ≡ block.old.cap }
{
    match block.untake(Kind::Inst, id, grew, moves) {
        Record::Inst(inst) => {
            let terminals = inst.terminals.items();
            let reused = terminals.len().saturating_sub(grown as usize);
            untake_terms(block, terminals, reused, moves);
        }
        _ => unreachable!(),
    }
}

/// Takes an instance out of its table, with its terminals, the last first, and answers the instance's record.
pub fn del_inst<L: Ledger>(block: &mut Block, id: u32, moves: &mut Steps<L>) -> Record
    requires { CanGo id block.old.block }
    ensures value { record_of kind.Inst id block.old.block ≡ Some result }
    ensures block { block.new.block ≡ deleted kind.Inst id block.old.block }
    ensures cap { block.new.cap ≡ block.old.cap }
{
    match block.give(Kind::Inst, id, moves) {
        Record::Inst(inst) => {
            give_terms(block, inst.terminals.items(), moves);
            Record::Inst(inst)
        }
        _ => unreachable!(),
    }
}

/// Puts an instance that went back into its table, with its terminals.
pub fn undo_del_inst<L: Ledger>(block: &mut Block, inst: InstRec, id: u32, moves: &mut Steps<L>)
    requires { CanReturn inst block.old.block }
    ensures block { block.new.block ≡ undeleted id (Some (rec.Inst inst)) block.old.block }
    ensures cap { block.new.cap ≡ block.old.cap }
{
    let _slots = block.slots(Kind::ITerm);
    ungive_terms(block, id, inst.terminals.items(), moves);
    block.ungive(Record::Inst(inst), moves);
}

// Takes a new terminal of an instance for each of the identifiers, which are those that come next.
fn take_terms<L: Ledger>(block: &mut Block, inst: u32, terminals: &[u32], moves: &mut Steps<L>)
    requires few { length terminals.now < 2 ^ 32 }
    requires room { length terminals.now ≤ block.old.room.iterm }
    ensures block { block.new.block ≡ record block.old.block { iterm = terms_taken inst 0 terminals.now block.old.block.iterm } }
    ensures cap { block.new.cap ≡ block.old.cap }
    ensures room { ChangesRoom kind.ITerm block.old.room block.new.room }
{
    for index in 0..terminals.len() {
        block.take(fresh_iterm(inst, index as u32), moves);
    }
}

// Takes new terminals back, the last first. The first `reused` of them had free identifiers, and each other
// one added a slot.
fn untake_terms<L: Ledger>(
    block: &mut Block,
    terminals: &[u32],
    reused: usize,
    moves: &mut Steps<L>,
)
    requires can { AreUntakable reused terminals.now block.old.block.iterm }
    requires apart { AreInNoNet terminals.now block.old.block }
    ensures block { block.new.block ≡ record block.old.block { iterm = terms_untaken reused terminals.now block.old.block.iterm } }
    ensures cap { block.new.cap ≡ block.old.cap }
{
    for index in (0..terminals.len()).rev() {
        drop(block.untake(Kind::ITerm, terminals[index], index >= reused, moves));
    }
}

// Takes terminals out of their table, the last first.
fn give_terms<L: Ledger>(block: &mut Block, terminals: &[u32], moves: &mut Steps<L>)
    requires can { AreGivable terminals.now block.old.block.iterm }
    requires apart { AreInNoNet terminals.now block.old.block }
    ensures block { block.new.block ≡ record block.old.block { iterm = terms_given terminals.now block.old.block.iterm } }
    ensures cap { block.new.cap ≡ block.old.cap }
{
    for index in (0..terminals.len()).rev() {
        drop(block.give(Kind::ITerm, terminals[index], moves));
    }
}

// Puts the terminals of an instance back, joined to nothing, the first first.
fn ungive_terms<L: Ledger>(block: &mut Block, inst: u32, terminals: &[u32], moves: &mut Steps<L>)
    requires few { length terminals.now < 2 ^ 32 }
    requires free { length terminals.now ≤ length block.old.block.iterm.free }
    ensures block { block.new.block ≡ record block.old.block { iterm = terms_taken inst 0 terminals.now block.old.block.iterm } }
    ensures cap { block.new.cap ≡ block.old.cap }
{
    for index in 0..terminals.len() {
        block.ungive(fresh_iterm(inst, index as u32), moves);
    }
}

// A terminal of an instance, joined to nothing.
fn fresh_iterm(inst: u32, index: u32) -> Record
    ensures { result ≡ rec.ITerm (record { inst = inst; index = index; net = 0 }) }
{
    Record::ITerm(ITermRec {
        inst,
        index,
        net: 0,
    })
}
