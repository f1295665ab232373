// An instance gets another master.
ghost use Rattle.std.specs.Prelude.{◌≡◌, ◌≤◌, ◌<◌, ◌^◌, ℕ, [], IsTrue, length, slice_get, slice_index_or, unwrap_or, vec_capacity};
ghost use Rattle.slot_pool.specs.Table.{is_live};
ghost use Rattle.library.specs.Terminals.{term_index};
ghost use Rattle.block_store.specs.Sound.{inst_terms};
ghost use Rattle.edit_words.specs.declared.memo.Memo.TheVariants as memo;
ghost use Rattle.steps_net.specs.Back.{master_of};
ghost use Rattle.steps_net.specs.Do.{reordered, swapped, terms_indexed};
ghost use Rattle.steps_net.specs.Terms.{CanExchange, CanSwapFor};

use block_records::Terminals;
use block_store::block::Block;
use block_store::list_of::ListOf;
use edit_words::Memo;
use library::{MTerm, Master};
use odb_base::{InstId, Kind, List, Steps};
use std::sync::ledger::Ledger;

/// Gives an instance the master `master`, which is `new`, in place of `old`. Its terminals stand in the order
/// of the new master's, by their names.
pub fn swap<L: Ledger>(
    block: &mut Block,
    inst: u32,
    master: u32,
    old: &Master,
    new: &Master,
    moves: &mut Steps<L>,
) -> Memo
    requires can { CanSwapFor inst old.now new.now block.old.block }
    requires room { length (inst_terms block.old.block inst) ≤ block.old.room.list }
    ensures memo { result ≡ memo.Swapped (master_of block.old.block inst) (inst_terms block.old.block inst) }
    ensures block { block.new.block ≡ swapped inst master (reordered old.now new.now (inst_terms block.old.block inst)) block.old.block }
    ensures cap { block.new.cap ≡ block.old.cap }
{
    let _slots = block.slots(Kind::ITerm);
    let mut order = block.take_room();
    reorder(
        &mut order,
        block.members(ListOf::InstTerms(InstId(inst))),
        old,
        new,
    );
    exchange(block, inst, master, List::from_vec(order), moves)
}

/// Gives an instance a master and terminals in the order of that one, and answers what it had.
pub fn exchange<L: Ledger>(
    block: &mut Block,
    inst: u32,
    master: u32,
    terminals: Terminals,
    moves: &mut Steps<L>,
) -> Memo
    requires { CanExchange inst terminals block.old.block }
    ensures memo { result ≡ memo.Swapped (master_of block.old.block inst) (inst_terms block.old.block inst) }
    ensures block { block.new.block ≡ swapped inst master terminals block.old.block }
    ensures cap { block.new.cap ≡ block.old.cap }
{
    let _slots = block.slots(Kind::ITerm);
    set_places(block, terminals.items(), moves);
    let master = block.set_master(inst, master, moves);
    let terminals = block.set_terminals(inst, terminals, moves);
    Memo::Swapped { master, terminals }
}

// Puts the terminals of an instance of the old master into the order of the new one.
fn reorder(order: &mut Vec<u32>, terminals: &[u32], old: &Master, new: &Master)
    requires empty { order.old.items ≡ [] }
    requires room { length new.now.terminals ≤ vec_capacity order.old }
    requires few { length old.now.terminals ≤ 2 ^ 32 }
    ensures { order.new.items ≡ reordered old.now new.now terminals.now }
{
    for term in new.terminals.items() {
        order.push_reserved(terminal_for(term, terminals, old));
    }
}

// The terminal that stands for one of the new master's: the one that stood for that name in the old master.
fn terminal_for(term: &MTerm, terminals: &[u32], old: &Master) -> u32
    requires { length old.now.terminals ≤ 2 ^ 32 }
    ensures { result ≡ slice_index_or terminals.now (unwrap_or (term_index old.now term.now.name) 0) 0 }
{
    let place = old.term_index(term.name.bytes()).unwrap_or(0);
    terminals.get(place as usize).copied().unwrap_or(0)
}

// Writes into each terminal its place in the list.
fn set_places<L: Ledger>(block: &mut Block, terminals: &[u32], moves: &mut Steps<L>)
    requires few { length terminals.now < 2 ^ 32 }
    requires live { (k : ℕ) (id : ℕ) → slice_get terminals.now k ≡ Some id → IsTrue (is_live block.old.block.iterm id) }
    ensures block { block.new.block ≡ terms_indexed 0 terminals.now block.old.block }
    ensures cap { block.new.cap ≡ block.old.cap }
{
    for (index, id) in terminals.iter().enumerate() {
        block.set_index(*id, index as u32, moves);
    }
}
