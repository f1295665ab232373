// Terminals are joined to nets and parted from them. A terminal's number stands in the list of its net, and the
// terminal names the net: these calls change both together.
ghost use Rattle.std.specs.Prelude.{◌≡◌, ◌≤◌, ◌+◌, ◌∷◌, IfSome, IsTrue, length};
ghost use Rattle.odb_base.specs.Ids.{after, holds, placed, without};
ghost use Rattle.block_store.specs.declared.list_of.ListOf.TheVariants as list;
ghost use Rattle.block_store.specs.Alone.{CanEnter};
ghost use Rattle.block_store.specs.Block.{live_in};
ghost use Rattle.block_store.specs.Fields.{HasNet};
ghost use Rattle.block_store.specs.Lists.{HasList, on_list, term_number};
ghost use Rattle.block_store.specs.Moves.{with_net};
ghost use Rattle.block_store.specs.Sound.{net_terms};

use block_store::block::Block;
use block_store::list_of::ListOf;
use odb_base::{Kind, NetId, Steps};
use std::sync::ledger::Ledger;

/// Joins a terminal that is joined to nothing to a net, in front of the net's terminals.
#[tactic(auto, using(crate::proofs::Joining::live_beside_list))]
pub fn join<L: Ledger>(block: &mut Block, kind: Kind, id: u32, net: u32, moves: &mut Steps<L>)
    requires enter { CanEnter (list.Terms (record { 0 = net })) (term_number kind id) block.old.block }
    requires live { IsTrue (live_in kind id block.old.block) }
    requires kind { HasNet kind }
    requires room { length (net_terms block.old.block net) + 1 ≤ block.old.room.list }
    ensures block { block.new.block ≡ with_net kind id net (on_list (λ terms. term_number kind id ∷ terms) (list.Terms (record { 0 = net })) block.old.block) }
    ensures cap { block.new.cap ≡ block.old.cap }
{
    let number = block.term_number(kind, id);
    block.link(ListOf::Terms(NetId(net)), number, moves);
    block.set_net(kind, id, net, moves);
}

/// Parts a terminal from its net, and answers the number of the terminal that stood after it. It takes a join
/// back, too.
#[tactic(auto, using(crate::proofs::Joining::live_beside_list))]
pub fn part<L: Ledger>(
    block: &mut Block,
    kind: Kind,
    id: u32,
    net: u32,
    moves: &mut Steps<L>,
) -> Option<u32>
    requires has { HasList (list.Terms (record { 0 = net })) block.old.block }
    requires member { IsTrue (holds (net_terms block.old.block net) (term_number kind id)) }
    requires live { IsTrue (live_in kind id block.old.block) }
    requires kind { HasNet kind }
    ensures next { result ≡ after (net_terms block.old.block net) (term_number kind id) }
    ensures block { block.new.block ≡ with_net kind id 0 (on_list (without (term_number kind id)) (list.Terms (record { 0 = net })) block.old.block) }
    ensures cap { block.new.cap ≡ block.old.cap }
{
    let number = block.term_number(kind, id);
    let next = block.unlink(ListOf::Terms(NetId(net)), number, moves);
    block.set_net(kind, id, 0, moves);
    next
}

/// Takes a parting back: the terminal is joined to the net again, before the terminal of the number that stood
/// after it, or last where it was the last.
#[tactic(auto, using(crate::proofs::Joining::live_beside_list))]
pub fn rejoin<L: Ledger>(
    block: &mut Block,
    kind: Kind,
    id: u32,
    net: u32,
    next: Option<u32>,
    moves: &mut Steps<L>,
)
    requires enter { CanEnter (list.Terms (record { 0 = net })) (term_number kind id) block.old.block }
    requires next { IfSome next (λ other. IsTrue (holds (net_terms block.old.block net) other)) }
    requires live { IsTrue (live_in kind id block.old.block) }
    requires kind { HasNet kind }
    requires room { length (net_terms block.old.block net) + 1 ≤ block.old.room.list }
    ensures block { block.new.block ≡ with_net kind id net (on_list (placed (term_number kind id) next) (list.Terms (record { 0 = net })) block.old.block) }
    ensures cap { block.new.cap ≡ block.old.cap }
{
    let number = block.term_number(kind, id);
    block.relink(ListOf::Terms(NetId(net)), number, next, moves);
    block.set_net(kind, id, net, moves);
}
