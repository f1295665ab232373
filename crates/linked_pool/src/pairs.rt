ghost use Rattle.std.specs.Prelude.{◌≡◌, ◌+◌, ◌≤◌, List, ℕ};
ghost use Rattle.link_list.specs.Standing.{OthersStand, Stands};
ghost use Rattle.linked_pool.specs.Changes.{CanChange, changed, members_around, next_after, with_links};
ghost use Rattle.linked_pool.specs.Pairs.{cell, link_of, with_link};

use crate::changes::{Change, change_list};
use crate::linked::{LinkOf, Linked};
use link_list::{Head, Link, LinkCells};
use named_pool::{Named, NamedPool};
use odb_base::Steps;
use slot_pool::SlotPool;
use std::sync::ledger::Ledger;

/// Objects of two kinds that stand in one sort of lists: those of the first kind have no names, those of the second
/// have. A member's number is twice its identifier in the first pool, and one more than that in the second.
#[derive(Drop)]
pub struct PairedPools<A, B: Named> {
    pub first: SlotPool<Linked<A>>,
    pub second: NamedPool<Linked<B>>,
}

impl<A, B: Named> LinkCells for PairedPools<A, B> {
    ghost use Rattle.linked_pool.specs.Pairs.{cell as cell_in, link_of as link_in, with_link as with_link_in};
    ghost use Rattle.linked_pool.specs.Pairs.{cell-none, cell-with_link, link_of-others, link_of-set};

    ghost cell = { cell_in };

    ghost link_of = { link_in };

    ghost with_link = { with_link_in };

    fn link(&self, number: u32) -> Link {
        let id = number / 2;
        if number % 2 == 0 {
            self.first.get(id).unwrap().link
        } else {
            self.second.get(id).unwrap().link
        }
    }

    fn set_link<L: Ledger>(&mut self, number: u32, link: Link, moves: &mut Steps<L>) {
        let id = number / 2;
        if number % 2 == 0 {
            self.first.change(id, moves).link = link;
        } else {
            self.second.set::<LinkOf, _>(id, link, moves);
        }
    }

    ghost none = { cell-none };

    ghost kept = { cell-with_link };

    ghost set = { link_of-set };

    ghost others = { link_of-others };
}

impl<A, B: Named> PairedPools<A, B> {
    /// Changes a list by one member, and answers the member that stood after one that left. This is three steps at most.
    pub fn change_list<L: Ledger>(
        &mut self,
        head: &mut Head,
        change: Change,
        moves: &mut Steps<L>,
    ) -> Option<u32>
        ghost ids: { List ℕ }
        requires list { Stands (cell self.old) (link_of self.old) head.old ids }
        requires can { CanChange (cell self.old) change ids }
        ensures list { Stands (cell self.new) (link_of self.new) head.new (changed change ids) }
        ensures next { result ≡ next_after change ids }
        ensures others { OthersStand (cell self.old) (link_of self.old) (cell self.new) (link_of self.new) (members_around change ids) }
        ensures cells { self.new ≡ with_links with_link link_of change ids self.old }
        ensures caps { (self.new.first.cap ≡ self.old.first.cap) × (self.new.second.cap ≡ self.old.second.cap) }
        ensures spares { (self.new.first.spare ≡ self.old.first.spare) × (self.new.second.spare ≡ self.old.second.spare) }
        ensures least { moves.old ≤ moves.new }
        ensures most { moves.new ≤ moves.old + 3 }
    {
        change_list(self, head, change, moves)
    }
}
