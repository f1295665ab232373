ghost use Rattle.std.specs.Prelude.{◌≡◌, ◌+◌, ◌≤◌, List, ℕ};
ghost use Rattle.link_list.specs.Standing.{OthersStand, Stands};
ghost use Rattle.linked_pool.specs.Changes.{CanChange, changed, members_around, next_after, with_links};
ghost use Rattle.linked_pool.specs.Linking.{cell, link_of, with_link};

use crate::changes::{Change, change_list};
use crate::linked::{LinkOf, Linked};
use link_list::{Head, Link, LinkCells};
use named_pool::{Named, NamedPool};
use odb_base::Steps;
use std::sync::ledger::Ledger;

/// Objects with names, no two of one name.
#[derive(Drop)]
pub struct LinkedNames<R: Named> {
    pub pool: NamedPool<Linked<R>>,
}

impl<R: Named> LinkCells for LinkedNames<R> {
    ghost use Rattle.linked_pool.specs.Linking.{cell as cell_in, link_of as link_in};
    ghost use Rattle.linked_pool.specs.Linking.{cell-none, cell-with_link, link_of-others, link_of-set, with_link as with_link_in};

    ghost cell = { λ s. cell_in s.pool };

    ghost link_of = { λ s. link_in s.pool };

    ghost with_link = { λ s id link. record s { pool = with_link_in s.pool id link } };

    fn link(&self, id: u32) -> Link {
        self.pool.get(id).unwrap().link
    }

    fn set_link<L: Ledger>(&mut self, id: u32, link: Link, moves: &mut Steps<L>) {
        self.pool.set::<LinkOf, _>(id, link, moves);
    }

    ghost none = { λ s. cell-none s.pool };

    ghost kept = { λ s. cell-with_link s.pool };

    ghost set = { λ s. link_of-set s.pool };

    ghost others = { λ s. link_of-others s.pool };
}

impl<R: Named> LinkedNames<R> {
    /// Changes a list by one member, and answers the member that stood after one that left. This is three steps at most.
    pub fn change_list<L: Ledger>(
        &mut self,
        head: &mut Head,
        change: Change,
        moves: &mut Steps<L>,
    ) -> Option<u32>
        ghost ids: { List ℕ }
        requires list { Stands (cell self.old.pool) (link_of self.old.pool) head.old ids }
        requires can { CanChange (cell self.old.pool) change ids }
        ensures list { Stands (cell self.new.pool) (link_of self.new.pool) head.new (changed change ids) }
        ensures next { result ≡ next_after change ids }
        ensures others { OthersStand (cell self.old.pool) (link_of self.old.pool) (cell self.new.pool) (link_of self.new.pool) (members_around change ids) }
        ensures cells { self.new.pool ≡ with_links with_link link_of change ids self.old.pool }
        ensures cap { self.new.pool.cap ≡ self.old.pool.cap }
        ensures spare { self.new.pool.spare ≡ self.old.pool.spare }
        ensures least { moves.old ≤ moves.new }
        ensures most { moves.new ≤ moves.old + 3 }
    {
        change_list(self, head, change, moves)
    }
}
