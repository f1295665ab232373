ghost use Rattle.std.specs.Prelude.{◌≡◌, List, ℕ};
ghost use Rattle.std.specs.Iterator.{YieldsFirst, item_count};
ghost use Rattle.link_list.specs.Standing.{Stands};
ghost use Rattle.block_cells.specs.Lists.{head_at, is_cell, link_at, sort_of};

use crate::list_of::ListOf;
use crate::pools::Pools;
use std::marker::Model;

/// The members of a list that are left, by their links. Contracts see their list.
#[derive(Drop)]
pub struct Links<'a> {
    pools: &'a Pools,
    list: ListOf,
    // The first member that is left, 0 for none.
    next: u32,
}

impl<'a> Model for Links<'a> {
    ghost use Rattle.std.specs.Prelude.{List, ℕ};
    ghost use Rattle.block_cells.specs.Lists.{is_cell, link_at, rest_from, sort_of};
    ghost use Rattle.block_cells.specs.Walking.{IsRest};

    ghost Value = { List ℕ };

    ghost view = { λ s. rest_from (sort_of s.list) s.pools.now.cells s.next };

    ghost invariant = { λ s. IsRest (is_cell (sort_of s.list) s.pools.now.cells) (link_at (sort_of s.list) s.pools.now.cells) s.next };
}

impl<'a> Iterator for Links<'a> {
    type Item = u32;

    ghost next_gives = { YieldsFirst (λ members. members) };

    ghost remaining = { item_count (λ members. members) };

    fn next(&mut self) -> Option<u32> {
        if self.next == 0 {
            return None;
        }
        let member = self.next;
        self.next = self.pools.link(self.list, member).after;
        Some(member)
    }
}

impl Pools {
    /// The members of a list in their order, by their links. The head has to stand for a list.
    pub fn walk(&self, list: ListOf) -> Links<'_>
        ghost ids: { List ℕ }
        requires { Stands (is_cell (sort_of list) self.now.cells) (link_at (sort_of list) self.now.cells) (head_at list self.now.cells) ids }
        ensures { result ≡ ids }
    {
        Links {
            pools: self,
            list,
            next: self.head(list).first,
        }
    }
}
