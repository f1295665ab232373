ghost use Rattle.std.specs.Prelude.{◌≡◌};
ghost use Rattle.std.specs.Iterator.{YieldsFirst, item_count};
ghost use Rattle.block_store.specs.Lists.{list_at};

use crate::block::Block;
use crate::list_of::ListOf;
use std::marker::Model;

/// The members of a list that are left, in their order. Contracts see their list.
#[derive(Drop)]
pub struct Walk<'a> {
    members: &'a [u32],
}

impl<'a> Model for Walk<'a> {
    ghost use Rattle.std.specs.Prelude.{ℕ, List};

    ghost Value = { List ℕ };

    ghost view = { λ walk. walk.members.now };
}

impl<'a> Iterator for Walk<'a> {
    type Item = u32;

    ghost next_gives = { YieldsFirst (λ members. members) };

    ghost remaining = { item_count (λ members. members) };

    fn next(&mut self) -> Option<u32> {
        let (member, behind) = self.members.split_first()?;
        self.members = behind;
        Some(*member)
    }
}

impl Block {
    /// The members of a list in their order. An object that isn't there has none, and so has one of a kind
    /// without such a list.
    pub fn walk(&self, list: ListOf) -> Walk<'_>
        ensures { result ≡ list_at list self.now.block }
    {
        Walk {
            members: self.members(list),
        }
    }
}
