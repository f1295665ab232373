ghost use Rattle.std.specs.Prelude.{◌≡◌, ◌+◌, length};
ghost use Rattle.std.specs.Iterator.{YieldsFirst, item_count};
ghost use Rattle.block_store.specs.Block.{free_in, slots_in};
ghost use Rattle.block_store.specs.Live.{live_count_in, live_ids};

use crate::block::Block;
use odb_base::Kind;
use std::marker::Model;

/// The identifiers of the objects of a kind that are left, upward. Contracts see their list.
#[derive(Drop)]
pub struct Live<'a> {
    block: &'a Block,
    kind: Kind,
    // How many slots are behind it.
    passed: u32,
    // How many slots the table has.
    slots: u32,
}

impl<'a> Model for Live<'a> {
    ghost use Rattle.std.specs.Prelude.{◌+◌, ◌-◌, ℕ, List};

    ghost Value = { List ℕ };

    ghost use Rattle.block_store.specs.Live.{live_from};

    ghost view = { λ s. live_from (s.passed + 1) (s.slots - s.passed) s.kind s.block.now.block };
}

impl<'a> Iterator for Live<'a> {
    type Item = u32;

    ghost next_gives = { YieldsFirst (λ ids. ids) };

    ghost remaining = { item_count (λ ids. ids) };

    fn next(&mut self) -> Option<u32> {
        while self.passed < self.slots {
            self.passed += 1;
            if self.block.live(self.kind, self.passed) {
                return Some(self.passed);
            }
        }
        None
    }
}

impl Block {
    /// The identifiers of the objects of a kind, upward.
    pub fn ids(&self, kind: Kind) -> Live<'_>
        ensures { result ≡ live_ids kind self.now.block }
    {
        Live {
            block: self,
            kind,
            passed: 0,
            slots: self.slots(kind),
        }
    }

    /// The number of objects of a kind.
    pub fn live_count(&self, kind: Kind) -> u32
        ensures count { result ≡ live_count_in kind self.now.block }
        ensures others { result + length (free_in kind self.now.block) ≡ slots_in kind self.now.block }
    {
        self.pools.live_count(kind)
    }
}
