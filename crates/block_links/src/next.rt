ghost use Rattle.std.specs.Iterator.{YieldsFirst, item_count};
ghost use Rattle.std.specs.Prelude.{◌≡◌, ◌<◌, ◌≤◌, ◌^◌, length};
ghost use Rattle.block_store.specs.Block.{free_in, later_in, left_in};
ghost use Rattle.block_store.specs.Upcoming.{upcoming_in};

use crate::block::Block;
use block_cells::FreeIds;
use odb_base::Kind;
use std::marker::Model;

/// The identifiers that the next new objects of a kind get, in their order. Contracts see their list.
#[derive(Drop)]
pub struct NextIds<'a> {
    free: FreeIds<'a>,
    // The last identifier that was given out behind the free ones, or the number of slots.
    slots: u32,
}

impl<'a> Model for NextIds<'a> {
    ghost use Rattle.std.specs.Prelude.{ℕ, List};

    ghost Value = { List ℕ };

    ghost use Rattle.block_store.specs.Upcoming.{and_behind};

    ghost view = { λ ids. and_behind ids.free ids.slots };
}

impl<'a> Iterator for NextIds<'a> {
    type Item = u32;

    ghost next_gives = { YieldsFirst (λ ids. ids) };

    ghost remaining = { item_count (λ ids. ids) };

    #[tactic(auto, using(block_store::proofs::Upcoming::first_behind, block_store::proofs::Upcoming::none_behind))]
    fn next(&mut self) -> Option<u32> {
        if let Some(id) = self.free.next() {
            return Some(id);
        }
        self.slots = self.slots.checked_add(1)?;
        Some(self.slots)
    }
}

impl Block {
    /// The free identifiers of a kind, top first: the next new object gets the first of them.
    pub fn free_ids(&self, kind: Kind) -> FreeIds<'_>
        ensures { result ≡ free_in kind self.now.block }
    {
        self.pools.free_ids(kind)
    }

    /// The identifiers that the next new objects of a kind get, in their order: the free ones, top first, and then those
    /// of slots behind the last. Each takes a constant number of steps.
    #[tactic(auto, using(block_store::proofs::Upcoming::count_upcoming))]
    pub fn next_ids(&self, kind: Kind) -> NextIds<'_>
        ensures ids { result ≡ upcoming_in kind self.now.block }
        ensures enough { left_in kind self.now.cap self.now.block ≤ length result }
    {
        NextIds {
            free: self.free_ids(kind),
            slots: self.slots(kind),
        }
    }

    /// How many new objects of a kind the cap still allows.
    pub fn left(&self, kind: Kind) -> u32
        ensures left { result ≡ left_in kind self.now.cap self.now.block }
        ensures within { result ≤ self.now.cap }
    {
        self.pools.left(kind)
    }

    /// The identifier that a new object of a kind gets after `k` further ones.
    pub fn next_id(&self, kind: Kind, k: u32) -> u64
        ensures id { result ≡ later_in kind k self.now.block }
        ensures fits { k < left_in kind self.now.cap self.now.block → result < 2 ^ 32 }
    {
        self.pools.next_id(kind, k)
    }
}
