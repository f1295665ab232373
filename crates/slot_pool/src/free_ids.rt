ghost use Rattle.std.specs.Prelude.{◌≡◌};
ghost use Rattle.std.specs.Iterator.{YieldsFirst, item_count};
ghost use Rattle.slot_pool.specs.Stacking.{free_from};

use crate::slots::Slots;
use std::marker::Model;

/// The free ids of a pool that are left, top first. Contracts see their list.
pub struct FreeIds<'a, T> {
    slots: &'a Slots<T>,
    top: u32,
    left: u32,
}

impl<'a, T> Model for FreeIds<'a, T> {
    ghost use Rattle.std.specs.Prelude.{ℕ, List};
    ghost use Rattle.slot_pool.specs.Stacking.{free_from};

    ghost Value = { List ℕ };

    ghost view = { λ ids. free_from ids.slots.now.slots ids.left ids.top };
}

impl<'a, T> FreeIds<'a, T> {
    // So many ids from the top down.
    pub(crate) fn new(slots: &'a Slots<T>, top: u32, left: u32) -> FreeIds<'a, T>
        ensures { result ≡ free_from slots.now.slots left top }
    {
        FreeIds { slots, top, left }
    }
}

impl<'a, T> Drop for FreeIds<'a, T> {
    fn drop(self) {
        let FreeIds {
            slots: _,
            top: _,
            left: _,
        } = self;
    }
}

impl<'a, T> Iterator for FreeIds<'a, T> {
    type Item = u32;

    ghost next_gives = { YieldsFirst (λ ids. ids) };

    ghost remaining = { item_count (λ ids. ids) };

    fn next(&mut self) -> Option<u32> {
        self.left = self.left.checked_sub(1)?;
        let id = self.top;
        self.top = self.slots.below(id);
        Some(id)
    }
}
