ghost use Rattle.std.specs.Prelude.{◌≡◌, ◌<◌, [], ◌∷◌, ◌++◌, Some, IsSome, IfOk, length, slice_get, slice_index_or, slice_set};
ghost use Rattle.std.specs.Borrow.{sem};

use crate::slot::Slot;
use std::alloc::{AllocError, Global};
use std::marker::Model;
use std::mem;

/// Up to 128 slots in a row, in memory reserved once. Contracts see the list of them.
#[derive(Drop)]
pub struct Page<T> {
    slots: Vec<Slot<T>>,
}

impl<T> Model for Page<T> {
    ghost use Rattle.std.specs.Prelude.{◌≤◌, List, length, vec_capacity};
    ghost use Rattle.slot_pool.specs.declared.slot.Slot.{Slot};

    ghost Value = { List (Slot T) };

    ghost view = { λ p. p.slots.items };

    ghost invariant = { λ p. (length p.slots.items ≤ 128) × (128 ≤ vec_capacity p.slots) };
}

impl<T> Page<T> {
    ghost use Rattle.slot_pool.specs.LendingSlots.{LendsInPage};
    ghost use Rattle.slot_pool.specs.Paging.{vacant};
    ghost use Rattle.slot_pool.specs.Stacking.{content};

    /// The slots, that of the least id first.
    pub fn slots(&self) -> &[Slot<T>]
        ensures { result.now ≡ self.now }
    {
        &self.slots
    }

    // A page of no slots, with memory for 128.
    pub(crate) fn new(alloc: Global) -> Result<Page<T>, AllocError>
        ensures { IfOk result (λ page. page ≡ []) }
    {
        Ok(Page {
            slots: Vec::with_capacity(alloc, 128)?,
        })
    }

    // Adds a slot behind the last.
    pub(crate) fn push(&mut self, slot: Slot<T>)
        requires { length self.old < 128 }
        ensures { self.new ≡ self.old ++ slot ∷ [] }
    {
        self.slots.push_reserved(slot);
    }

    // Takes the last slot away.
    pub(crate) fn pop(&mut self) -> Slot<T>
        requires { 0 < length self.old }
        ensures { self.old ≡ self.new ++ result ∷ [] }
    {
        self.slots.pop().unwrap()
    }

    // Puts a slot into the place of another.
    pub(crate) fn put(&mut self, place: usize, slot: Slot<T>) -> Slot<T>
        requires { place < length self.old }
        ensures was { slice_get self.old place ≡ Some result }
        ensures slots { self.new ≡ slice_set self.old place slot }
    {
        mem::replace(&mut self.slots[place], slot)
    }

    // The record at a place for writing.
    pub(crate) fn record_mut(&mut self, place: usize) -> &mut T
        requires { IsSome (content (slice_index_or self.old place vacant)) }
        ensures* writes_back { sem 𝓛 (LendsInPage T.row self.entry place result) }
        ensures value { content (slice_index_or self.old place vacant) ≡ Some result.now }
    {
        self.slots[place].record_mut()
    }
}
