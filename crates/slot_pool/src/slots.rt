ghost use Rattle.std.specs.Prelude.{◌≡◌, ◌<◌, ◌≤◌, ◌+◌, ◌*◌, ◌-◌, ◌^◌, ℕ, [], ◌∷◌, ◌++◌, Some, IsSome, IfOk, OnOk, length, min, slice_get, slice_index_or, slice_set};
ghost use Rattle.std.specs.Borrow.{sem};

use crate::page::Page;
use crate::slot::Slot;
use std::alloc::{AllocError, Global};
use std::marker::Model;

// Slots one after another, in pages of 128.
#[derive(Drop)]
pub struct Slots<T> {
    pages: Vec<Page<T>>,
    len: usize,
}

impl<T> Model for Slots<T> {
    ghost use Rattle.std.specs.Prelude.{◌*◌, length};
    ghost use Rattle.slot_pool.specs.Paging.{Paged, IsPaged, slots_in};

    ghost Value = { Paged T };

    ghost view = { λ s. record { slots = slots_in s.pages.items s.len; room = 128 * length s.pages.items } };

    ghost invariant = { λ s. IsPaged s.pages.items s.len };
}

impl<T> Slots<T> {
    ghost use Rattle.slot_pool.specs.LendingSlots.{LendsInSlots};
    ghost use Rattle.slot_pool.specs.Paging.{vacant};
    ghost use Rattle.slot_pool.specs.Stacking.{below_at, content};

    pub fn new(alloc: Global) -> Slots<T>
        ensures { result ≡ record { slots = []; room = 0 } }
    {
        Slots {
            pages: Vec::new(alloc),
            len: 0,
        }
    }

    pub fn len(&self) -> usize
        ensures count { result ≡ length self.now.slots }
        ensures within { length self.now.slots ≤ self.now.room }
    {
        self.len
    }

    // The slot at a place, counted from 0.
    pub fn at(&self, place: usize) -> &Slot<T>
        requires { place < length self.now.slots }
        ensures { slice_get self.now.slots place ≡ Some result.now }
    {
        &self.pages[place / 128].slots()[place % 128]
    }

    // Puts a slot into the place of another, which it answers.
    pub fn put(&mut self, place: usize, slot: Slot<T>) -> Slot<T>
        requires { place < length self.old.slots }
        ensures was { slice_get self.old.slots place ≡ Some result }
        ensures slots { self.new.slots ≡ slice_set self.old.slots place slot }
        ensures room { self.new.room ≡ self.old.room }
    {
        self.pages[place / 128].put(place % 128, slot)
    }

    // Adds a slot behind the last.
    pub fn push(&mut self, slot: Slot<T>)
        requires room { length self.old.slots < self.old.room }
        requires fits { length self.old.slots < 2 ^ 32 }
        ensures slots { self.new.slots ≡ self.old.slots ++ slot ∷ [] }
        ensures room { self.new.room ≡ self.old.room }
    {
        self.pages[self.len / 128].push(slot);
        self.len += 1;
    }

    // Takes the last slot away.
    pub fn pop(&mut self) -> Slot<T>
        requires { 0 < length self.old.slots }
        ensures slots { self.old.slots ≡ self.new.slots ++ result ∷ [] }
        ensures room { self.new.room ≡ self.old.room }
    {
        self.len -= 1;
        self.pages[self.len / 128].pop()
    }

    // Makes pages for so many slots in all.
    pub fn reserve(&mut self, count: usize) -> Result<(), AllocError>
        ensures ok { OnOk result (count ≤ self.new.room) }
        ensures slots { self.new.slots ≡ self.old.slots }
        ensures room { self.old.room ≤ self.new.room }
    {
        let pages = count.div_ceil(128);
        for _ in self.pages.len()..pages {
            self.add_page()?;
        }
        Ok(())
    }

    // Makes one page more.
    fn add_page(&mut self) -> Result<(), AllocError>
        ensures ok { OnOk result (self.new.room ≡ self.old.room + 128) }
        ensures slots { self.new.slots ≡ self.old.slots }
        ensures room { self.old.room ≤ self.new.room }
    {
        self.pages.reserve(1)?;
        let page = Page::new(*self.pages.allocator())?;
        self.pages.push_reserved(page);
        Ok(())
    }

    // The page of these slots, counted from 0.
    pub fn page(&self, k: u32) -> &Page<T>
        requires { 128 * k < length self.now.slots }
        ensures count { length result.now ≡ min 128 (length self.now.slots - 128 * k) }
        ensures slots { (i : ℕ) → i < length result.now → slice_get result.now i ≡ slice_get self.now.slots (128 * k + i) }
    {
        &self.pages[k as usize]
    }

    // The record at a place for writing.
    pub fn record_mut(&mut self, place: usize) -> &mut T
        requires { IsSome (content (slice_index_or self.old.slots place vacant)) }
        ensures* writes_back { sem 𝓛 (LendsInSlots T.row self.entry place result) }
        ensures value { content (slice_index_or self.old.slots place vacant) ≡ Some result.now }
    {
        self.pages[place / 128].record_mut(place % 128)
    }

    // The id that stands next below another in the free list: 0 for the last, and for what is no free id.
    pub fn below(&self, id: u32) -> u32
        ensures { result ≡ below_at self.now.slots id }
    {
        let place = match id.checked_sub(1) {
            Some(place) => place as usize,
            None => return 0,
        };
        if self.len() <= place {
            return 0;
        }
        match self.at(place) {
            Slot::Free { below } => *below,
            Slot::Live(_) => 0,
        }
    }
}
