ghost use Rattle.std.specs.Prelude.{◌≡◌, ◌↔◌, ◌+◌, ◌-◌, ◌*◌, ◌<◌, ◌≤◌, ◌^◌, ℕ, [], Some, None, true, IsTrue, IsSome, IfOk, OnOk, length, map, min, option_copied, slice_get, slice_index_or};
ghost use Rattle.std.specs.Borrow.{sem};
ghost use Rattle.slot_pool.specs.Stacking.{below, content, free_from, under};
ghost use Rattle.slot_pool.specs.Table.{IsGood};

use crate::fault::PoolFault;
use crate::free_ids::FreeIds;
use crate::page::Page;
use crate::slot::Slot;
use crate::slots::Slots;
use odb_base::Steps;
use std::alloc::{AllocError, Global};
use std::marker::Model;
use std::sync::ledger::Ledger;

/// Records in numbered slots, from 1, up to a cap.
#[derive(Drop)]
pub struct SlotPool<T> {
    slots: Slots<T>,
    // The top free id, and how many there are. Each empty slot has the id below its own.
    top: u32,
    free: u32,
    cap: u32,
    moved: u64,
}

impl<T> Model for SlotPool<T> {
    ghost use Rattle.std.specs.Prelude.{length};
    ghost use Rattle.slot_pool.specs.Table.{Pool};

    ghost Value = { Pool T };

    ghost use Rattle.slot_pool.specs.Layout.{spare_of, IsKept};
    ghost use Rattle.slot_pool.specs.Stacking.{stack_table};

    ghost view = { λ s. record {
      table = stack_table s.slots.slots s.free s.top;
      cap = s.cap;
      spare = spare_of (length s.slots.slots) s.free s.slots.room s.cap;
      moved = s.moved;
    } };

    ghost invariant = { λ s. IsKept s.slots.slots s.free s.top s.slots.room s.cap };
}

impl<T> SlotPool<T> {
    ghost use Rattle.slot_pool.specs.Table.{IsSpareBounded, CanUntake, CanUngive};
    ghost use Rattle.slot_pool.specs.Table.{record_at, is_live, live_count, next_id, takes_left};
    ghost use Rattle.slot_pool.specs.Table.{taken, given, replaced, untaken, ungiven, once_more};
    ghost use Rattle.slot_pool.specs.Pages.{slot_of};
    ghost use Rattle.slot_pool.specs.Lending.{LendsRecord};

    /// A pool with no slots, which will have at most `cap`. It takes no memory.
    pub fn new(alloc: Global, cap: u32) -> SlotPool<T>
        ensures table { result.table ≡ record { slots = []; free = [] } }
        ensures cap { result.cap ≡ cap }
        ensures moved { result.moved ≡ 0 }
    {
        SlotPool {
            slots: Slots::new(alloc),
            top: 0,
            free: 0,
            cap,
            moved: 0,
        }
    }

    /// The pool with these slots, these free ids, top first, and this cap. The table has to be good, with at
    /// most `cap` slots. It takes memory for the pages.
    pub fn from_parts(
        slots: Vec<Option<T>>,
        free: Vec<u32>,
        cap: u32,
    ) -> Result<SlotPool<T>, AllocError>
    where
        T: Drop,
        requires good { IsGood (record { slots = slots.items; free = free.items }) }
        requires within { length slots.items ≤ cap }
        ensures table { IfOk result (λ pool. pool.table ≡ record { slots = slots.items; free = free.items }) }
        ensures cap { IfOk result (λ pool. pool.cap ≡ cap) }
        ensures moved { IfOk result (λ pool. pool.moved ≡ 0) }
    {
        let count = free.len() as u32;
        let mut slots = in_pages(slots)?;
        let top = stack(&mut slots, &free);
        Ok(SlotPool {
            slots,
            top,
            free: count,
            cap,
            moved: 0,
        })
    }

    /// The greatest number of slots.
    pub fn cap(&self) -> u32
        ensures cap { result ≡ self.now.cap }
        ensures within { length self.now.table.slots ≤ self.now.cap }
    {
        self.cap
    }

    /// The number of slots, with a record or empty.
    pub fn slots(&self) -> u32
        ensures count { result ≡ length self.now.table.slots }
        ensures good { IsGood self.now.table }
        ensures within { length self.now.table.slots ≤ self.now.cap }
        ensures bounds { IsSpareBounded self.now }
    {
        // No count of slots is above the cap, which has 32 bits: so the proof reads it.
        let _cap = self.cap;
        self.slots.len() as u32
    }

    /// Whether the id has a record.
    pub fn live(&self, id: u32) -> bool
        ensures { result ≡ is_live self.now.table id }
    {
        self.get(id).is_some()
    }

    /// The record of an id. There is none for 0, for an id past the slots, and for an empty slot.
    pub fn get(&self, id: u32) -> Option<&T>
        ensures { option_copied result ≡ record_at self.now.table id }
    {
        let place = id.checked_sub(1)? as usize;
        if self.slots.len() <= place {
            return None;
        }
        match self.slots.at(place) {
            Slot::Live(record) => Some(record),
            Slot::Free { below: _ } => None,
        }
    }

    /// The number of slots with a record.
    #[tactic(auto, using(crate::proofs::Counts::empty_and_live))]
    pub fn live_count(&self) -> u32
        ensures count { result ≡ live_count self.now.table }
        ensures others { result + length self.now.table.free ≡ length self.now.table.slots }
    {
        // No count of slots is above the cap, which has 32 bits: so the proof reads it.
        let _cap = self.cap;
        self.slots.len() as u32 - self.free
    }

    /// The free ids, top first.
    pub fn free(&self) -> FreeIds<'_, T>
        ensures { result ≡ self.now.table.free }
    {
        FreeIds::new(&self.slots, self.top, self.free)
    }

    /// The page of 128 slots, or of fewer where it is the last, whose first id is 128 * `k` + 1. The number of
    /// slots has to be above 128 * `k`. An empty slot has the id that stands next below its own in the free
    /// list, 0 for the last.
    pub fn page(&self, k: u32) -> &Page<T>
        requires { 128 * k < length self.now.table.slots }
        ensures count { length result.now ≡ min 128 (length self.now.table.slots - 128 * k) }
        ensures slots { (i : ℕ) → i < length result.now → slice_get result.now i ≡ Some (slot_of self.now.table (128 * k + i + 1)) }
    {
        self.slots.page(k)
    }

    /// How many moves the pool has made; it stops at the greatest number of 64 bits.
    pub fn moved(&self) -> u64
        ensures { result ≡ self.now.moved }
    {
        self.moved
    }

    /// The id that the take after `k` further takes would give.
    pub fn next_id(&self, k: u32) -> u64
        ensures id { result ≡ next_id self.now.table k }
        ensures within { k < takes_left self.now → result ≤ self.now.cap }
        ensures fits { k < takes_left self.now → result < 2 ^ 32 }
    {
        // No count of slots is above the cap, which has 32 bits: so the proof reads it.
        let _cap = self.cap;
        self.id_after(k)
    }

    fn id_after(&self, k: u32) -> u64
        ensures { result ≡ next_id self.now.table k }
    {
        if k < self.free {
            self.free_id(k) as u64
        } else {
            self.slots() as u64 + (k as u64 + 1 - self.free as u64)
        }
    }

    // The free id with so many above it.
    fn free_id(&self, k: u32) -> u32
        requires { k < length self.now.table.free }
        ensures { result ≡ slice_index_or self.now.table.free k 0 }
    {
        let mut id = self.top;
        for _ in 0..k {
            id = self.slots.below(id);
        }
        id
    }

    /// Makes `spare` at least `n`. `Full` comes exactly where the free ids and the slots that the cap still
    /// allows are fewer than `n`. After a fault the table stays too.
    pub fn reserve(&mut self, n: u32) -> Result<(), PoolFault>
        ensures ok { OnOk result (n ≤ self.new.spare) }
        ensures full { (result ≡ Err PoolFault.Full) ↔ (takes_left self.old < n) }
        ensures table { self.new.table ≡ self.old.table }
        ensures cap { self.new.cap ≡ self.old.cap }
        ensures spare { self.old.spare ≤ self.new.spare }
        ensures moved { self.new.moved ≡ self.old.moved }
    {
        let free = self.free as usize;
        let slots = self.slots.len();
        if free + (self.cap as usize - slots) < n as usize {
            return Err(PoolFault::Full);
        }
        let added = (n as usize).saturating_sub(free);
        self.slots.reserve(slots + added)?;
        Ok(())
    }

    /// Puts a record into the slot of the top free id, or into a slot that it adds where no id is free.
    pub fn take<L: Ledger>(&mut self, value: T, moves: &mut Steps<L>) -> Taken
        requires { 1 ≤ self.old.spare }
        ensures id { result.id ≡ next_id self.old.table 0 }
        ensures grew { IsTrue result.grew ↔ (self.old.table.free ≡ []) }
        ensures table { self.new.table ≡ taken value self.old.table }
        ensures cap { self.new.cap ≡ self.old.cap }
        ensures spare { self.old.spare ≤ self.new.spare + 1 }
        ensures moves { moves.new ≡ moves.old + 1 }
        ensures back { untaken result.id result.grew self.new.table ≡ self.old.table }
        ensures can { CanUntake self.new.table result.id result.grew }
        ensures moved { self.new.moved ≡ once_more self.old.moved }
        ensures good { IsGood self.old.table }
    {
        if self.free == 0 {
            let id = self.grow(value);
            moves.tick();
            Taken { id, grew: true }
        } else {
            let id = self.ungive(value, moves);
            Taken { id, grew: false }
        }
    }

    // Adds a slot for a record.
    fn grow(&mut self, value: T) -> u32
        requires none_free { self.old.table.free ≡ [] }
        requires spare { 1 ≤ self.old.spare }
        ensures id { result ≡ length self.old.table.slots + 1 }
        ensures table { self.new.table ≡ taken value self.old.table }
        ensures cap { self.new.cap ≡ self.old.cap }
        ensures spare { self.old.spare ≤ self.new.spare + 1 }
        ensures back { untaken result true self.new.table ≡ self.old.table }
        ensures can { CanUntake self.new.table result true }
        ensures moved { self.new.moved ≡ once_more self.old.moved }
        ensures good { IsGood self.old.table }
    {
        let id = self.slots.len() as u32 + 1;
        self.slots.push(Slot::Live(value));
        self.moved = self.moved.saturating_add(1);
        id
    }

    /// Takes the record out of its slot, and puts the id on top of the free ids.
    pub fn give<L: Ledger>(&mut self, id: u32, moves: &mut Steps<L>) -> T
        requires { IsTrue (is_live self.old.table id) }
        ensures value { record_at self.old.table id ≡ Some result }
        ensures table { self.new.table ≡ given id self.old.table }
        ensures cap { self.new.cap ≡ self.old.cap }
        ensures spare { self.old.spare + 1 ≤ self.new.spare }
        ensures moves { moves.new ≡ moves.old + 1 }
        ensures back { ungiven result self.new.table ≡ self.old.table }
        ensures can { CanUngive self.new.table }
        ensures moved { self.new.moved ≡ once_more self.old.moved }
    {
        moves.tick();
        self.moved = self.moved.saturating_add(1);
        let slot = self
            .slots
            .put((id - 1) as usize, Slot::Free { below: self.top });
        self.top = id;
        self.free += 1;
        record_of(slot)
    }

    /// Takes back the take that gave this id last: its slot goes where the take added it (`grew`), and else
    /// the id goes on top of the free ids.
    pub fn untake<L: Ledger>(&mut self, id: u32, grew: bool, moves: &mut Steps<L>) -> T
        requires { CanUntake self.old.table id grew }
        ensures value { record_at self.old.table id ≡ Some result }
        ensures table { self.new.table ≡ untaken id grew self.old.table }
        ensures cap { self.new.cap ≡ self.old.cap }
        ensures spare { self.old.spare + 1 ≤ self.new.spare }
        ensures moves { moves.new ≡ moves.old + 1 }
        ensures moved { self.new.moved ≡ once_more self.old.moved }
    {
        if grew {
            moves.tick();
            self.shrink(id)
        } else {
            self.give(id, moves)
        }
    }

    // Drops the last slot, that of this id.
    fn shrink(&mut self, id: u32) -> T
        requires { CanUntake self.old.table id true }
        ensures value { record_at self.old.table id ≡ Some result }
        ensures table { self.new.table ≡ untaken id true self.old.table }
        ensures cap { self.new.cap ≡ self.old.cap }
        ensures spare { self.old.spare + 1 ≤ self.new.spare }
        ensures moved { self.new.moved ≡ once_more self.old.moved }
    {
        self.moved = self.moved.saturating_add(1);
        record_of(self.slots.pop())
    }

    /// Takes back the give that came last: its id, which is the top free id, gets the record.
    pub fn ungive<L: Ledger>(&mut self, value: T, moves: &mut Steps<L>) -> u32
        requires { CanUngive self.old.table }
        ensures id { result ≡ next_id self.old.table 0 }
        ensures table { self.new.table ≡ ungiven value self.old.table }
        ensures cap { self.new.cap ≡ self.old.cap }
        ensures spare { self.old.spare ≤ self.new.spare + 1 }
        ensures moves { moves.new ≡ moves.old + 1 }
        ensures back { given result self.new.table ≡ self.old.table }
        ensures live { IsTrue (is_live self.new.table result) }
        ensures moved { self.new.moved ≡ once_more self.old.moved }
        ensures good { IsGood self.old.table }
    {
        moves.tick();
        self.moved = self.moved.saturating_add(1);
        let id = self.top;
        self.top = below_of(self.slots.put((id - 1) as usize, Slot::Live(value)));
        self.free -= 1;
        id
    }

    /// Puts a record into a slot in place of its own, which it answers.
    pub fn replace<L: Ledger>(&mut self, id: u32, value: T, moves: &mut Steps<L>) -> T
        requires { IsTrue (is_live self.old.table id) }
        ensures value { record_at self.old.table id ≡ Some result }
        ensures table { self.new.table ≡ replaced id value self.old.table }
        ensures cap { self.new.cap ≡ self.old.cap }
        ensures spare { self.new.spare ≡ self.old.spare }
        ensures moves { moves.new ≡ moves.old + 1 }
        ensures moved { self.new.moved ≡ once_more self.old.moved }
    {
        moves.tick();
        self.moved = self.moved.saturating_add(1);
        record_of(self.slots.put((id - 1) as usize, Slot::Live(value)))
    }

    /// The record of an id for writing. Once the borrow ends, the slot has the last value written, and all
    /// else is as it was.
    pub fn change<L: Ledger>(&mut self, id: u32, moves: &mut Steps<L>) -> &mut T
        requires { IsTrue (is_live self.old.table id) }
        ensures* writes_back { sem 𝓛 (LendsRecord T.row self.entry id result) }
        ensures value { record_at self.old.table id ≡ Some result.now }
        ensures moves { moves.new ≡ moves.old + 1 }
    {
        moves.tick();
        self.moved = self.moved.saturating_add(1);
        self.slots.record_mut((id - 1) as usize)
    }
}

// The record of a slot that has one.
fn record_of<T>(slot: Slot<T>) -> T
    requires { IsSome (content slot) }
    ensures { content slot ≡ Some result }
{
    match slot {
        Slot::Live(record) => record,
        Slot::Free { below: _ } => unreachable!(),
    }
}

// The id next below that of an empty slot.
fn below_of<T>(slot: Slot<T>) -> u32
    requires { content slot ≡ None }
    ensures { result ≡ below slot }
{
    match slot {
        Slot::Free { below } => below,
        Slot::Live(_) => unreachable!(),
    }
}

// The slots in pages; nothing stands below an empty one yet.
fn in_pages<T: Drop>(slots: Vec<Option<T>>) -> Result<Slots<T>, AllocError>
    requires { length slots.items < 2 ^ 32 }
    ensures slots { IfOk result (λ paged. map content paged.slots ≡ slots.items) }
    ensures room { IfOk result (λ paged. length slots.items ≤ paged.room) }
{
    let mut paged = Slots::new(*slots.allocator());
    paged.reserve(slots.len())?;
    for slot in slots {
        paged.push(match slot {
            Some(record) => Slot::Live(record),
            None => Slot::Free { below: 0 },
        });
    }
    Ok(paged)
}

// Stacks the free ids, given top first, in their empty slots, and answers the top.
fn stack<T: Drop>(slots: &mut Slots<T>, free: &[u32]) -> u32
    requires { IsGood (record { slots = map content slots.old.slots; free = free.now }) }
    ensures slots { map content slots.new.slots ≡ map content slots.old.slots }
    ensures free { free_from slots.new.slots (length free.now) result ≡ free.now }
    ensures ends { under slots.new.slots (length free.now) result ≡ 0 }
    ensures room { slots.new.room ≡ slots.old.room }
{
    let mut top = 0;
    for index in (0..free.len()).rev() {
        let id = free[index];
        below_of(slots.put((id - 1) as usize, Slot::Free { below: top }));
        top = id;
    }
    top
}

/// What a take gave.
#[derive(Clone, Copy, Debug, PartialEq, Eq)]
pub struct Taken {
    /// The id of the slot with the record.
    pub id: u32,
    /// Whether the take added the slot.
    pub grew: bool,
}
