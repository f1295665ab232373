ghost use Rattle.std.specs.Prelude.{◌≡◌, ◌↔◌, ◌+◌, ◌≤◌, ℕ, All, IfOk, IsTrue, length, slice_index};
ghost use Rattle.block_store.specs.Tables.{IsTable};
ghost use Rattle.slot_pool.specs.Table.{IsGood, is_vacant, once_if};

use crate::tally::tally;
use block_store::PlainTable;
use std::alloc::{AllocError, Global};

// Whether a table is good. The cap on its slots is for the caller.
pub(crate) fn is_table<T>(alloc: Global, table: &PlainTable<T>) -> Result<bool, AllocError>
    requires { length table.now.slots ≤ 16777215 }
    ensures { IfOk result (λ good. (cap : ℕ) → length table.now.slots ≤ cap → (IsTrue good ↔ IsTable cap table.now)) }
{
    has_good_slots(alloc, table.slots(), table.free())
}

// Whether the free list holds the identifier of each empty slot exactly once and no other.
fn has_good_slots<T>(alloc: Global, slots: &[Option<T>], free: &[u32]) -> Result<bool, AllocError>
    requires { length slots.now ≤ 16777215 }
    ensures { IfOk result (λ good. IsTrue good ↔ IsGood (record { slots = slots.now; free = free.now })) }
{
    let counts = tally(alloc, free, slots.len() + 1)?;
    Ok(all_within(free, slots.len()) && are_free_once(slots, &counts))
}

// No identifier is past the slots.
fn all_within(free: &[u32], slots: usize) -> bool
    ensures { IsTrue result ↔ All (λ id. id ≤ slots) free.now }
{
    free.iter().all(|id| *id as usize <= slots)
}

// 0 is counted never, the identifier of an empty slot once and that of a record never.
fn are_free_once<T>(slots: &[Option<T>], counts: &[u8]) -> bool
    requires { length counts.now ≡ length slots.now + 1 }
    ensures { IsTrue result ↔ ((id : ℕ) → id ≤ length slots.now → slice_index counts.now id ≡ once_if (is_vacant slots.now id)) }
{
    if counts[0] != 0 {
        return false;
    }
    for (place, slot) in slots.iter().enumerate() {
        if counts[place + 1] != u8::from(slot.is_none()) {
            return false;
        }
    }
    true
}
