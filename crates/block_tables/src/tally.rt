ghost use Rattle.std.specs.Prelude.{◌≡◌, ◌≢◌, ◌+◌, ◌<◌, ℕ, IfOk, length, min, slice_index};
ghost use Rattle.block_tables.specs.Counting.{often};

use std::alloc::{AllocError, Global};

// How often each number below a limit stands in a list, counted up to two.
pub(crate) fn tally(alloc: Global, numbers: &[u32], limit: usize) -> Result<Vec<u8>, AllocError>
    ensures long { IfOk result (λ counts. length counts.items ≡ limit) }
    ensures counts { IfOk result (λ counts. (number : ℕ) → number < limit → slice_index counts.items number ≡ often number numbers.now) }
{
    let mut counts = vec![in alloc; 0u8; limit]?;
    for number in numbers {
        count_one(&mut counts, *number);
    }
    Ok(counts)
}

// Counts a number once more, if it is below the limit.
pub(crate) fn count_one(counts: &mut Vec<u8>, number: u32)
    ensures long { length counts.new.items ≡ length counts.old.items }
    ensures others { (other : ℕ) → other ≢ number → slice_index counts.new.items other ≡ slice_index counts.old.items other }
    ensures this { number < length counts.old.items → slice_index counts.new.items number ≡ min 2 (slice_index counts.old.items number + 1) }
{
    let place = number as usize;
    if place < counts.len() {
        counts[place] = if counts[place] == 0 { 1 } else { 2 };
    }
}
