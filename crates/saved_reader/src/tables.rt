ghost use Rattle.std.specs.Prelude.{◌≡◌};
ghost use Rattle.saved_fields.specs.Parts.{free_count_at, may_have, slot_count_at, table_at};
ghost use Rattle.saved_fields.specs.Reading.{Reads};
ghost use Rattle.block_store.specs.View.{is_built as may_have_objects};

use crate::lists::{Spelled, get_many};
use block_store::PlainTable;
use block_store::values::is_built;
use odb_base::Kind;
use odb_fields::Get;
use saved_fields::ReadFault;
use std::alloc::Global;

/// Reads the table of a kind: its slots, at most `cap`, each empty or with a record, and its free identifiers, top
/// first. That of a kind whose objects are still to come has neither.
#[tactic(auto, unfolding(saved_fields::specs::Parts::table_at))]
pub fn get_table<T: Spelled>(
    alloc: Global,
    input: &mut Get<'_>,
    kind: Kind,
    cap: u32,
) -> Result<PlainTable<T>, ReadFault>
    ensures { Reads result (table_at (may_have_objects kind) kind cap T.format.at input.old) input.new }
{
    let slot_count = get_slot_count(input, kind, cap)?;
    let slots = get_many(alloc, input, slot_count)?;
    let free_count = get_free_count(input, kind)?;
    let free = get_many(alloc, input, free_count)?;
    Ok(PlainTable { slots, free })
}

// Reads how many slots a table has.
#[tactic(auto, unfolding(saved_fields::specs::Parts::slot_count_at))]
fn get_slot_count(input: &mut Get<'_>, kind: Kind, cap: u32) -> Result<u32, ReadFault>
    ensures { Reads result (slot_count_at (may_have_objects kind) kind cap input.old) input.new }
{
    let at = input.place();
    let count = input.get_u32()?;
    if cap < count {
        return Err(ReadFault::OverCap { kind });
    }
    if may_count(kind, count) {
        Ok(count)
    } else {
        Err(ReadFault::BadField { at })
    }
}

// Reads how many free identifiers a table has.
#[tactic(auto, unfolding(saved_fields::specs::Parts::free_count_at))]
fn get_free_count(input: &mut Get<'_>, kind: Kind) -> Result<u32, ReadFault>
    ensures { Reads result (free_count_at (may_have_objects kind) input.old) input.new }
{
    let at = input.place();
    let count = input.get_u32()?;
    if may_count(kind, count) {
        Ok(count)
    } else {
        Err(ReadFault::BadField { at })
    }
}

fn may_count(kind: Kind, count: u32) -> bool
    ensures { result ≡ may_have (may_have_objects kind) count }
{
    is_built(kind) || count == 0
}
