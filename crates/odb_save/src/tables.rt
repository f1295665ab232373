ghost use Rattle.std.specs.Prelude.{◌≡◌, ◌++◌, OnOk};
ghost use Rattle.std.specs.List.{flat_map};
ghost use Rattle.odb_base.specs.Kind.{kinds};
ghost use Rattle.odb_fields.specs.Putting.{KeepsVector, bytes_in};
ghost use Rattle.odb_save.specs.Kinds.{slots_behind, table_in};

use crate::lists::put_free;
use crate::slots::put_slot;
use block_store::Database;
use odb_base::{Coded, Kind};
use odb_fields::Put;
use std::alloc::AllocError;

// The twelve tables, in the order of the codes of their kinds.
pub fn put_tables(put: &mut Put<'_>, db: &Database) -> Result<(), AllocError>
    ensures ok { OnOk result (bytes_in put.new ≡ bytes_in put.old ++ flat_map (λ k. table_in k db.now.block) kinds) }
    ensures vector { KeepsVector put.old put.new }
{
    for kind in Kind::every() {
        put_table(put, db, *kind)?;
    }
    Ok(())
}

// The table of a kind: the number of its slots, each slot, and the free identifiers.
fn put_table(put: &mut Put<'_>, db: &Database, kind: Kind) -> Result<(), AllocError>
    ensures ok { OnOk result (bytes_in put.new ≡ bytes_in put.old ++ table_in kind db.now.block) }
    ensures vector { KeepsVector put.old put.new }
{
    put.put_u32(db.block.slots(kind))?;
    put_slots(put, db, kind)?;
    put_free(put, &db.block, kind)?;
    Ok(())
}

fn put_slots(put: &mut Put<'_>, db: &Database, kind: Kind) -> Result<(), AllocError>
    ensures ok { OnOk result (bytes_in put.new ≡ bytes_in put.old ++ slots_behind 0 kind db.now.block) }
    ensures vector { KeepsVector put.old put.new }
{
    for place in 0..db.block.slots(kind) {
        put_slot(put, db, kind, place + 1)?;
    }
    Ok(())
}
