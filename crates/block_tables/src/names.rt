ghost use Rattle.std.specs.Prelude.{◌≡◌, ◌↔◌, ◌+◌, List, ℕ, IfOk, IsTrue, OnOk, min, if◌then◌else◌};
ghost use Rattle.slot_pool.specs.Table.{record_at};
ghost use Rattle.named_pool.specs.Names.{is_named};
ghost use Rattle.block_tables.specs.Counting.{holders_in};
ghost use Rattle.block_tables.specs.Indexes.{CountsHolders};
ghost use Rattle.block_tables.specs.Names.{IsAlone};

use crate::holders::Holders;
use block_store::PlainTable;
use named_pool::Named;
use std::alloc::{AllocError, Global};

// How many objects in the slots have each name.
pub(crate) fn holders_of<T: Named>(
    alloc: Global,
    slots: &[Option<T>],
) -> Result<Holders<'_>, AllocError>
    ensures { IfOk result (λ holders. CountsHolders T.own_name slots.now holders.counts) }
{
    let mut holders = Holders::new(alloc);
    for slot in slots {
        enter_slot(&mut holders, slot)?;
    }
    Ok(holders)
}

// One more slot.
fn enter_slot<'a, T: Named>(
    holders: &mut Holders<'a>,
    slot: &'a Option<T>,
) -> Result<(), AllocError>
    ensures ok { OnOk result ((name : List ℕ) → holders_in holders.new.counts name ≡ (if is_named T.own_name name slot.now then min 2 (holders_in holders.old.counts name + 1) else holders_in holders.old.counts name)) }
{
    match slot {
        Some(object) => holders.enter(object.name().bytes()),
        None => Ok(()),
    }
}

// Whether no other object of a table has the name of this one.
pub(crate) fn is_alone<T: Named>(holders: &Holders<'_>, table: &PlainTable<T>, id: u32) -> bool
    requires { CountsHolders T.own_name table.now.slots holders.now.counts }
    ensures { (object : T) → record_at table.now id ≡ Some object → (IsTrue result ↔ IsAlone T.own_name table.now id (T.own_name object)) }
{
    match table.get(id) {
        Some(object) => holders.of(object.name().bytes()) == 1,
        None => true,
    }
}
