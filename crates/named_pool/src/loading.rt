// An index made for the objects that are in the slots of a pool already.

ghost use Rattle.std.specs.Prelude.{◌≡◌, ◌+◌, ◌-◌, ◌≤◌, List, ℕ, IfOk, OnOk, length, map, option_map};
ghost use Rattle.name_index.specs.Index.{spare};
ghost use Rattle.named_pool.specs.Held.{HoldsTo, IsNamed, objects};
ghost use Rattle.named_pool.specs.Names.{AreNamed};

use crate::cells::{NameCell, NameCells};
use crate::named::Named;
use name_index::NameIndex;
use odb_base::Steps;
use std::alloc::{AllocError, Global};
use std::sync::ledger::{Blank, Ledger};

/// The slots of a pool, each object in its cell and in no chain.
pub(crate) fn cells_of<R: Drop>(
    alloc: Global,
    slots: Vec<Option<R>>,
) -> Result<Vec<Option<NameCell<R>>>, AllocError>
    ensures { IfOk result (λ cells. map (option_map (λ c. c.value)) cells.items ≡ slots.items) }
{
    let mut cells = Vec::new(alloc);
    cells.reserve(slots.len())?;
    for slot in slots {
        cells.push(cell_of(slot))?;
    }
    Ok(cells)
}

fn cell_of<R>(slot: Option<R>) -> Option<NameCell<R>>
    ensures { option_map (λ c. c.value) result ≡ slot }
{
    match slot {
        Some(value) => Some(NameCell { value, chain: 0 }),
        None => None,
    }
}

/// Adds the names of all objects, of which no two have one, to an index that holds none.
pub(crate) fn hold_all<R: Named, L: Ledger>(
    cells: &mut NameCells<R>,
    index: &mut NameIndex,
    blank: Blank,
) -> Result<(), AllocError>
    requires blank_name { blank.name ≡ L.name }
    requires blank_parts { blank.parts ≡ L.parts }
    requires blank_one { blank.parts ≡ 1 }
    requires none { HoldsTo R.own_name cells.old index.old 0 }
    requires names { AreNamed R.own_name (objects cells.old) }
    ensures all { OnOk result (IsNamed R.own_name cells.new index.new) }
    ensures objects { OnOk result (objects cells.new ≡ objects cells.old) }
    ensures cap { OnOk result (cells.new.pool.cap ≡ cells.old.pool.cap) }
{
    let slots = cells.pool.slots();
    let free = slots - cells.pool.live_count();
    index.reserve(cells, slots)?;
    let moves = &mut Steps::<L>::new(blank);
    for place in 0..slots {
        hold(cells, index, place + 1, moves);
    }
    index.reserve(cells, free)?;
    Ok(())
}

// Adds the name of one more object, where the id has one.
fn hold<R: Named, L: Ledger>(
    cells: &mut NameCells<R>,
    index: &mut NameIndex,
    id: u32,
    moves: &mut Steps<L>,
)
    requires some { 1 ≤ id }
    requires before { HoldsTo R.own_name cells.old index.old (id - 1) }
    requires names { AreNamed R.own_name (objects cells.old) }
    requires room { 1 ≤ spare index.old }
    ensures now { HoldsTo R.own_name cells.new index.new id }
    ensures objects { objects cells.new ≡ objects cells.old }
    ensures cap { cells.new.pool.cap ≡ cells.old.pool.cap }
    ensures room { spare index.old ≤ spare index.new + 1 }
{
    if cells.pool.live(id) {
        index.add(cells, id, moves);
    }
}
