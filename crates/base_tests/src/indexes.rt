ghost use Rattle.std.specs.Prelude.{◌≡◌, ◌≤◌, OnOk, refl};
ghost use Rattle.name_index.specs.Index.{spare};
ghost use Rattle.name_index.specs.VecCells.{cell as cell_in, chain_of as chain_in, name_of as name_in, with_chain as with_chain_in};

use name_index::{ChainCells, NameIndex};
use odb_base::{Steps, Text};
use std::alloc::{AllocError, Global};
use std::marker::{Brand, Model};
use std::process::Abort;
use std::sync::ledger::{Blank, Ledger};
use std::test::Fail;

/// Names and chains in a vector: the cell of an identifier is the one at its place, counted from 1.
#[derive(Drop)]
struct Cells {
    cells: Vec<(Text, u32)>,
}

impl Model for Cells {
    ghost use Rattle.std.specs.Prelude.{List, ℕ};

    ghost Value = { List (List ℕ × ℕ) };

    ghost view = { λ s. s.cells.items };
}

impl ChainCells for Cells {
    ghost use Rattle.name_index.specs.VecCells.{cell-with_chain, chain_of-others};
    ghost use Rattle.name_index.specs.VecCells.{chain_of-set, name_of-with_chain};

    ghost cell = { cell_in };

    ghost name_of = { name_in };

    ghost chain_of = { chain_in };

    ghost with_chain = { with_chain_in };

    fn name(&self, id: u32) -> &[u8] {
        self.cells[id as usize - 1].0.bytes()
    }

    fn chain(&self, id: u32) -> u32 {
        self.cells[id as usize - 1].1
    }

    fn set_chain<L: Ledger>(&mut self, id: u32, next: u32, moves: &mut Steps<L>) {
        self.cells[id as usize - 1].1 = next;
        moves.tick();
    }

    ghost none = { λ cells. refl };

    ghost kept = { cell-with_chain };

    ghost named = { name_of-with_chain };

    ghost set = { chain_of-set };

    ghost others = { chain_of-others };
}

impl Cells {
    /// Whether an identifier names a cell.
    fn has(&self, id: u32) -> bool
        ensures { result ≡ cell_in self.now id }
    {
        id != 0 && id as usize <= self.cells.len()
    }
}

/// An index over cells of its own. Contracts see the index.
#[derive(Drop)]
struct Table {
    cells: Cells,
    index: NameIndex,
}

impl Model for Table {
    ghost use Rattle.name_index.specs.Index.{Index};
    ghost use Rattle.name_index.specs.VecCells.{IsIndex};

    ghost Value = { Index };

    ghost view = { λ t. t.index };

    ghost invariant = { λ t. IsIndex t.cells t.index };
}

impl Table {
    /// Objects with these names, in order, of which none is held.
    fn new(alloc: Global, cells: Vec<(Text, u32)>) -> Table {
        Table {
            cells: Cells { cells },
            index: NameIndex::new(alloc),
        }
    }

    fn find(&self, name: &[u8]) -> Option<u32> {
        self.index.find(&self.cells, name)
    }

    fn reserve(&mut self, n: u32) -> Result<(), AllocError>
        ensures { OnOk result (n ≤ spare self.new) }
    {
        self.index.reserve(&mut self.cells, n)
    }

    /// Holds the name of an object, where no other has it.
    fn hold<L: Ledger>(&mut self, id: u32, moves: &mut Steps<L>) -> Result<bool, AllocError> {
        self.reserve(1)?;
        if !self.cells.has(id) || self.index.find(&self.cells, self.cells.name(id)).is_some() {
            return Ok(false);
        }
        self.index.add(&mut self.cells, id, moves);
        Ok(true)
    }

    /// Drops the name of an object, where it is held.
    fn release<L: Ledger>(&mut self, id: u32, moves: &mut Steps<L>) -> bool {
        if self.cells.has(id) && self.index.find(&self.cells, self.cells.name(id)) == Some(id) {
            self.index.drop_name(&mut self.cells, id, moves);
            return true;
        }
        false
    }
}

#[derive(Clone, Copy)]
enum Edit {
    Hold(u32),
    Release(u32),
}

/// What was answered to an edit, and the objects that are found then by the names `a`, `b`, `ab` and none.
type Row = (Edit, bool, [Option<u32>; 4]);

fn is_right<L: Ledger>(
    table: &mut Table,
    row: &Row,
    moves: &mut Steps<L>,
) -> Result<bool, AllocError> {
    let (edit, answer, found) = *row;
    let answered = match edit {
        Edit::Hold(id) => table.hold(id, moves)?,
        Edit::Release(id) => table.release(id, moves),
    };
    let now_found = [
        table.find(b"a"),
        table.find(b"b"),
        table.find(b"ab"),
        table.find(b""),
    ];
    Ok(answered == answer && now_found == found)
}

/// The number of rows that are right, up to the first that isn't.
fn right_rows<L: Ledger>(table: &mut Table, rows: &[Row], blank: Blank) -> Result<usize, AllocError>
    requires name { blank.name ≡ L.name }
    requires parts { blank.parts ≡ L.parts }
    requires some { blank.parts ≡ 1 }
{
    let moves = &mut Steps::<L>::new(blank);
    for (number, row) in rows.iter().enumerate() {
        if !is_right(table, row, moves)? {
            return Ok(number);
        }
    }
    Ok(rows.len())
}

#[test]
fn names_are_held_and_dropped(rt: HostRuntime) -> Result<(), Fail> {
    let alloc = rt.alloc();
    let mut cells = Vec::new(alloc);
    for name in [b"a".as_slice(), b"b", b"a", b"ab", b""] {
        cells.push((Text::new(alloc, name)?, 0))?;
    }
    let rows: [Row; 11] = [
        (Edit::Hold(1), true, [Some(1), None, None, None]),
        (Edit::Hold(3), false, [Some(1), None, None, None]),
        (Edit::Hold(2), true, [Some(1), Some(2), None, None]),
        (Edit::Hold(4), true, [Some(1), Some(2), Some(4), None]),
        (Edit::Release(3), false, [Some(1), Some(2), Some(4), None]),
        (Edit::Release(1), true, [None, Some(2), Some(4), None]),
        (Edit::Hold(3), true, [Some(3), Some(2), Some(4), None]),
        (Edit::Release(6), false, [Some(3), Some(2), Some(4), None]),
        (Edit::Hold(5), true, [Some(3), Some(2), Some(4), Some(5)]),
        (Edit::Release(2), true, [Some(3), None, Some(4), Some(5)]),
        (Edit::Release(5), true, [Some(3), None, Some(4), None]),
    ];
    let mut table = Table::new(alloc, cells);
    let right = right_rows::<Brand>(&mut table, &rows, Blank::new(1));
    drop(table);
    assert_eq!(rt; right?, rows.len());
    Ok(())
}

/// So many objects, named `net1`, `net2` and so on.
fn numbered(alloc: Global, count: u32) -> Result<Table, AllocError> {
    let mut cells = Vec::new(alloc);
    for id in 1..=count {
        let name = format!(in alloc; "net{id}")?;
        cells.push((Text::new(alloc, name.as_bytes())?, 0))?;
    }
    Ok(Table::new(alloc, cells))
}

/// The first object up to a last one that isn't found by its name where it should be: each, or each odd one.
fn first_wrong(
    alloc: Global,
    table: &Table,
    last: u32,
    odd: bool,
) -> Result<Option<u32>, AllocError> {
    for id in 1..=last {
        let name = format!(in alloc; "net{id}")?;
        let expected = if odd && id % 2 == 0 { None } else { Some(id) };
        if table.find(name.as_bytes()) != expected {
            return Ok(Some(id));
        }
    }
    Ok(None)
}

/// Holds the names of all objects up to a last one, and answers the first whose name was held already.
fn hold_all<L: Ledger>(
    table: &mut Table,
    last: u32,
    blank: Blank,
) -> Result<Option<u32>, AllocError>
    requires name { blank.name ≡ L.name }
    requires parts { blank.parts ≡ L.parts }
    requires some { blank.parts ≡ 1 }
{
    let moves = &mut Steps::<L>::new(blank);
    for id in 1..=last {
        if !table.hold(id, moves)? {
            return Ok(Some(id));
        }
    }
    Ok(None)
}

/// Drops the names of the even objects up to a last one, and answers the first whose name wasn't held.
fn release_even<L: Ledger>(table: &mut Table, last: u32, blank: Blank) -> Option<u32>
    requires name { blank.name ≡ L.name }
    requires parts { blank.parts ≡ L.parts }
    requires some { blank.parts ≡ 1 }
{
    let moves = &mut Steps::<L>::new(blank);
    for id in 1..=last {
        if id % 2 == 0 && !table.release(id, moves) {
            return Some(id);
        }
    }
    None
}

#[test]
fn a_thousand_names(rt: HostRuntime) -> Result<(), Fail> {
    let alloc = rt.alloc();
    let mut table = numbered(alloc, 1000)?;
    let found = found_as_held(&rt, alloc, &mut table);
    drop(table);
    found
}

fn found_as_held(rt: &impl Abort, alloc: Global, table: &mut Table) -> Result<(), Fail> {
    assert_eq!(rt; hold_all::<Brand>(table, 1000, Blank::new(1))?, None);
    assert_eq!(rt; first_wrong(alloc, table, 1000, false)?, None);
    assert_eq!(rt; release_even::<Brand>(table, 1000, Blank::new(1)), None);
    assert_eq!(rt; first_wrong(alloc, table, 1000, true)?, None);
    assert_eq!(rt; table.find(b"net1001"), None);
    Ok(())
}
