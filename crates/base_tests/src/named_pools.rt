ghost use Rattle.std.specs.Prelude.{◌≡◌};

use named_pool::{Field, NamedPool};
use odb_base::{Name, Steps};
use slot_pool::PoolFault;
use std::alloc::Global;
use std::marker::Brand;
use std::mem;
use std::sync::ledger::{Blank, Ledger};
use std::test::Fail;

#[derive(Drop)]
struct Net {
    name: Name,
    special: bool,
}

impl named_pool::Named for Net {
    ghost use Rattle.std.specs.Prelude.{refl};

    ghost own_name = { λ net. net.name };

    ghost with_name = { λ name net. record net { name = name } };

    fn name(&self) -> &Name {
        &self.name
    }

    fn set_name(&mut self, name: Name) -> Name {
        mem::replace(&mut self.name, name)
    }

    ghost named = { λ net name. refl };
}

struct Special {}

impl Field<Net> for Special {
    ghost use Rattle.std.specs.Prelude.{refl};

    type Value = bool;

    ghost value_of = { λ net. net.special };

    ghost with_value = { λ special net. record net { special = special } };

    fn set(net: &mut Net, special: bool) -> bool {
        mem::replace(&mut net.special, special)
    }

    ghost named = { λ net special. refl };

    ghost last = { λ net first second. refl };
}

#[derive(Clone, Copy)]
enum Edit<'a> {
    Take(&'a [u8]),
    Give(u32),
    Rename(u32, &'a [u8]),
    SetSpecial(u32),
}

/// Whether an edit was done, and what is found then by the names `a`, `b` and `c`.
type Row<'a> = (Edit<'a>, bool, [Option<u32>; 3]);

fn take_named<L: Ledger>(
    pool: &mut NamedPool<Net>,
    name: Name,
    moves: &mut Steps<L>,
) -> Result<bool, PoolFault> {
    if pool.find(name.bytes()).is_some() {
        return Ok(false);
    }
    pool.reserve(1)?;
    let special = false;
    pool.take(Net { name, special }, moves);
    Ok(true)
}

fn give_live<L: Ledger>(pool: &mut NamedPool<Net>, id: u32, moves: &mut Steps<L>) -> bool {
    if !pool.live(id) {
        return false;
    }
    pool.give(id, moves);
    true
}

fn rename_live<L: Ledger>(
    pool: &mut NamedPool<Net>,
    id: u32,
    name: Name,
    moves: &mut Steps<L>,
) -> bool {
    if !pool.live(id) || pool.find(name.bytes()).is_some() {
        return false;
    }
    pool.rename(id, name, moves);
    true
}

fn set_special<L: Ledger>(pool: &mut NamedPool<Net>, id: u32, moves: &mut Steps<L>) -> bool {
    if !pool.live(id) {
        return false;
    }
    pool.set::<Special, L>(id, true, moves)
}

fn is_right<L: Ledger>(
    alloc: Global,
    pool: &mut NamedPool<Net>,
    row: &Row<'_>,
    moves: &mut Steps<L>,
) -> Result<bool, Fail> {
    let (edit, done, found) = *row;
    let was_done = match edit {
        Edit::Take(name) => take_named(pool, Name::new(alloc, name)?, moves)?,
        Edit::Give(id) => give_live(pool, id, moves),
        Edit::Rename(id, name) => rename_live(pool, id, Name::new(alloc, name)?, moves),
        Edit::SetSpecial(id) => set_special(pool, id, moves),
    };
    let now_found = [pool.find(b"a"), pool.find(b"b"), pool.find(b"c")];
    Ok(was_done == done && now_found == found)
}

/// The number of rows that are right, up to the first that isn't.
fn right_rows<L: Ledger>(
    alloc: Global,
    pool: &mut NamedPool<Net>,
    rows: &[Row<'_>],
    blank: Blank,
) -> Result<usize, Fail>
    requires name { blank.name ≡ L.name }
    requires parts { blank.parts ≡ L.parts }
    requires some { blank.parts ≡ 1 }
{
    let moves = &mut Steps::<L>::new(blank);
    for (number, row) in rows.iter().enumerate() {
        if !is_right(alloc, pool, row, moves)? {
            return Ok(number);
        }
    }
    Ok(rows.len())
}

#[test]
fn objects_are_found_by_their_names(rt: HostRuntime) -> Result<(), Fail> {
    let alloc = rt.alloc();
    let rows: [Row; 10] = [
        (Edit::Take(b"a"), true, [Some(1), None, None]),
        (Edit::Take(b"a"), false, [Some(1), None, None]),
        (Edit::Take(b"b"), true, [Some(1), Some(2), None]),
        (Edit::Rename(1, b"b"), false, [Some(1), Some(2), None]),
        (Edit::Rename(1, b"c"), true, [None, Some(2), Some(1)]),
        (Edit::SetSpecial(1), false, [None, Some(2), Some(1)]),
        (Edit::SetSpecial(1), true, [None, Some(2), Some(1)]),
        (Edit::Give(2), true, [None, None, Some(1)]),
        (Edit::Give(2), false, [None, None, Some(1)]),
        (Edit::Take(b"a"), true, [Some(2), None, Some(1)]),
    ];
    let mut pool = NamedPool::new(alloc, 2);
    let right = right_rows::<Brand>(alloc, &mut pool, &rows, Blank::new(1));
    drop(pool);
    assert_eq!(rt; right?, rows.len());
    Ok(())
}
