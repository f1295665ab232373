ghost use Rattle.std.specs.Prelude.{◌≡◌, ◌==◌, ◌+◌, ◌<◌, ◌≤◌, ◌++◌, if◌then◌else◌, ℕ};
ghost use Rattle.std.specs.Prelude.{IsTrue, OnOk, IfOk, length, slice_index, slice_set};
ghost use Rattle.std.specs.List.{find, flat_map};
ghost use Rattle.std.specs.Str.{bytes_eq};
ghost use Rattle.name_index.specs.Chain.{AreCells, ids_from, prior_of};
ghost use Rattle.name_index.specs.Hash.{bucket_of, first_of};

use crate::cells::ChainCells;
use crate::hash::bucket;
use odb_base::Steps;
use std::alloc::{AllocError, Global};
use std::sync::ledger::Ledger;

/// The first object of a name in a chain of at most so many.
pub fn find_from<C: ChainCells>(cells: &C, first: u32, most: usize, name: &[u8]) -> Option<u32>
    requires { AreCells (C.cell cells.now) (ids_from (C.chain_of cells.now) most first) }
    ensures { result
        ≡ find (λ id. bytes_eq (C.name_of cells.now id) name.now) (ids_from (C.chain_of cells.now) most first) }
{
    let mut id = first;
    for _ in 0..most {
        if id == 0 {
            return None;
        }
        if cells.name(id) == name {
            return Some(id);
        }
        id = cells.chain(id);
    }
    None
}

/// The object before another in a chain of at most so many, 0 where that one is the first.
pub fn prior<C: ChainCells>(cells: &C, first: u32, most: usize, id: u32) -> u32
    requires { AreCells (C.cell cells.now) (ids_from (C.chain_of cells.now) most first) }
    ensures { result ≡ prior_of (C.chain_of cells.now) most first id }
{
    let mut prior = 0;
    let mut at = first;
    for _ in 0..most {
        if at == 0 || at == id {
            return prior;
        }
        prior = at;
        at = cells.chain(at);
    }
    prior
}

/// Puts the objects of a chain of at most so many at the end of a list.
fn list_chain<C: ChainCells>(
    cells: &C,
    first: u32,
    most: usize,
    ids: &mut Vec<u32>,
) -> Result<(), AllocError>
    requires { AreCells (C.cell cells.now) (ids_from (C.chain_of cells.now) most first) }
    ensures { OnOk result (ids.new.items ≡ ids.old.items ++ ids_from (C.chain_of cells.now) most first) }
{
    let mut id = first;
    for _ in 0..most {
        if id == 0 {
            break;
        }
        ids.push(id)?;
        id = cells.chain(id);
    }
    Ok(())
}

/// The objects of all chains, each of at most so many.
pub fn list_chains<C: ChainCells>(
    alloc: Global,
    cells: &C,
    heads: &[u32],
    most: usize,
) -> Result<Vec<u32>, AllocError>
    requires { (bucket : ℕ) → bucket < length heads.now
        → AreCells (C.cell cells.now) (ids_from (C.chain_of cells.now) most (slice_index heads.now bucket)) }
    ensures { IfOk result (λ ids. ids.items ≡ flat_map (ids_from (C.chain_of cells.now) most) heads.now) }
{
    let mut ids = Vec::new(alloc);
    for first in heads {
        list_chain(cells, *first, most, &mut ids)?;
    }
    Ok(ids)
}

/// Puts an object at the front of the chain of its name.
pub fn put<C: ChainCells, L: Ledger>(
    cells: &mut C,
    heads: &mut [u32],
    id: u32,
    moves: &mut Steps<L>,
)
    requires cell { IsTrue (C.cell cells.old id) }
    requires some { 0 < length heads.old }
    ensures heads { heads.new ≡ slice_set heads.old (bucket_of heads.old (C.name_of cells.old id)) id }
    ensures cells { cells.new ≡ C.with_chain cells.old id (first_of heads.old (C.name_of cells.old id)) }
    ensures least { moves.old ≤ moves.new }
    ensures most { moves.new ≤ moves.old + 1 }
{
    let bucket = bucket(cells.name(id), heads.len());
    cells.set_chain(id, heads[bucket], moves);
    heads[bucket] = id;
}

/// Takes an object out of the chain of its name, which has at most so many. What stood before it leads to what
/// stood behind it.
pub fn take_out<C: ChainCells, L: Ledger>(
    cells: &mut C,
    heads: &mut [u32],
    most: usize,
    id: u32,
    moves: &mut Steps<L>,
)
    requires cell { IsTrue (C.cell cells.old id) }
    requires some { 0 < length heads.old }
    requires reached { let first = first_of heads.old (C.name_of cells.old id) in
        AreCells (C.cell cells.old) (ids_from (C.chain_of cells.old) most first) }
    ensures heads { let name = C.name_of cells.old id in
        let before = prior_of (C.chain_of cells.old) most (first_of heads.old name) id in
        let first_out = slice_set heads.old (bucket_of heads.old name) (C.chain_of cells.old id) in
        heads.new ≡ (if before == 0 then first_out else heads.old) }
    ensures cells { let name = C.name_of cells.old id in
        let before = prior_of (C.chain_of cells.old) most (first_of heads.old name) id in
        let later_out = C.with_chain cells.old before (C.chain_of cells.old id) in
        cells.new ≡ (if before == 0 then cells.old else later_out) }
    ensures least { moves.old ≤ moves.new }
    ensures most { moves.new ≤ moves.old + 1 }
{
    let bucket = bucket(cells.name(id), heads.len());
    let next = cells.chain(id);
    let before = prior(cells, heads[bucket], most, id);
    if before == 0 {
        heads[bucket] = next;
    } else {
        cells.set_chain(before, next, moves);
    }
}
