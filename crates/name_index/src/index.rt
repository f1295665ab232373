ghost use Rattle.std.specs.Prelude.{◌≡◌, ◌+◌, ◌≤◌, Bool, List, ℕ, None, Some, IfOk, IsTrue, OnErr, OnOk, length};
ghost use Rattle.std.specs.FinMap as map;
ghost use Rattle.name_index.specs.Gathered.{AreIds};
ghost use Rattle.name_index.specs.Index.{Stands, spare};
ghost use Rattle.name_index.specs.Names.{HasId, Names};
ghost use Rattle.name_index.specs.Rechained.{Rechained};

use crate::cells::ChainCells;
use crate::chain::{find_from, list_chains, put, take_out};
use crate::hash::bucket;
use crate::rehash::{empty_heads, refill};
use odb_base::Steps;
use std::alloc::{AllocError, Global};
use std::marker::{Brand, Model};
use std::sync::ledger::{Blank, Ledger};

/// Which object has a name. Contracts see the first object of each chain and the number of names held, and say
/// over which cells the index stands for which map.
#[derive(Drop)]
pub struct NameIndex {
    heads: Vec<u32>,
    held: usize,
}

impl Model for NameIndex {
    ghost use Rattle.std.specs.Prelude.{◌≤◌, vec_len};
    ghost use Rattle.name_index.specs.Index.{Index};

    ghost Value = { Index };

    ghost view = { λ i. record { heads = i.heads.items; held = i.held } };

    ghost invariant = { λ i. i.held ≤ vec_len i.heads };
}

impl NameIndex {
    /// An index of no names, with no room.
    pub fn new(alloc: Global) -> NameIndex
        ensures stands { (cell : ℕ → Bool) (name : ℕ → List ℕ) (chain : ℕ → ℕ)
            → Stands cell name chain result map.empty }
        ensures spare { spare result ≡ 0 }
    {
        NameIndex {
            heads: Vec::new(alloc),
            held: 0,
        }
    }

    /// The object that has a name.
    pub fn find<C: ChainCells>(&self, cells: &C, name: &[u8]) -> Option<u32>
        ghost names: { Names }
        requires { Stands (C.cell cells.now) (C.name_of cells.now) (C.chain_of cells.now) self.now names }
        ensures { result ≡ map.get names name.now }
    {
        if self.heads.is_empty() {
            return None;
        }
        let bucket = bucket(name, self.heads.len());
        find_from(cells, self.heads[bucket], self.held, name)
    }

    /// Makes room for so many more names. The chains that it writes are counted on a counter of its own. Where
    /// memory is wanting, all is as before.
    pub fn reserve<C: ChainCells>(&mut self, cells: &mut C, n: u32) -> Result<(), AllocError>
        ghost names: { Names }
        requires { Stands (C.cell cells.old) (C.name_of cells.old) (C.chain_of cells.old) self.old names }
        ensures stands { Stands (C.cell cells.new) (C.name_of cells.new) (C.chain_of cells.new) self.new names }
        ensures room { OnOk result (n ≤ spare self.new) }
        ensures spare { spare self.old ≤ spare self.new }
        ensures kept { (other : ℕ) → C.cell cells.new other ≡ C.cell cells.old other }
        ensures named { (other : ℕ) → C.name_of cells.new other ≡ C.name_of cells.old other }
        ensures cells { Rechained C.with_chain (HasId names) cells.old cells.new }
        ensures err { OnErr result ((self.new ≡ self.old) × (cells.new ≡ cells.old)) }
    {
        let needed = self.held + n as usize;
        if needed <= self.heads.len() {
            return Ok(());
        }
        let ids = self.ids(cells)?;
        let mut heads = empty_heads(*self.heads.allocator(), needed.next_power_of_two())?;
        refill::<C, Brand>(cells, &mut heads, &ids, Blank::new(1));
        self.heads = heads;
        Ok(())
    }

    // All objects whose names are held.
    fn ids<C: ChainCells>(&self, cells: &C) -> Result<Vec<u32>, AllocError>
        ghost names: { Names }
        requires { Stands (C.cell cells.now) (C.name_of cells.now) (C.chain_of cells.now) self.now names }
        ensures { IfOk result (λ ids. AreIds (C.cell cells.now) (C.name_of cells.now) ids.items names) }
    {
        list_chains(*self.heads.allocator(), cells, &self.heads, self.held)
    }

    /// Adds the name of an object, which no other has. This is one step at most.
    pub fn add<C: ChainCells, L: Ledger>(&mut self, cells: &mut C, id: u32, moves: &mut Steps<L>)
        ghost names: { Names }
        requires stands { Stands (C.cell cells.old) (C.name_of cells.old) (C.chain_of cells.old)
            self.old names }
        requires cell { IsTrue (C.cell cells.old id) }
        requires new { map.get names (C.name_of cells.old id) ≡ None }
        requires room { 1 ≤ spare self.old }
        ensures stands { Stands (C.cell cells.new) (C.name_of cells.new) (C.chain_of cells.new)
            self.new (map.insert names (C.name_of cells.old id) id) }
        ensures spare { spare self.old ≡ spare self.new + 1 }
        ensures kept { (other : ℕ) → C.cell cells.new other ≡ C.cell cells.old other }
        ensures named { (other : ℕ) → C.name_of cells.new other ≡ C.name_of cells.old other }
        ensures cells { Rechained C.with_chain (λ other. other ≡ id) cells.old cells.new }
        ensures least { moves.old ≤ moves.new }
        ensures most { moves.new ≤ moves.old + 1 }
    {
        put(cells, &mut self.heads, id, moves);
        self.held += 1;
    }

    /// Drops the name of an object. This is two steps at most.
    pub fn drop_name<C: ChainCells, L: Ledger>(
        &mut self,
        cells: &mut C,
        id: u32,
        moves: &mut Steps<L>,
    )
        ghost names: { Names }
        requires stands { Stands (C.cell cells.old) (C.name_of cells.old) (C.chain_of cells.old)
            self.old names }
        requires cell { IsTrue (C.cell cells.old id) }
        requires held { map.get names (C.name_of cells.old id) ≡ Some id }
        ensures stands { Stands (C.cell cells.new) (C.name_of cells.new) (C.chain_of cells.new)
            self.new (map.remove names (C.name_of cells.old id)) }
        ensures spare { spare self.new ≡ spare self.old + 1 }
        ensures kept { (other : ℕ) → C.cell cells.new other ≡ C.cell cells.old other }
        ensures named { (other : ℕ) → C.name_of cells.new other ≡ C.name_of cells.old other }
        ensures cells { Rechained C.with_chain (HasId names) cells.old cells.new }
        ensures least { moves.old ≤ moves.new }
        ensures most { moves.new ≤ moves.old + 2 }
    {
        take_out(cells, &mut self.heads, self.held, id, moves);
        self.held -= 1;
    }
}
