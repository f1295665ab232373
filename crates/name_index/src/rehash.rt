ghost use Rattle.std.specs.Prelude.{◌≡◌, ◌<◌, List, ℕ, All, IfOk, IsTrue, length};
ghost use Rattle.std.specs.FinMap as map;
ghost use Rattle.name_index.specs.Gathered.{AreIds};
ghost use Rattle.name_index.specs.Index.{Stands};
ghost use Rattle.name_index.specs.Names.{HasId, Names};
ghost use Rattle.name_index.specs.Rechained.{Rechained};

use crate::cells::ChainCells;
use crate::chain::put;
use odb_base::Steps;
use std::alloc::{AllocError, Global};
use std::sync::ledger::{Blank, Ledger};

/// So many heads of empty chains.
pub fn empty_heads(alloc: Global, buckets: usize) -> Result<Vec<u32>, AllocError>
    ensures { IfOk result (λ heads. (length heads.items ≡ buckets) × All (λ first. first ≡ 0) heads.items) }
{
    vec![in alloc; 0; buckets]
}

/// Puts all objects of a map into chains that were empty. The steps are counted on a counter of its own.
pub fn refill<C: ChainCells, L: Ledger>(cells: &mut C, heads: &mut [u32], ids: &[u32], blank: Blank)
    ghost names: { Names }
    requires blank_name { blank.name ≡ L.name }
    requires blank_parts { blank.parts ≡ L.parts }
    requires blank_one { blank.parts ≡ 1 }
    requires buckets { 0 < length heads.old }
    requires empty { All (λ first. first ≡ 0) heads.old }
    requires ids { AreIds (C.cell cells.old) (C.name_of cells.old) ids.now names }
    ensures stands { Stands (C.cell cells.new) (C.name_of cells.new) (C.chain_of cells.new)
        (record { heads = heads.new; held = map.len names }) names }
    ensures kept { (other : ℕ) → C.cell cells.new other ≡ C.cell cells.old other }
    ensures named { (other : ℕ) → C.name_of cells.new other ≡ C.name_of cells.old other }
    ensures cells { Rechained C.with_chain (HasId names) cells.old cells.new }
{
    let moves = &mut Steps::<L>::new(blank);
    for id in ids {
        put(cells, heads, *id, moves);
    }
}
