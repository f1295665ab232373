// Laws of indexes. Each is the contract of a function that does nothing.

ghost use Rattle.std.specs.Prelude.{◌≡◌};
ghost use Rattle.name_index.specs.Index.{Index, Stands, names_in};
ghost use Rattle.name_index.specs.Names.{Names};

use crate::cells::ChainCells;

/// The map that an index stands for is read off the chains, so it stands for one map.
pub fn read_off<C: ChainCells>()
    ensures { (cells : C) (index : Index) (names : Names)
        → Stands (C.cell cells) (C.name_of cells) (C.chain_of cells) index names
        → names_in (C.name_of cells) (C.chain_of cells) index ≡ names }
{}
