ghost use Rattle.std.specs.Prelude.{◌≡◌, ◌≤◌, IfErr, IfOk, OnOk};
ghost use Rattle.odb_base.specs.declared.codes.kind.Kind.{Kind as AnyKind};
ghost use Rattle.block_store.specs.Block.{slots_in};
ghost use Rattle.block_store.specs.Sound.{IsSound};
ghost use Rattle.block_store.specs.Store.{Store};
ghost use Rattle.block_tables.specs.Causes.{IsRefusal};

use crate::check::check;
use crate::fault::TablesFault;
use block_store::{Block, Tables};
use library::Library;
use std::alloc::Global;
use tech::Tech;

/// What is made of plain tables where they are sound.
pub trait FromTables {
    ghost store: { Self → Store };

    /// The block of these tables with this cap, which is sound with the technology and the library. `Unsound`
    /// comes exactly where it wouldn't be, and names the least place: the header first, of no kind and with
    /// identifier 0; a master with two terminals of one name counts as the header; then the kinds in the
    /// order of their codes, in each the table, with identifier 0, before the records by their identifiers.
    fn from_tables(
        alloc: Global,
        tables: Tables,
        tech: &Tech,
        library: &Library,
        cap: u32,
    ) -> Result<Self, TablesFault>
        requires within { (k : AnyKind) → slots_in k tables ≤ cap }
        requires limit { cap ≤ 16777215 }
        ensures sound { OnOk result (IsSound tech.now library.now cap tables) }
        ensures block { IfOk result (λ made. (store made).block ≡ tables) }
        ensures cap { IfOk result (λ made. (store made).cap ≡ cap) }
        ensures unsound { IfErr result (λ fault. IsRefusal tech.now library.now cap tables fault) };
}

impl FromTables for Block {
    ghost store = { λ b. b };

    fn from_tables(
        alloc: Global,
        tables: Tables,
        tech: &Tech,
        library: &Library,
        cap: u32,
    ) -> Result<Block, TablesFault> {
        match check(alloc, &tables, tech, library) {
            Err(fault) => {
                drop(tables);
                Err(fault)
            }
            Ok(()) => match Block::with_tables(alloc, tables, cap) {
                Ok(block) => Ok(block),
                Err(_) => Err(TablesFault::Memory),
            },
        }
    }
}
