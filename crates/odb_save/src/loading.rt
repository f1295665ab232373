ghost use Rattle.std.specs.Prelude.{◌≡◌, ◌≤◌, IfErr, IfOk, OnOk};
ghost use Rattle.odb_base.specs.declared.codes.kind.Kind.{Kind as AnyKind};
ghost use Rattle.block_store.specs.Block.{slots_in};
ghost use Rattle.block_store.specs.Database.{Database as AnyDatabase, IsSoundDatabase};
ghost use Rattle.odb_save.specs.Loading.{HasLoadCause, IsLoadAnswer, IsLoadedAs, IsPartFault};
ghost use Rattle.odb_save.specs.Save.{save_bytes};
ghost use Rattle.odb_save.specs.Spelled.{database_of, spelled_with};

use crate::design::make_design;
use crate::load_fault::LoadFault;
use block_store::{Block, Database, Tables};
use block_tables::FromTables;
use saved_reader::{Saved, read_saved};
use std::alloc::Global;

/// The database with this cap whose saved bytes these are. Bytes that are those of no sound database are refused: by
/// the first fault of reading them, and where there is none by the least place that isn't sound. For saved bytes of a
/// database with this cap the only other answer is want of memory.
pub fn load(alloc: Global, bytes: &[u8], cap: u32) -> Result<Database, LoadFault>
    requires { cap ≤ 16777215 }
    ensures saved { IfOk result (λ d. bytes.now ≡ save_bytes d) }
    ensures cap { IfOk result (λ d. d.cap ≡ cap) }
    ensures cause { IfErr result (λ fault. HasLoadCause cap bytes.now fault) }
    ensures complete { (d : AnyDatabase) → IsSoundDatabase d → d.cap ≡ cap → bytes.now ≡ save_bytes d → IsLoadedAs d result }
    ensures answer { IsLoadAnswer cap bytes.now result }
{
    load_saved(alloc, bytes, cap)
}

// The clauses of `load` follow from this one.
fn load_saved(alloc: Global, bytes: &[u8], cap: u32) -> Result<Database, LoadFault>
    requires { cap ≤ 16777215 }
    ensures { IsLoadAnswer cap bytes.now result }
{
    let saved = read_saved(alloc, bytes, cap)?;
    make_database(alloc, saved, cap)
}

// The database of what was read, where that is sound.
fn make_database(alloc: Global, saved: Saved, cap: u32) -> Result<Database, LoadFault>
    requires limit { cap ≤ 16777215 }
    requires within { (k : AnyKind) → slots_in k saved.tables ≤ cap }
    requires units { saved.tech.units ≤ 100000 }
    ensures sound { OnOk result (IsSoundDatabase (database_of cap saved)) }
    ensures ok { IfOk result (λ d. d ≡ database_of cap saved) }
    ensures err { IfErr result (λ fault. IsPartFault cap saved fault) }
{
    let Saved {
        tech,
        library,
        tables,
    } = saved;
    match make_design(alloc, tech, library, cap) {
        Ok(design) => with_tables(alloc, design, tables, cap),
        Err(fault) => {
            // By a call, which is proved once for each type, as in the other refusals.
            drop(tables);
            Err(fault)
        }
    }
}

// The design with the block of these tables, where that is sound.
fn with_tables(
    alloc: Global,
    design: Database,
    tables: Tables,
    cap: u32,
) -> Result<Database, LoadFault>
    requires limit { cap ≤ 16777215 }
    requires within { (k : AnyKind) → slots_in k tables ≤ cap }
    ensures sound { OnOk result (IsSoundDatabase (database_of cap (spelled_with design tables))) }
    ensures ok { IfOk result (λ d. d ≡ database_of cap (spelled_with design tables)) }
    ensures err { IfErr result (λ fault. IsPartFault cap (spelled_with design tables) fault) }
{
    let Database {
        tech,
        library,
        block,
    } = design;
    drop(block);
    match Block::from_tables(alloc, tables, &tech, &library, cap) {
        Ok(block) => Ok(Database::of_parts(tech, library, block)),
        Err(fault) => {
            drop(tech);
            drop(library);
            Err(LoadFault::from(fault))
        }
    }
}
