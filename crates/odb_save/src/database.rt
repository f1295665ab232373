ghost use Rattle.std.specs.Prelude.{◌≡◌, ◌++◌, IfOk, OnOk};
ghost use Rattle.odb_fields.specs.Putting.{KeepsVector, bytes_in};
ghost use Rattle.odb_save.specs.Save.{content_bytes, save_bytes};

use crate::lists::put_named;
use crate::tables::put_tables;
use crate::technology::put_tech;
use block_store::Database;
use odb_fields::Put;
use saved_reader::header::put_header;
use std::alloc::{AllocError, Global};

/// The saved bytes of a database. The only other answer is want of memory.
#[tactic(auto, unfolding(crate::specs::Save::save_bytes))]
pub fn save(alloc: Global, db: &Database) -> Result<Vec<u8>, AllocError>
    ensures { IfOk result (λ bytes. bytes.items ≡ save_bytes db.now) }
{
    let mut bytes = b"ODBS".to_vec(alloc)?;
    put_content(&mut Put::new(&mut bytes), db)?;
    Ok(bytes)
}

#[tactic(auto, unfolding(crate::specs::Save::content_bytes, crate::specs::Save::block_bytes, saved_reader::specs::Library::library_format))]
fn put_content(put: &mut Put<'_>, db: &Database) -> Result<(), AllocError>
    ensures ok { OnOk result (bytes_in put.new ≡ bytes_in put.old ++ content_bytes db.now) }
    ensures vector { KeepsVector put.old put.new }
{
    put.put_u32(1)?;
    put_tech(put, &db.tech)?;
    put_named(put, db.library.masters())?;
    put_header(put, db.block.header())?;
    put_tables(put, db)?;
    Ok(())
}
