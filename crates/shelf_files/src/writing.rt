ghost use Rattle.std.specs.Prelude.{◌≡◌, OnErr, OnOk};
ghost use Rattle.odb_outside.specs.Shelves.{files_told};
ghost use Rattle.odb_outside.specs.declared.shelf.Hand.{Hand as AnyHand};
ghost use Rattle.shelf_files.specs.Causes.{HasCause};
ghost use Rattle.shelf_files.specs.Whole.{Writes, WritesPart};

use crate::fault::FileFault;
use odb_outside::{Hand, Shelf};

/// Gives the file of a name just these bytes; it is made where there is none. After `Ok` nothing is in hand. After a fault
/// the file holds a prefix of the bytes, or is as it was. No other file changes.
pub fn write_file<F: Shelf>(shelf: &mut F, name: &str, bytes: &[u8]) -> Result<(), FileFault>
    requires { F.hand shelf.old ≡ Hand.Nothing }
    ensures written { OnOk result (Writes (files_told (F.told shelf.old)) name.now bytes.now (files_told (F.told shelf.new))) }
    ensures part { OnErr result (WritesPart (files_told (F.told shelf.old)) name.now bytes.now (files_told (F.told shelf.new))) }
    ensures hand { OnOk result (F.hand shelf.new ≡ Hand.Nothing) }
    ensures cause { HasCause (F.faults shelf.old) (F.faults shelf.new) result }
{
    shelf.create(name)?;
    let mut done = 0;
    'bytes: while done < bytes.len() {
        done += shelf.write(&bytes[done..])?;
    }
    shelf.close()?;
    Ok(())
}
