ghost use Rattle.std.specs.Prelude.{◌≡◌, ◌<◌, IfOk, OnOk, length};
ghost use Rattle.odb_outside.specs.Shelves.{KeepsFiles};
ghost use Rattle.odb_outside.specs.declared.shelf.Hand.{Hand as AnyHand};
ghost use Rattle.shelf_files.specs.Causes.{HasCause};
ghost use Rattle.shelf_files.specs.Whole.{IsRestRead, Reads};

use crate::fault::FileFault;
use odb_outside::{Hand, OpenFault, Shelf};
use std::alloc::Global;

/// The greatest number of bytes in a file that is read whole.
pub const FILE_LIMIT: usize = 4_294_967_295;

// How many bytes are read at once.
const PIECE: usize = 65_536;

/// What reading a file gave.
#[derive(Debug, Drop)]
pub enum FileRead {
    /// Its bytes, at most [`FILE_LIMIT`].
    Bytes(Vec<u8>),
    /// There is no file of the name.
    NoFile,
    /// The file has more than [`FILE_LIMIT`] bytes.
    TooLong,
}

/// Reads the bytes of the file of a name. No file changes, and after `Ok` nothing is in hand.
pub fn read_file<F: Shelf>(alloc: Global, shelf: &mut F, name: &str) -> Result<FileRead, FileFault>
    requires { F.hand shelf.old ≡ Hand.Nothing }
    ensures reads { IfOk result (λ read. Reads (F.told shelf.old) name.now read) }
    ensures files { KeepsFiles (F.told shelf.old) (F.told shelf.new) }
    ensures hand { OnOk result (F.hand shelf.new ≡ Hand.Nothing) }
    ensures cause { HasCause (F.faults shelf.old) (F.faults shelf.new) result }
{
    match shelf.open(name) {
        Ok(()) => read_in_hand(alloc, shelf),
        Err(OpenFault::NoFile) => Ok(FileRead::NoFile),
        Err(OpenFault::Failed) => Err(FileFault::Failed),
    }
}

// Reads the file in hand to its end, and puts it back.
fn read_in_hand<F: Shelf>(alloc: Global, shelf: &mut F) -> Result<FileRead, FileFault>
    requires { F.hand shelf.old ≡ Hand.Reading }
    ensures rest { IfOk result (λ read. IsRestRead (F.told shelf.old) read) }
    ensures files { KeepsFiles (F.told shelf.old) (F.told shelf.new) }
    ensures hand { OnOk result (F.hand shelf.new ≡ Hand.Nothing) }
    ensures cause { HasCause (F.faults shelf.old) (F.faults shelf.new) result }
{
    let mut room = vec![in alloc; 0; PIECE]?;
    let read = read_rest(alloc, shelf, &mut room)?;
    shelf.close()?;
    Ok(read)
}

// Reads the file in hand to its end, or up to the first bytes past the limit, in pieces that fit the room.
fn read_rest<F: Shelf>(alloc: Global, shelf: &mut F, room: &mut [u8]) -> Result<FileRead, FileFault>
    requires hand { F.hand shelf.old ≡ Hand.Reading }
    requires room { 0 < length room.old }
    ensures rest { IfOk result (λ read. IsRestRead (F.told shelf.old) read) }
    ensures files { KeepsFiles (F.told shelf.old) (F.told shelf.new) }
    ensures hand { OnOk result (F.hand shelf.new ≡ Hand.Reading) }
    ensures cause { HasCause (F.faults shelf.old) (F.faults shelf.new) result }
{
    let mut bytes = Vec::new(alloc);
    'pieces: loop {
        let n = shelf.read(room)?;
        if n == 0 {
            return Ok(FileRead::Bytes(bytes));
        }
        if n > FILE_LIMIT - bytes.len() {
            return Ok(FileRead::TooLong);
        }
        bytes.extend_from_slice(&room[..n])?;
    }
}
