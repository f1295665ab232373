ghost use Rattle.std.specs.Prelude.{◌≡◌, IfOk, IsTrue, OnOk};
ghost use Rattle.odb_outside.specs.Adapters.{left_told};
ghost use Rattle.odb_outside.specs.Shelves.{KeepsFiles};
ghost use Rattle.odb_outside.specs.declared.shelf.Hand.{Hand as AnyHand};
ghost use Rattle.shelf_files.specs.Causes.{HasCause};
ghost use Rattle.lef_files.specs.Files.{IsTextRead, Reads};

use crate::outcome::{LefFileRead, outcome};
use ld_words::{Room, Words};
use lef_reader::read_lef;
use odb_outside::{Hand, OpenFault, Shelf, ShelfSource, Source};
use shelf_files::FileFault;
use std::alloc::Global;

/// Reads the LEF text (LEF/DEF 5.8 Language Reference, LEF Syntax) of the file of a name, up to `END LIBRARY` or to
/// the end of the file. No file changes, and after `Ok` nothing is in hand.
///
/// Memory for reading is taken before the file is opened, so want of it may be answered where there is no file.
pub fn read_lef_file<F: Shelf>(
    alloc: Global,
    shelf: &mut F,
    name: &str,
) -> Result<LefFileRead, FileFault>
    requires { F.hand shelf.old ≡ Hand.Nothing }
    ensures reads { IfOk result (λ read. Reads (F.told shelf.old) name.now read) }
    ensures files { KeepsFiles (F.told shelf.old) (F.told shelf.new) }
    ensures hand { OnOk result (F.hand shelf.new ≡ Hand.Nothing) }
    ensures cause { HasCause (F.faults shelf.old) (F.faults shelf.new) result }
{
    let room = Room::new(alloc)?;
    match shelf.open(name) {
        Ok(()) => read_in_hand(alloc, room, shelf),
        Err(OpenFault::NoFile) => Ok(LefFileRead::NoFile),
        Err(OpenFault::Failed) => Err(FileFault::Failed),
    }
}

// Reads the text of the file in hand, and puts the file back.
fn read_in_hand<F: Shelf>(
    alloc: Global,
    room: Room,
    shelf: &mut F,
) -> Result<LefFileRead, FileFault>
    requires { F.hand shelf.old ≡ Hand.Reading }
    ensures text { IfOk result (λ read. IsTextRead (left_told Hand.Reading (F.told shelf.old)) read) }
    ensures files { KeepsFiles (F.told shelf.old) (F.told shelf.new) }
    ensures hand { OnOk result (F.hand shelf.new ≡ Hand.Nothing) }
    ensures cause { HasCause (F.faults shelf.old) (F.faults shelf.new) result }
{
    let read = read_text(alloc, room, shelf)?;
    shelf.close()?;
    Ok(read)
}

// Reads the text of the file in hand.
fn read_text<F: Shelf>(alloc: Global, room: Room, shelf: &mut F) -> Result<LefFileRead, FileFault>
    requires { F.hand shelf.old ≡ Hand.Reading }
    ensures text { IfOk result (λ read. IsTextRead (left_told Hand.Reading (F.told shelf.old)) read) }
    ensures files { KeepsFiles (F.told shelf.old) (F.told shelf.new) }
    ensures hand { OnOk result (F.hand shelf.new ≡ Hand.Reading) }
    ensures cause { HasCause (F.faults shelf.old) (F.faults shelf.new) result }
{
    let mut read = Err(FileFault::Memory);
    let _source = read_source(alloc, room, ShelfSource::new(shelf), &mut read);
    read
}

// Reads the text that a source has left. The source is given back alone, so that what lies behind it is still known.
fn read_source<S: Source + Drop>(
    alloc: Global,
    room: Room,
    source: S,
    read: &mut Result<LefFileRead, FileFault>,
) -> S
    requires { IsTrue (S.ready source) }
    ensures text { IfOk read.new (λ given. IsTextRead (S.left source) given) }
    ensures ready { OnOk read.new (IsTrue (S.ready result)) }
    ensures cause { HasCause (S.faults source) (S.faults result) read.new }
    ensures rest { S.rest result ≡ S.rest source }
{
    let mut words = Words::in_room(alloc, room, source);
    let answer = read_lef(alloc, &mut words);
    *read = outcome(answer);
    words.into_source()
}
