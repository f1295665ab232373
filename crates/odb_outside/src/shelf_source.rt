ghost use Rattle.std.specs.Prelude.{◌≡◌, IfOk, IsTrue, length};
ghost use Rattle.odb_outside.specs.Adapters.{is_reading, left_told};

use crate::fault::Failed;
use crate::shelf::Shelf;
use crate::source::Source;

/// The file in hand of a shelf, as a source. It is ready where the file is in hand for reading.
#[derive(Drop)]
pub struct ShelfSource<'a, F: Shelf> {
    shelf: &'a mut F,
}

impl<'a, F: Shelf> ShelfSource<'a, F> {
    /// A source of the file that the shelf has in hand.
    pub fn new(shelf: &'a mut F) -> ShelfSource<'a, F>
        ensures shelf { result.shelf.now ≡ shelf.old }
        ensures same { result.shelf.ghost_name ≡ shelf.entry.ghost_name }
    {
        ShelfSource { shelf }
    }
}

impl<'a, F: Shelf> Source for ShelfSource<'a, F> {
    ghost use Rattle.odb_outside.specs.Shelves.{files_told};

    ghost left = { λ s. left_told (F.hand s.shelf.now) (F.told s.shelf.now) };

    ghost ready = { λ s. is_reading (F.hand s.shelf.now) };

    ghost faults = { λ s. F.faults s.shelf.now };

    ghost use Rattle.std.specs.Prelude.{List, ℕ, Option};
    ghost use Rattle.odb_outside.specs.Files.{File};

    ghost Rest = { ℕ × Option (List File) };

    ghost rest = { λ s. (s.shelf.ghost_name, files_told (F.told s.shelf.now)) };

    ghost faults_end = { λ s. F.faults_end s.shelf.now };

    fn read(&mut self, into: &mut [u8]) -> Result<usize, Failed> {
        self.shelf.read(into)
    }
}
