ghost use Rattle.std.specs.Prelude.{◌≡◌};
ghost use Rattle.odb_outside.specs.Adapters.{held_told, is_writing, others_told};
ghost use Rattle.odb_outside.specs.declared.shelf.Hand.{Hand as AnyHand};

use crate::fault::WriteFault;
use crate::shelf::{Hand, Shelf};
use crate::sink::Sink;

/// The file in hand of a shelf, as a sink. It is ready where the file is in hand for writing.
#[derive(Drop)]
pub struct ShelfSink<'a, F: Shelf> {
    shelf: &'a mut F,
}

impl<'a, F: Shelf> ShelfSink<'a, F> {
    /// A sink to the file that the shelf has in hand for writing.
    pub fn new(shelf: &'a mut F) -> ShelfSink<'a, F>
        requires { F.hand shelf.old ≡ Hand.Writing }
        ensures shelf { result.shelf.now ≡ shelf.old }
        ensures same { result.shelf.ghost_name ≡ shelf.entry.ghost_name }
    {
        ShelfSink { shelf }
    }
}

impl<'a, F: Shelf> Sink for ShelfSink<'a, F> {
    ghost use Rattle.std.specs.Prelude.{ℕ, Option};
    ghost use Rattle.odb_outside.specs.Adapters.{Others};

    ghost held = { λ s. held_told (F.told s.shelf.now) };

    ghost ready = { λ s. is_writing (F.hand s.shelf.now) };

    ghost faults = { λ s. F.faults s.shelf.now };

    ghost Rest = { ℕ × Option Others };

    ghost rest = { λ s. (s.shelf.ghost_name, others_told (F.told s.shelf.now)) };

    ghost faults_end = { λ s. F.faults_end s.shelf.now };

    #[tactic(auto, using(crate::proofs::Sinks::writes_held, crate::proofs::Sinks::others_stay))]
    fn write(&mut self, from: &[u8]) -> Result<usize, WriteFault> {
        self.shelf.write(from)
    }
}
