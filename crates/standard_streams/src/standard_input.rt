ghost use Rattle.std.specs.Prelude.{◌-◌, ◌^◌, None, true, min};
ghost use Rattle.std.proofs.Common.{arith};

use odb_outside::{Failed, Source};
use std::io::Read;

/// A real stream as a source. It tells no bytes and is always ready.
#[derive(Drop)]
pub struct StandardInput<R: Read> {
    reader: R,
    faults: u64,
}

impl<R: Read> StandardInput<R> {
    /// The stream behind this reader, without a fault so far.
    pub fn new(reader: R) -> Self {
        StandardInput { reader, faults: 0 }
    }
}

impl<R: Read> Source for StandardInput<R> {
    ghost left = { λ _. None };

    ghost ready = { λ _. true };

    ghost faults = { λ s. min s.faults (2 ^ 64 - 1) };

    ghost Rest = { Unit {0} };

    ghost rest = { λ _. tt };

    ghost faults_end = { λ s. Prim.omega arith };

    fn read(&mut self, into: &mut [u8]) -> Result<usize, Failed> {
        match self.reader.read(into) {
            Ok(n) => Ok(n),
            Err(_) => {
                self.faults = self.faults.saturating_add(1);
                Err(Failed)
            }
        }
    }
}
