ghost use Rattle.std.specs.Prelude.{◌-◌, ◌^◌, None, true, min};
ghost use Rattle.std.proofs.Common.{arith};

use odb_outside::{Sink, WriteFault};
use std::io::Write;

/// A real stream as a sink. It tells no bytes and is always ready.
#[derive(Drop)]
pub struct StandardOutput<W: Write> {
    writer: W,
    faults: u64,
}

impl<W: Write> StandardOutput<W> {
    /// The stream behind this writer, without a fault so far.
    pub fn new(writer: W) -> Self {
        StandardOutput { writer, faults: 0 }
    }
}

impl<W: Write> Sink for StandardOutput<W> {
    ghost held = { λ _. None };

    ghost ready = { λ _. true };

    ghost faults = { λ s. min s.faults (2 ^ 64 - 1) };

    ghost Rest = { Unit {0} };

    ghost rest = { λ _. tt };

    ghost faults_end = { λ s. Prim.omega arith };

    fn write(&mut self, from: &[u8]) -> Result<usize, WriteFault> {
        match self.writer.write(from) {
            Ok(n) if n > 0 || from.is_empty() => Ok(n),
            _ => {
                self.faults = self.faults.saturating_add(1);
                Err(WriteFault::Failed)
            }
        }
    }
}
