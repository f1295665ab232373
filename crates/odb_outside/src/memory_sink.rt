ghost use Rattle.std.specs.Prelude.{◌≡◌, ◌<◌, ◌≤◌, [], Some, IsErrOf, IsTrue, IfOk, length, true};
ghost use Rattle.std.specs.List.{list_all};
ghost use Rattle.odb_outside.specs.Calls.{fault_count, faults_end, is_call_number};
ghost use Rattle.odb_outside.specs.Memory.{Takes};
ghost use Rattle.odb_outside.specs.Outside.{HasWriteCause};
ghost use Rattle.odb_outside.specs.Writing.{Writes};

use crate::calls::Calls;
use crate::fault::WriteFault;
use crate::sink::Sink;
use std::alloc::Global;
use std::marker::Model;

/// A sink that keeps its bytes in memory, tells them and is always ready.
#[derive(Debug, Drop)]
pub struct MemorySink {
    bytes: Vec<u8>,
    piece: usize,
    calls: Calls,
}

impl Model for MemorySink {
    ghost use Rattle.std.specs.Prelude.{◌<◌};
    ghost use Rattle.odb_outside.specs.Memory.{Taken};

    ghost Value = { Taken };

    ghost view = { λ s. record { held = s.bytes.items; piece = s.piece; calls = s.calls } };

    ghost invariant = { λ s. 0 < s.piece };
}

impl MemorySink {
    /// A sink that holds nothing. A call moves at most `piece` bytes, and the calls of these numbers, counted
    /// from 1 and each below 2^64 - 1, fail and move none.
    pub fn new(alloc: Global, piece: usize, failing: Vec<u64>) -> MemorySink
        requires piece { 0 < piece }
        requires failing { IsTrue (list_all is_call_number failing.items) }
        ensures { result ≡ record { held = []; piece = piece; calls = record { failing = failing.items; made = 0 } } }
    {
        MemorySink {
            bytes: Vec::new(alloc),
            piece,
            calls: Calls::new(failing),
        }
    }

    /// The bytes that were written, in order.
    pub fn bytes(&self) -> &[u8]
        ensures { result.now ≡ self.now.held }
    {
        &self.bytes
    }
}

impl Sink for MemorySink {
    ghost held = { λ s. Some s.held };

    ghost ready = { λ _. true };

    ghost faults = { λ s. fault_count s.calls };

    ghost Rest = { Unit {0} };

    ghost rest = { λ _. tt };

    ghost faults_end = { λ s. faults_end s.calls };

    fn write(&mut self, from: &[u8]) -> Result<usize, WriteFault>
        ensures bound { IfOk result (λ n. n ≤ length from.now) }
        ensures some { IfOk result (λ n. 0 < length from.now → 0 < n) }
        ensures bytes { Writes (Some self.old.held) (Some self.new.held) result from.now }
        ensures cause { HasWriteCause (fault_count self.old.calls) (fault_count self.new.calls) result }
        ensures memory { IsErrOf result WriteFault.Memory → fault_count self.new.calls ≡ fault_count self.old.calls }
        ensures takes { Takes self.old self.new from.now result }
    {
        if self.calls.fails_next() {
            self.calls.count();
            return Err(WriteFault::Failed);
        }
        let n = from.len().min(self.piece);
        self.bytes.extend_from_slice(&from[..n])?;
        self.calls.count();
        Ok(n)
    }
}
