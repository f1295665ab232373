ghost use Rattle.std.specs.Prelude.{◌≡◌, ◌<◌, ◌≤◌, Some, IsTrue, IfOk, length, true};
ghost use Rattle.std.specs.List.{list_all};
ghost use Rattle.odb_outside.specs.Calls.{fault_count, faults_end, is_call_number};
ghost use Rattle.odb_outside.specs.Memory.{Gives};
ghost use Rattle.odb_outside.specs.Outside.{HasCause};
ghost use Rattle.odb_outside.specs.Reading.{Reads};

use crate::calls::Calls;
use crate::fault::Failed;
use crate::source::Source;
use std::marker::Model;

/// A source over bytes in memory, which tells them and is always ready.
#[derive(Debug, Drop)]
pub struct MemorySource {
    bytes: Vec<u8>,
    at: usize,
    piece: usize,
    calls: Calls,
}

impl Model for MemorySource {
    ghost use Rattle.std.specs.Prelude.{◌<◌, ◌≤◌, vec_len, drop};
    ghost use Rattle.odb_outside.specs.Memory.{Given};

    ghost Value = { Given };

    ghost view = { λ s. record { left = drop s.at s.bytes.items; piece = s.piece; calls = s.calls } };

    ghost invariant = { λ s. (s.at ≤ vec_len s.bytes) × (0 < s.piece) };
}

impl MemorySource {
    /// A source of these bytes. A call moves at most `piece` bytes, and the calls of these numbers, counted
    /// from 1 and each below 2^64 - 1, fail and move none.
    pub fn new(bytes: Vec<u8>, piece: usize, failing: Vec<u64>) -> MemorySource
        requires piece { 0 < piece }
        requires failing { IsTrue (list_all is_call_number failing.items) }
        ensures { result ≡ record { left = bytes.items; piece = piece; calls = record { failing = failing.items; made = 0 } } }
    {
        MemorySource {
            bytes,
            at: 0,
            piece,
            calls: Calls::new(failing),
        }
    }
}

impl Source for MemorySource {
    ghost left = { λ s. Some s.left };

    ghost ready = { λ _. true };

    ghost faults = { λ s. fault_count s.calls };

    ghost Rest = { Unit {0} };

    ghost rest = { λ _. tt };

    ghost faults_end = { λ s. faults_end s.calls };

    fn read(&mut self, into: &mut [u8]) -> Result<usize, Failed>
        ensures bound { IfOk result (λ n. n ≤ length into.new) }
        ensures bytes { Reads (Some self.old.left) (Some self.new.left) result into.new }
        ensures cause { HasCause (fault_count self.old.calls) (fault_count self.new.calls) result }
        ensures gives { Gives self.old self.new into.old into.new result }
    {
        let fails = self.calls.fails_next();
        self.calls.count();
        if fails {
            return Err(Failed);
        }
        let n = into.len().min(self.piece).min(self.bytes.len() - self.at);
        into[..n].copy_from_slice(&self.bytes[self.at..self.at + n]);
        self.at += n;
        Ok(n)
    }
}
