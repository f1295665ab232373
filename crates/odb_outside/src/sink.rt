ghost use Rattle.std.specs.Prelude.{◌≡◌, ◌-◌, ◌<◌, ◌≤◌, ◌^◌, Bool, List, ℕ, Option, IsErrOf, IsTrue, IfOk, length};
ghost use Rattle.odb_outside.specs.Outside.{HasWriteCause};
ghost use Rattle.odb_outside.specs.Writing.{UnlessFailed, Writes, WritesAll};

use crate::fault::WriteFault;

/// Where bytes go.
pub trait Sink {
    /// The bytes that the object holds, where it tells them.
    ghost held: { Self → Option (List ℕ) };

    /// Whether the object may be written.
    ghost ready: { Self → Bool };

    /// How many faults there were. The number stops at 2^64 - 1.
    ghost faults: { Self → ℕ };

    /// The sort of what `write` never changes.
    ghost Rest: { Type 0 };

    /// What `write` never changes.
    ghost rest: { Self → Rest };

    /// Appends some bytes from the front of `from`, and answers how many; of a piece that isn't empty at
    /// least one. After `Failed` a prefix of the piece is appended, and the object need not be ready; `Memory`
    /// is counted as no fault.
    fn write(&mut self, from: &[u8]) -> Result<usize, WriteFault>
        requires { IsTrue (ready self.old) }
        ensures bound { IfOk result (λ n. n ≤ length from.now) }
        ensures some { IfOk result (λ n. 0 < length from.now → 0 < n) }
        ensures bytes { Writes (held self.old) (held self.new) result from.now }
        ensures ready { UnlessFailed result (IsTrue (ready self.new)) }
        ensures cause { HasWriteCause (faults self.old) (faults self.new) result }
        ensures memory { IsErrOf result WriteFault.Memory → faults self.new ≡ faults self.old }
        ensures rest { rest self.new ≡ rest self.old };

    /// The number of faults stops at 2^64 - 1.
    ghost faults_end: { (sink : Self) → faults sink ≤ 2 ^ 64 - 1 };
}

/// Appends all the bytes or, on a fault, a prefix of them.
pub fn write_all<K: Sink>(sink: &mut K, bytes: &[u8]) -> Result<(), WriteFault>
    requires { IsTrue (K.ready sink.old) }
    ensures bytes { WritesAll (K.held sink.old) (K.held sink.new) result bytes.now }
    ensures ready { UnlessFailed result (IsTrue (K.ready sink.new)) }
    ensures cause { HasWriteCause (K.faults sink.old) (K.faults sink.new) result }
    ensures rest { K.rest sink.new ≡ K.rest sink.old }
{
    let mut done = 0;
    while done < bytes.len() {
        done += sink.write(&bytes[done..])?;
    }
    Ok(())
}
