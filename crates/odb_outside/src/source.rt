ghost use Rattle.std.specs.Prelude.{◌≡◌, ◌-◌, ◌≤◌, ◌^◌, Bool, List, ℕ, Option, IsTrue, IfOk, OnOk, length};
ghost use Rattle.odb_outside.specs.Outside.{HasCause};
ghost use Rattle.odb_outside.specs.Reading.{Reads};

use crate::fault::Failed;

/// Where bytes come from.
pub trait Source {
    /// The bytes that are left to be read, where the object tells them.
    ghost left: { Self → Option (List ℕ) };

    /// Whether the object may be read.
    ghost ready: { Self → Bool };

    /// How many faults there were. The number stops at 2^64 - 1.
    ghost faults: { Self → ℕ };

    /// The sort of what `read` never changes.
    ghost Rest: { Type 0 };

    /// What `read` never changes.
    ghost rest: { Self → Rest };

    /// Reads some of the bytes that are left into the front of `into`, and answers how many. 0 for a piece
    /// that isn't empty is the end of the input. After `Failed` the object need not be ready, nor tell its
    /// bytes; where it still tells them, none is lost.
    fn read(&mut self, into: &mut [u8]) -> Result<usize, Failed>
        requires { IsTrue (ready self.old) }
        ensures bound { IfOk result (λ n. n ≤ length into.new) }
        ensures bytes { Reads (left self.old) (left self.new) result into.new }
        ensures ready { OnOk result (IsTrue (ready self.new)) }
        ensures cause { HasCause (faults self.old) (faults self.new) result }
        ensures rest { rest self.new ≡ rest self.old };

    /// The number of faults stops at 2^64 - 1.
    ghost faults_end: { (source : Self) → faults source ≤ 2 ^ 64 - 1 };
}
