ghost use Rattle.std.specs.Prelude.{◌≡◌, ◌≤◌, IsTrue, true};
ghost use Rattle.std.specs.List.{list_all};
ghost use Rattle.odb_outside.specs.Calls.{fails_next, fault_count, is_call_number, next_call};
ghost use Rattle.odb_outside.specs.Outside.{Rose};

use std::marker::Model;

/// The calls of a memory object: how many there were, and the numbers of those that fail, counted from 1.
/// Contracts see a [schedule](../specs/Calls.antt) of the two.
#[derive(Debug, Drop)]
pub struct Calls {
    failing: Vec<u64>,
    made: u64,
}

impl Model for Calls {
    ghost use Rattle.std.specs.Prelude.{IsTrue};
    ghost use Rattle.std.specs.List.{list_all};
    ghost use Rattle.odb_outside.specs.Calls.{Schedule, is_call_number};

    ghost Value = { Schedule };

    ghost view = { λ c. record { failing = c.failing.items; made = c.made } };

    ghost invariant = { λ c. IsTrue (list_all is_call_number c.failing.items) };
}

impl Calls {
    /// No call was made, and those of these numbers, each below 2^64 - 1, are to fail.
    pub fn new(failing: Vec<u64>) -> Self
        requires { IsTrue (list_all is_call_number failing.items) }
        ensures { result ≡ record { failing = failing.items; made = 0 } }
    {
        Calls { failing, made: 0 }
    }

    /// Whether the next call is to fail.
    pub fn fails_next(&self) -> bool
        ensures { result ≡ fails_next self.now }
    {
        self.failing.contains(&self.made.saturating_add(1))
    }

    /// Counts one more call. The number stops at 2^64 - 1.
    pub fn count(&mut self)
        ensures counted { self.new ≡ next_call self.old }
        ensures later { fault_count self.old ≤ fault_count self.new }
        ensures rose { fails_next self.old ≡ true → Rose (fault_count self.old) (fault_count self.new) }
    {
        self.made = self.made.saturating_add(1);
    }
}
