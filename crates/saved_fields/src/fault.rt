ghost use Rattle.std.specs.Prelude.{◌≡◌};
ghost use Rattle.saved_fields.specs.declared.fault.ReadFault.TheVariants as fault;

use odb_base::Kind;
use odb_fields::Cut;
use std::alloc::{AllocError, AllocFailed};

/// Why bytes are no saved database: what is met first, read from the front.
#[derive(Clone, Copy, Debug, PartialEq, Eq)]
pub enum ReadFault {
    /// The bytes don't begin with the mark of a saved database.
    NotSaved,
    /// The version of the format isn't the one that is read here.
    Version { got: u32 },
    /// The bytes end inside a field; `at` is their length.
    Cut { at: u64 },
    /// The field that begins at this place has a value outside its set, its limit or its rule.
    BadField { at: u64 },
    /// The table of this kind has more slots than the cap allows.
    OverCap { kind: Kind },
    /// A byte stands at this place, behind the last table.
    Trailing { at: u64 },
    /// There is no memory for what was read.
    Memory,
}

impl From<AllocError> for ReadFault {
    ghost from_gives = { λ _ e. e ≡ fault.Memory };

    fn from(_: AllocError) -> ReadFault {
        ReadFault::Memory
    }
}

impl<T: Drop> From<AllocFailed<T>> for ReadFault {
    ghost from_gives = { λ _ e. e ≡ fault.Memory };

    fn from(_: AllocFailed<T>) -> ReadFault {
        ReadFault::Memory
    }
}

impl From<Cut> for ReadFault {
    ghost from_gives = { λ cut e. e ≡ fault.Cut cut.at };

    fn from(cut: Cut) -> ReadFault {
        ReadFault::Cut { at: cut.at }
    }
}
