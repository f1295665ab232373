ghost use Rattle.std.specs.Prelude.{◌≡◌};
ghost use Rattle.edit_words.specs.declared.refusal.Refusal.TheVariants.{Memory as no_memory};

use odb_base::{Kind, Name};
use std::alloc::AllocError;

/// Why an edit isn't done. It leaves everything as it was. A place `at` is that of a word of the edit's line,
/// the command being 0; where a value has several words it is that of the first.
#[derive(Debug, Drop)]
pub enum Refusal {
    /// No object of this kind has the identifier.
    NotLive { kind: Kind, id: u32 },
    /// A value is outside its set or its limit, or the kind isn't allowed on the line.
    BadValue { at: u32 },
    /// A new name is unlawful.
    BadName { at: u32 },
    /// There is no master of that name.
    Unknown { at: u32 },
    /// The object of this identifier, of the same kind, has the name.
    NameTaken { id: u32 },
    /// The terminal is joined to this net.
    Joined { net: u32 },
    /// The terminal is joined to no net.
    NotJoined,
    /// One of the two masters has a terminal of this name and the other has none.
    TermsDiffer { name: Name },
    /// The net is special.
    Special,
    /// The table of this kind has no slot for the edit.
    TableFull { kind: Kind },
    /// There is no memory for the edit.
    Memory,
}

impl From<AllocError> for Refusal {
    ghost from_gives = { λ _ refusal. refusal ≡ no_memory };

    fn from(_: AllocError) -> Self {
        Refusal::Memory
    }
}
