ghost use Rattle.std.specs.Prelude.{◌≡◌};
ghost use Rattle.odb_save.specs.declared.load_fault.LoadFault.TheVariants.{Memory};
ghost use Rattle.odb_save.specs.LoadFaults.{of_part, of_read, of_tables};

use block_tables::TablesFault;
use odb_base::Kind;
use saved_reader::ReadFault;
use std::alloc::AllocError;
use tech_parts::PartFault;

/// Why bytes aren't loaded: what is met first, read from the front, and then the least place that isn't sound.
#[derive(Clone, Copy, Debug, PartialEq, Eq)]
pub enum LoadFault {
    /// The bytes don't begin with the mark of a saved database.
    NotSaved,
    /// The version of the format isn't the one that is read here.
    Version { got: u32 },
    /// The bytes end inside a field; `at` is their length.
    Cut { at: u64 },
    /// The field that begins at this place has a value outside its set, its limit or its rule.
    BadField { at: u64 },
    /// The table of this kind has more slots than the cap allows.
    OverCap { kind: Kind },
    /// A byte stands at this place, behind the last table.
    Trailing { at: u64 },
    /// What was read doesn't fit together. This is its least place that isn't sound: the technology, the library and the
    /// header of the block, of no kind and with identifier 0; then the kinds in the order of their codes, in each the
    /// table, with identifier 0, before the records by their identifiers.
    Unsound { kind: Option<Kind>, id: u32 },
    /// There is no memory. It says nothing of the bytes.
    Memory,
}

impl From<ReadFault> for LoadFault {
    ghost from_gives = { λ fault e. e ≡ of_read fault };

    fn from(fault: ReadFault) -> LoadFault {
        match fault {
            ReadFault::NotSaved => LoadFault::NotSaved,
            ReadFault::Version { got } => LoadFault::Version { got },
            ReadFault::Cut { at } => LoadFault::Cut { at },
            ReadFault::BadField { at } => LoadFault::BadField { at },
            ReadFault::OverCap { kind } => LoadFault::OverCap { kind },
            ReadFault::Trailing { at } => LoadFault::Trailing { at },
            ReadFault::Memory => LoadFault::Memory,
        }
    }
}

impl From<AllocError> for LoadFault {
    ghost from_gives = { λ _ e. e ≡ Memory };

    fn from(_: AllocError) -> LoadFault {
        LoadFault::Memory
    }
}

impl From<PartFault> for LoadFault {
    ghost from_gives = { λ fault e. e ≡ of_part fault };

    fn from(fault: PartFault) -> LoadFault {
        match fault {
            PartFault::Memory => LoadFault::Memory,
            // What no table has stands with the header, of no kind.
            _ => LoadFault::Unsound { kind: None, id: 0 },
        }
    }
}

impl From<TablesFault> for LoadFault {
    ghost from_gives = { λ fault e. e ≡ of_tables fault };

    fn from(fault: TablesFault) -> LoadFault {
        match fault {
            TablesFault::Unsound { kind, id } => LoadFault::Unsound { kind, id },
            TablesFault::Memory => LoadFault::Memory,
        }
    }
}
