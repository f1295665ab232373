ghost use Rattle.std.specs.Prelude.{◌≡◌};
ghost use Rattle.block_tables.specs.declared.fault.TablesFault.TheVariants.{Memory};

use odb_base::Kind;
use std::alloc::AllocError;

/// Why no block is made of tables.
#[derive(Clone, Copy, Debug, PartialEq, Eq)]
pub enum TablesFault {
    /// The block wouldn't be sound. This is its least place that isn't: the header, of no kind and with
    /// identifier 0; then the kinds in the order of their codes, in each the table, with identifier 0, before the
    /// records by their identifiers.
    Unsound { kind: Option<Kind>, id: u32 },
    /// There is no memory. It says nothing of the tables.
    Memory,
}

impl From<AllocError> for TablesFault {
    ghost from_gives = { λ _ fault. fault ≡ Memory };

    fn from(_: AllocError) -> TablesFault {
        TablesFault::Memory
    }
}
