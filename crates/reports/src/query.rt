ghost use Rattle.std.specs.Prelude.{◌≡◌};
ghost use Rattle.reports.specs.declared.query.ReportFault.TheVariants.{Memory};

use odb_base::{Kind, Text};
use std::alloc::AllocError;

/// What is asked of a database.
#[derive(Debug, Drop)]
pub enum Query {
    /// The object of a kind that has this name.
    Find { kind: Kind, name: Text },
    /// The objects of a kind.
    List { kind: Kind },
    /// The slots and the free identifiers of a kind.
    Free { kind: Kind },
    /// How many objects there are of each kind.
    Counts,
    /// The terminals that are joined to a net.
    Terms { net: u32 },
}

/// Why a query has no answer.
#[derive(Clone, Copy, Debug, PartialEq, Eq)]
pub enum ReportFault {
    /// No object of this kind has the identifier.
    NotLive { kind: Kind, id: u32 },
    /// There is no memory for the reply.
    Memory,
}

impl From<AllocError> for ReportFault {
    ghost from_gives = { λ _ fault. fault ≡ Memory };

    fn from(_: AllocError) -> Self {
        ReportFault::Memory
    }
}
