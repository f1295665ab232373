ghost use Rattle.std.specs.Prelude.{◌≡◌};
ghost use Rattle.lef_build.specs.declared.fault.BuildFault.TheVariants.{Memory as no_memory};

use odb_base::Name;
use std::alloc::AllocError;
use thiserror::Error;

/// Why a LEF text has no parts: the first cause, in the order of its items and, at one item, in the order of these.
#[derive(Debug, Drop, Error)]
pub enum BuildFault {
    /// An item states a distance, and no database units per micron stand.
    #[error("a distance is stated before the database units")]
    NoUnits,
    /// An item states other units than stand.
    #[error("{got} database units per micron are stated where {had} stand")]
    UnitsChanged { had: u32, got: u32 },
    /// A shape is on a layer that doesn't stand.
    #[error("a shape is on a layer that is not there")]
    UnknownLayer { name: Name },
    /// A macro names a site that doesn't stand.
    #[error("a macro names a site that is not there")]
    UnknownSite { name: Name },
    /// A distance of the item of this name is no decimal or out of range, or a size of it is negative.
    #[error("a distance is not a number in its range")]
    BadValue { name: Name },
    /// There is no memory for the parts.
    #[error("out of memory")]
    Memory,
}

impl From<AllocError> for BuildFault {
    ghost from_gives = { λ _ fault. fault ≡ no_memory };

    fn from(_: AllocError) -> BuildFault {
        BuildFault::Memory
    }
}
