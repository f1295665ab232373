ghost use Rattle.std.specs.Prelude.{◌≡◌};
ghost use Rattle.shelf_files.specs.Causes.{fault_of};
ghost use Rattle.shelf_files.specs.declared.fault.FileFault.TheVariants as fault;

use odb_outside::{Failed, WriteFault};
use std::alloc::AllocError;

/// Why a file isn't read or written whole.
#[derive(Clone, Copy, Debug, PartialEq, Eq)]
pub enum FileFault {
    /// The shelf failed, and has counted the fault.
    Failed,
    /// There is no memory to go on.
    Memory,
}

impl From<AllocError> for FileFault {
    ghost from_gives = { λ _ e. e ≡ fault.Memory };

    fn from(_: AllocError) -> FileFault {
        FileFault::Memory
    }
}

impl From<Failed> for FileFault {
    ghost from_gives = { λ _ e. e ≡ fault.Failed };

    fn from(_: Failed) -> FileFault {
        FileFault::Failed
    }
}

impl From<WriteFault> for FileFault {
    ghost from_gives = { λ why e. e ≡ fault_of why };

    fn from(why: WriteFault) -> FileFault {
        match why {
            WriteFault::Failed => FileFault::Failed,
            WriteFault::Memory => FileFault::Memory,
        }
    }
}
