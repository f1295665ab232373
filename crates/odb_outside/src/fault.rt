ghost use Rattle.std.specs.Prelude.{◌≡◌};
ghost use Rattle.odb_outside.specs.declared.fault.WriteFault.TheVariants.{Failed as failed, Memory};

use std::alloc::AllocError;

/// An object of the outside failed. It has counted the fault.
#[derive(Clone, Copy, Debug, PartialEq, Eq)]
pub struct Failed;

/// Why a write didn't take place.
#[derive(Clone, Copy, Debug, PartialEq, Eq)]
pub enum WriteFault {
    /// The object failed, and has counted the fault.
    Failed,
    /// The object wanted memory. It is as it was before the call.
    Memory,
}

/// Why a file isn't opened.
#[derive(Clone, Copy, Debug, PartialEq, Eq)]
pub enum OpenFault {
    /// There is no file of that name.
    NoFile,
    /// The object failed, and has counted the fault.
    Failed,
}

impl From<AllocError> for WriteFault {
    ghost from_gives = { λ _ e. e ≡ Memory };

    fn from(_: AllocError) -> Self {
        WriteFault::Memory
    }
}

impl From<Failed> for WriteFault {
    ghost from_gives = { λ _ e. e ≡ failed };

    fn from(_: Failed) -> Self {
        WriteFault::Failed
    }
}
