ghost use Rattle.std.specs.Prelude.{◌≡◌};
ghost use Rattle.wires.specs.declared.fault.WireFault.TheVariants.{Memory};
ghost use Rattle.wires.specs.declared.fault.PathFault.TheVariants.{Memory as no_memory};
ghost use Rattle.wires.specs.declared.fault.PathStop.TheVariants.{Memory as stopped_by_memory};

use odb_base::Text;
use std::alloc::AllocError;

/// Why bytes were not decoded.
#[derive(Clone, Copy, Debug, PartialEq, Eq)]
pub enum WireFault {
    /// The first field that can't stand where it does begins at this place, from 0. A field in which the bytes
    /// end begins at its own place, and one that is still due at their end would begin there.
    At { at: u64 },
    /// There is no memory for the paths. It says nothing of the bytes.
    Memory,
}

impl From<AllocError> for WireFault {
    ghost from_gives = { λ _ e. e ≡ Memory };

    fn from(_fault: AllocError) -> WireFault {
        WireFault::Memory
    }
}

/// What is wrong with a word of paths.
#[derive(Clone, Copy, Debug, PartialEq, Eq)]
pub enum PathFlaw {
    /// It begins something that paths can't have here.
    Unsupported,
    /// It stands where a number can, and can't stand there.
    BadNumber,
    /// It stands where a name can, and can't stand there.
    BadName,
    /// It stands where certain words alone can, and is none of them.
    Unexpected,
}

/// Why a word of paths isn't taken.
#[derive(Clone, Copy, Debug, PartialEq, Eq)]
pub enum PathStop {
    /// This is wrong with it.
    Flaw(PathFlaw),
    /// There is no memory for the paths. It says nothing of the word.
    Memory,
}

impl From<AllocError> for PathStop {
    ghost from_gives = { λ _ e. e ≡ stopped_by_memory };

    fn from(_fault: AllocError) -> PathStop {
        PathStop::Memory
    }
}

/// Why words are no paths.
#[derive(Debug, Drop)]
pub enum PathFault {
    /// A word stands where it can't, or the words end too early.
    Bad,
    /// This word begins something that paths can't have here.
    Unsupported { word: Text },
    /// There is no memory for the paths. It says nothing of the words.
    Memory,
}

impl From<AllocError> for PathFault {
    ghost from_gives = { λ _ e. e ≡ no_memory };

    fn from(_fault: AllocError) -> PathFault {
        PathFault::Memory
    }
}
