ghost use Rattle.std.specs.Prelude.{◌≡◌};
ghost use Rattle.odb_run.specs.Running.{file_stop_of, status_of, stop_of};
ghost use Rattle.odb_run.specs.declared.stop.Stop.TheVariants.{Memory, ScriptFault};

use crate::status::Status;
use odb_outside::{Failed, WriteFault};
use shelf_files::FileFault;
use std::alloc::AllocError;

/// What ends a run before its script has ended.
#[derive(Clone, Copy, Debug, PartialEq, Eq)]
pub enum Stop {
    /// Reading the script failed.
    ScriptFault,
    /// Writing the replies failed.
    OutFault,
    /// Reading or writing a file failed.
    FileFault,
    /// The script has more than 2^30 bytes.
    ScriptTooLong,
    /// There is no memory to go on.
    Memory,
}

impl Stop {
    /// The status of a run that stopped so.
    pub fn status(self) -> Status
        ensures { result ≡ status_of self }
    {
        match self {
            Stop::ScriptFault => Status::ScriptFault,
            Stop::OutFault => Status::OutFault,
            Stop::FileFault => Status::FileFault,
            Stop::ScriptTooLong => Status::ScriptTooLong,
            Stop::Memory => Status::Memory,
        }
    }
}

impl From<Failed> for Stop {
    ghost from_gives = { λ _ stop. stop ≡ ScriptFault };

    fn from(_: Failed) -> Self {
        Stop::ScriptFault
    }
}

impl From<WriteFault> for Stop {
    ghost from_gives = { λ fault stop. stop ≡ stop_of fault };

    fn from(fault: WriteFault) -> Self {
        match fault {
            WriteFault::Failed => Stop::OutFault,
            WriteFault::Memory => Stop::Memory,
        }
    }
}

impl From<AllocError> for Stop {
    ghost from_gives = { λ _ stop. stop ≡ Memory };

    fn from(_: AllocError) -> Self {
        Stop::Memory
    }
}

impl From<FileFault> for Stop {
    ghost from_gives = { λ fault stop. stop ≡ file_stop_of fault };

    fn from(fault: FileFault) -> Self {
        match fault {
            FileFault::Failed => Stop::FileFault,
            FileFault::Memory => Stop::Memory,
        }
    }
}
