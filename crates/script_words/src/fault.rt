ghost use Rattle.std.specs.Prelude.{◌≡◌};
ghost use Rattle.script_words.specs.declared.fault.LineFault.TheVariants.{Memory};

use std::alloc::AllocError;

/// Why a line is no command.
#[derive(Clone, Copy, Debug, PartialEq, Eq)]
pub enum LineFault {
    /// Its first word is the name of no command.
    UnknownCommand,
    /// The number of its words is wrong, or a word isn't of the form that its place wants.
    BadWords,
    /// There is no memory for a copy of its words.
    Memory,
}

impl From<AllocError> for LineFault {
    ghost from_gives = { λ _ e. e ≡ Memory };

    fn from(_: AllocError) -> Self {
        LineFault::Memory
    }
}
