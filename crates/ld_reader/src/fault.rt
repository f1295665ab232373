ghost use Rattle.std.specs.Prelude.{◌≡◌};
ghost use Rattle.ld_reader.specs.declared.fault.Stop.TheVariants.{Memory};
ghost use Rattle.ld_reader.specs.declared.fault.TextFault.TheVariants.{Memory as no_memory};

use ld_words::WordFault;
use std::alloc::AllocError;

/// Why a word stops the reading.
#[derive(Clone, Copy, Debug, PartialEq, Eq)]
pub enum Stop<K> {
    /// This is wrong with it.
    Fault(K),
    /// There is no memory for what is read.
    Memory,
}

impl<K> From<AllocError> for Stop<K> {
    ghost from_gives = { λ _ e. e ≡ Memory };

    fn from(_: AllocError) -> Self {
        Stop::Memory
    }
}

/// Why a text isn't read.
#[derive(Clone, Copy, Debug, PartialEq, Eq)]
pub enum TextFault<K> {
    /// The words of the text have this fault; never want of memory.
    Word(WordFault),
    /// This is wrong with the first word that its place doesn't take, which stands on this line; or the text
    /// ends on the line.
    At { line: u64, kind: K },
    /// There is no memory for what is read.
    Memory,
}

impl<K> From<AllocError> for TextFault<K> {
    ghost from_gives = { λ _ e. e ≡ no_memory };

    fn from(_: AllocError) -> Self {
        TextFault::Memory
    }
}
