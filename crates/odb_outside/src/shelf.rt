ghost use Rattle.std.specs.Prelude.{◌≡◌, ◌≢◌, ◌-◌, ◌<◌, ◌≤◌, ◌^◌, List, ℕ, Option, IfOk, IsErrOf, length};
ghost use Rattle.odb_outside.specs.Outside.{HasCause, HasWriteCause};
ghost use Rattle.odb_outside.specs.Shelves.{Creates, HasOpenCause, KeepsFiles, Opens, ReadsFile, TellsInOrder, Told, WritesFile, in_hand, in_hand_written};

use crate::fault::{Failed, OpenFault, WriteFault};

/// What a shelf has in hand.
#[derive(Clone, Copy, Debug, PartialEq, Eq)]
pub enum Hand {
    Nothing,
    /// A file to be read.
    Reading,
    /// A file to be written.
    Writing,
}

/// Files by name. One of them at most is in hand, to be read or to be written.
pub trait Shelf {
    ghost use Rattle.odb_outside.specs.declared.shelf.Hand.{Hand};

    /// The files and the one in hand, where the object tells them.
    ghost told: { Self → Option Told };

    /// What is in hand.
    ghost hand: { Self → Hand };

    /// How many faults there were. The number stops at 2^64 - 1.
    ghost faults: { Self → ℕ };

    /// Takes the file of this name in hand for reading, from its first byte.
    fn open(&mut self, name: &str) -> Result<(), OpenFault>
        requires { hand self.old ≡ Hand.Nothing }
        ensures opens { Opens (told self.old) name.now result (told self.new) }
        ensures files { KeepsFiles (told self.old) (told self.new) }
        ensures hand { hand self.new ≡ in_hand Hand.Reading result }
        ensures cause { HasOpenCause (faults self.old) (faults self.new) result };

    /// Reads some bytes of the file in hand into the front of `into`, and answers how many. 0 for a piece that
    /// isn't empty is the end of the file. After `Failed` nothing is in hand.
    fn read(&mut self, into: &mut [u8]) -> Result<usize, Failed>
        requires { hand self.old ≡ Hand.Reading }
        ensures bound { IfOk result (λ n. n ≤ length into.new) }
        ensures reads { ReadsFile (told self.old) (told self.new) result into.new }
        ensures files { KeepsFiles (told self.old) (told self.new) }
        ensures hand { hand self.new ≡ in_hand Hand.Reading result }
        ensures cause { HasCause (faults self.old) (faults self.new) result };

    /// Makes the file of this name, or empties it, and takes it in hand for writing. After `Failed` nothing is in
    /// hand, and the files are as they were, or the one of this name is empty.
    fn create(&mut self, name: &str) -> Result<(), WriteFault>
        requires { hand self.old ≡ Hand.Nothing }
        ensures creates { Creates (told self.old) name.now result (told self.new) }
        ensures hand { hand self.new ≡ in_hand_written Hand.Nothing Hand.Writing result }
        ensures cause { HasWriteCause (faults self.old) (faults self.new) result }
        ensures memory { IsErrOf result WriteFault.Memory → faults self.new ≡ faults self.old };

    /// Appends some bytes from the front of `from` to the file in hand, and answers how many; of a piece that
    /// isn't empty at least one. After `Failed` nothing is in hand, and a prefix of the piece is appended.
    fn write(&mut self, from: &[u8]) -> Result<usize, WriteFault>
        requires { hand self.old ≡ Hand.Writing }
        ensures bound { IfOk result (λ n. n ≤ length from.now) }
        ensures some { IfOk result (λ n. 0 < length from.now → 0 < n) }
        ensures writes { WritesFile (told self.old) (told self.new) result from.now }
        ensures hand { hand self.new ≡ in_hand_written Hand.Writing Hand.Writing result }
        ensures cause { HasWriteCause (faults self.old) (faults self.new) result }
        ensures memory { IsErrOf result WriteFault.Memory → faults self.new ≡ faults self.old };

    /// Puts the file in hand back.
    fn close(&mut self) -> Result<(), Failed>
        requires { hand self.old ≢ Hand.Nothing }
        ensures files { KeepsFiles (told self.old) (told self.new) }
        ensures hand { hand self.new ≡ Hand.Nothing }
        ensures cause { HasCause (faults self.old) (faults self.new) result };

    /// The number of faults stops at 2^64 - 1.
    ghost faults_end: { (shelf : Self) → faults shelf ≤ 2 ^ 64 - 1 };

    /// The files that are told stand in the order of their names, each name once.
    ghost files_in_order: { (shelf : Self) → TellsInOrder (told shelf) };
}
