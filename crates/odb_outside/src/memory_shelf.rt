ghost use Rattle.std.specs.Prelude.{◌≡◌, ◌≢◌, ◌<◌, ◌≤◌, [], IfOk, IsErrOf, IsTrue, OnErr, OnOk, Some, length, min, option_copied};
ghost use Rattle.std.specs.List.{list_all};
ghost use Rattle.odb_outside.specs.Calls.{fault_count, faults_end, is_call_number};
ghost use Rattle.odb_outside.specs.Files.{file_of, with_file};
ghost use Rattle.odb_outside.specs.Outside.{HasCause, HasWriteCause};
ghost use Rattle.odb_outside.specs.Shelved.{Counts, CountsOpen, CountsWrite};
ghost use Rattle.odb_outside.specs.Shelves.{Creates, HasOpenCause, KeepsFiles, Opens, ReadsFile, WritesFile, in_hand, in_hand_written};

use crate::calls::Calls;
use crate::fault::{Failed, OpenFault, WriteFault};
use crate::files::MemoryFiles;
use crate::shelf::{Hand, Shelf};
use std::alloc::{AllocError, Global};
use std::marker::Model;

/// Files in memory, which the shelf tells.
#[derive(Debug, Drop)]
pub struct MemoryShelf {
    files: MemoryFiles,
    hand: Hand,
    // The place of the file that is being read, and how many of its bytes were read.
    at: usize,
    taken: usize,
    // The name of the file that is being written.
    name: Vec<u8>,
    piece: usize,
    calls: Calls,
}

impl Model for MemoryShelf {
    ghost use Rattle.std.specs.Prelude.{◌<◌};
    ghost use Rattle.std.specs.Coded.{codes};
    ghost use Rattle.odb_outside.specs.Ordered.{order_code};
    ghost use Rattle.odb_outside.specs.Shelved.{Shelved};

    ghost Value = { Shelved };

    ghost coded = { Prim.hlevel (codes, order_code) };

    ghost use Rattle.odb_outside.specs.Files.{AreInOrder};
    ghost use Rattle.odb_outside.specs.Ordered.{entered, entered_in_order};
    ghost use Rattle.odb_outside.specs.Shelved.{IsInHand, left_of};

    ghost view = { λ s. record {
      told = record { files = entered s.files; name = s.name.items; left = left_of s.hand s.at s.taken s.files };
      ordered = entered_in_order s.files;
      hand = s.hand;
      piece = s.piece;
      calls = s.calls;
    } };

    ghost invariant = { λ s. (0 < s.piece) × IsInHand s.hand s.at s.taken s.name.items s.files × AreInOrder s.files };
}

impl MemoryShelf {
    ghost use Rattle.odb_outside.specs.declared.shelf.Hand.{Hand as AnyHand};

    /// A shelf without files and with nothing in hand. A call moves at most `piece` bytes, and the calls of these
    /// numbers, counted from 1 over all calls of the trait and each below 2^64 - 1, fail.
    pub fn new(alloc: Global, piece: usize, failing: Vec<u64>) -> MemoryShelf
        requires piece { 0 < piece }
        requires failing { IsTrue (list_all is_call_number failing.items) }
        ensures files { result.told.files ≡ [] }
        ensures hand { result.hand ≡ Hand.Nothing }
        ensures piece { result.piece ≡ piece }
        ensures calls { result.calls ≡ record { failing = failing.items; made = 0 } }
    {
        MemoryShelf {
            files: MemoryFiles::new(alloc),
            hand: Hand::Nothing,
            at: 0,
            taken: 0,
            name: Vec::new(alloc),
            piece,
            calls: Calls::new(failing),
        }
    }

    /// The bytes of the file of a name, if there is one.
    pub fn file(&self, name: &str) -> Option<&[u8]>
        ensures { option_copied result ≡ file_of name.now self.now.told.files }
    {
        self.files.get(name.as_bytes())
    }

    /// Sets the bytes of a file, where nothing is in hand. For want of memory the shelf is as it was.
    pub fn put(&mut self, name: &str, bytes: Vec<u8>) -> Result<(), AllocError>
        requires { self.old.hand ≡ Hand.Nothing }
        ensures ok { OnOk result (self.new.told.files ≡ with_file name.now bytes.items self.old.told.files) }
        ensures err { OnErr result (self.new.told.files ≡ self.old.told.files) }
        ensures hand { self.new.hand ≡ self.old.hand }
        ensures calls { self.new.calls ≡ self.old.calls }
    {
        self.files.set(name.as_bytes(), bytes)
    }
}

impl Shelf for MemoryShelf {
    ghost use Rattle.odb_outside.specs.declared.shelf.Hand.{Hand as AnyHand};

    ghost told = { λ s. Some s.told };

    ghost hand = { λ s. s.hand };

    ghost faults = { λ s. fault_count s.calls };

    ghost faults_end = { λ s. faults_end s.calls };

    ghost files_in_order = { λ s. s.ordered };

    fn open(&mut self, name: &str) -> Result<(), OpenFault>
        requires { self.old.hand ≡ Hand.Nothing }
        ensures opens { Opens (Some self.old.told) name.now result (Some self.new.told) }
        ensures files { KeepsFiles (Some self.old.told) (Some self.new.told) }
        ensures hand { self.new.hand ≡ in_hand Hand.Reading result }
        ensures cause { HasOpenCause (fault_count self.old.calls) (fault_count self.new.calls) result }
        ensures counts { CountsOpen self.old self.new result }
    {
        let fails = self.calls.fails_next();
        self.calls.count();
        if fails {
            return Err(OpenFault::Failed);
        }
        let Some(at) = self.files.find(name.as_bytes()) else {
            return Err(OpenFault::NoFile);
        };
        self.hand = Hand::Reading;
        self.at = at;
        self.taken = 0;
        Ok(())
    }

    fn read(&mut self, into: &mut [u8]) -> Result<usize, Failed>
        requires { self.old.hand ≡ Hand.Reading }
        ensures bound { IfOk result (λ n. n ≤ length into.new) }
        ensures reads { ReadsFile (Some self.old.told) (Some self.new.told) result into.new }
        ensures files { KeepsFiles (Some self.old.told) (Some self.new.told) }
        ensures hand { self.new.hand ≡ in_hand Hand.Reading result }
        ensures cause { HasCause (fault_count self.old.calls) (fault_count self.new.calls) result }
        ensures counts { Counts self.old self.new result }
        ensures moved { IfOk result (λ n. n ≡ min (min (length into.old) self.old.piece) (length self.old.told.left)) }
    {
        let fails = self.calls.fails_next();
        self.calls.count();
        if fails {
            self.hand = Hand::Nothing;
            return Err(Failed);
        }
        let bytes = self.files.bytes(self.at);
        let n = into.len().min(self.piece).min(bytes.len() - self.taken);
        into[..n].copy_from_slice(&bytes[self.taken..self.taken + n]);
        self.taken += n;
        Ok(n)
    }

    fn create(&mut self, name: &str) -> Result<(), WriteFault>
        requires { self.old.hand ≡ Hand.Nothing }
        ensures creates { Creates (Some self.old.told) name.now result (Some self.new.told) }
        ensures hand { self.new.hand ≡ in_hand_written Hand.Nothing Hand.Writing result }
        ensures cause { HasWriteCause (fault_count self.old.calls) (fault_count self.new.calls) result }
        ensures memory { IsErrOf result WriteFault.Memory → fault_count self.new.calls ≡ fault_count self.old.calls }
        ensures counts { CountsWrite self.old self.new result }
    {
        if self.calls.fails_next() {
            self.calls.count();
            return Err(WriteFault::Failed);
        }
        let alloc = *self.name.allocator();
        let bytes = name.as_bytes();
        let mut copy = Vec::new(alloc);
        copy.extend_from_slice(bytes)?;
        self.files.set(bytes, Vec::new(alloc))?;
        self.calls.count();
        self.hand = Hand::Writing;
        self.name = copy;
        Ok(())
    }

    fn write(&mut self, from: &[u8]) -> Result<usize, WriteFault>
        requires { self.old.hand ≡ Hand.Writing }
        ensures bound { IfOk result (λ n. n ≤ length from.now) }
        ensures some { IfOk result (λ n. 0 < length from.now → 0 < n) }
        ensures writes { WritesFile (Some self.old.told) (Some self.new.told) result from.now }
        ensures hand { self.new.hand ≡ in_hand_written Hand.Writing Hand.Writing result }
        ensures cause { HasWriteCause (fault_count self.old.calls) (fault_count self.new.calls) result }
        ensures memory { IsErrOf result WriteFault.Memory → fault_count self.new.calls ≡ fault_count self.old.calls }
        ensures counts { CountsWrite self.old self.new result }
        ensures moved { IfOk result (λ n. n ≡ min (length from.now) self.old.piece) }
    {
        if self.calls.fails_next() {
            self.calls.count();
            self.hand = Hand::Nothing;
            return Err(WriteFault::Failed);
        }
        let n = from.len().min(self.piece);
        self.files.append(&self.name, &from[..n])?;
        self.calls.count();
        Ok(n)
    }

    fn close(&mut self) -> Result<(), Failed>
        ensures files { KeepsFiles (Some self.old.told) (Some self.new.told) }
        ensures hand { self.new.hand ≡ Hand.Nothing }
        ensures cause { HasCause (fault_count self.old.calls) (fault_count self.new.calls) result }
        ensures counts { Counts self.old self.new result }
    {
        let fails = self.calls.fails_next();
        self.calls.count();
        self.hand = Hand::Nothing;
        if fails {
            return Err(Failed);
        }
        Ok(())
    }
}
