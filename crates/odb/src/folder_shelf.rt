ghost use Rattle.std.specs.Prelude.{◌≡◌, ◌+◌, ◌-◌, ◌^◌, None, min};
ghost use Rattle.std.proofs.Common.{arith};
ghost use Rattle.odb.specs.Hands.{hand_of};

use odb_outside::{Failed, Hand, OpenFault, Shelf, WriteFault};
use std::alloc::AllocError;
use std::fs::{self, OpenFile};
use std::io::{ErrorKind, Read, Write};
use std::mem;
use std::rt::Files;

/// A new file, which has a temporary name until it is whole.
#[derive(Drop)]
pub struct Draft<T> {
    file: T,
    temporary: String,
    name: String,
}

/// The file that a shelf has in hand.
#[derive(Drop)]
pub enum InHand<T> {
    Nothing,
    Reading(T),
    Writing(Draft<T>),
}

// How many temporary names are tried for a new file.
const TRIES: u32 = 1000;

/// The files of the current folder as a shelf. It tells no files. A file in hand is an open file, which is closed where
/// it is put back and after each failure.
///
/// A file that is written has a name `.odb-N`, which no script can name, until it is put back. It is then brought to the
/// disk and takes the place of the file of its name. So that file has all its old bytes or all its new ones, unless the
/// disk or the system loses some.
#[derive(Drop)]
pub struct FolderShelf<'a, R: Files + AllocGlobal> {
    rt: &'a R,
    file: InHand<R::File>,
    faults: u64,
}

impl<'a, R: Files + AllocGlobal> FolderShelf<'a, R> {
    /// The shelf of the current folder, with nothing in hand and without a fault so far.
    pub fn new(rt: &'a R) -> FolderShelf<'a, R>
        ensures { hand_of result.file ≡ Hand.Nothing }
    {
        FolderShelf {
            rt,
            file: InHand::Nothing,
            faults: 0,
        }
    }

    /// Puts the file in hand back. One that was being written is removed, and the file of its name is as it was.
    pub fn discard(&mut self)
        ensures hand { hand_of self.new.file ≡ Hand.Nothing }
        ensures faults { self.new.faults ≡ self.old.faults }
    {
        if let InHand::Writing(draft) = mem::replace(&mut self.file, InHand::Nothing) {
            let _ = fs::remove_file(self.rt, draft.temporary.as_str());
        }
    }

    // Counts a fault. Nothing is in hand after it.
    fn fail(&mut self)
        ensures hand { hand_of self.new.file ≡ Hand.Nothing }
        ensures faults { self.new.faults ≡ min (self.old.faults + 1) (2 ^ 64 - 1) }
    {
        self.discard();
        self.faults = self.faults.saturating_add(1);
    }

    // A new file that is to have this name, or none where the system gives none. Its temporary name is one that no other
    // file has, nor one that another run is writing.
    fn draft(&self, name: &str) -> Result<Option<Draft<R::File>>, AllocError> {
        let name = name.to_string(self.rt.alloc())?;
        for number in 0..TRIES {
            let temporary = format!(in self.rt.alloc(); ".odb-{number}")?;
            match fs::File::create_new(self.rt, temporary.as_str()) {
                Ok(file) => {
                    return Ok(Some(Draft {
                        file,
                        temporary,
                        name,
                    }));
                }
                Err(fault) if fault.kind() == ErrorKind::AlreadyExists => {}
                Err(_) => return Ok(None),
            }
        }
        Ok(None)
    }
}

// Brings a file's bytes to the disk and gives it its name, and tells whether both went well.
fn is_placed<R: Files>(rt: &R, draft: &Draft<R::File>) -> bool {
    draft.file.sync_all().is_ok()
        && fs::rename(rt, draft.temporary.as_str(), draft.name.as_str()).is_ok()
}

impl<'a, R: Files + AllocGlobal> Shelf for FolderShelf<'a, R> {
    ghost told = { λ _. None };

    ghost hand = { λ s. hand_of s.file };

    ghost faults = { λ s. min s.faults (2 ^ 64 - 1) };

    ghost faults_end = { λ s. Prim.omega arith };

    ghost files_in_order = { λ _. tt };

    fn open(&mut self, name: &str) -> Result<(), OpenFault> {
        match fs::open(self.rt, name) {
            Ok(file) => {
                self.file = InHand::Reading(file);
                Ok(())
            }
            Err(fault) if fault.kind() == ErrorKind::NotFound => Err(OpenFault::NoFile),
            Err(_) => {
                self.fail();
                Err(OpenFault::Failed)
            }
        }
    }

    fn read(&mut self, into: &mut [u8]) -> Result<usize, Failed> {
        let InHand::Reading(file) = &mut self.file else {
            unreachable!();
        };
        match file.read(into) {
            Ok(n) => Ok(n),
            Err(_) => {
                self.fail();
                Err(Failed)
            }
        }
    }

    fn create(&mut self, name: &str) -> Result<(), WriteFault> {
        match self.draft(name)? {
            Some(draft) => {
                self.file = InHand::Writing(draft);
                Ok(())
            }
            None => {
                self.fail();
                Err(WriteFault::Failed)
            }
        }
    }

    fn write(&mut self, from: &[u8]) -> Result<usize, WriteFault> {
        let InHand::Writing(Draft { file, .. }) = &mut self.file else {
            unreachable!();
        };
        match file.write(from) {
            Ok(n) if n > 0 || from.is_empty() => Ok(n),
            _ => {
                self.fail();
                Err(WriteFault::Failed)
            }
        }
    }

    fn close(&mut self) -> Result<(), Failed> {
        if let InHand::Writing(draft) = &self.file {
            if !is_placed(self.rt, draft) {
                self.fail();
                return Err(Failed);
            }
        }
        self.file = InHand::Nothing;
        Ok(())
    }
}
