ghost use Rattle.std.specs.Prelude.{◌≡◌, ◌<◌, ◌++◌, [], IfNone, IfSome, None, OnErr, OnOk, length, option_copied};
ghost use Rattle.odb_outside.specs.Files.{file_of, with_file, with_more};
ghost use Rattle.odb_outside.specs.Placing.{IsFound, IsPlace, bytes_at, place_in};

use std::alloc::{AllocError, Global};
use std::cmp::Ordering;
use std::marker::Model;

/// A file in memory.
#[derive(Debug, Drop)]
pub(crate) struct MemoryFile {
    name: Vec<u8>,
    bytes: Vec<u8>,
}

impl Model for MemoryFile {
    ghost use Rattle.odb_outside.specs.Files.{File};

    ghost Value = { File };

    ghost view = { λ f. record { name = f.name.items; bytes = f.bytes.items } };
}

/// Files in memory, in the order of their names. Contracts see the list of them.
#[derive(Debug, Drop)]
pub(crate) struct MemoryFiles {
    files: Vec<MemoryFile>,
}

impl Model for MemoryFiles {
    ghost use Rattle.std.specs.Prelude.{List};
    ghost use Rattle.odb_outside.specs.Files.{File};

    ghost Value = { List File };

    ghost view = { λ f. f.files.items };
}

impl MemoryFiles {
    /// No files. It takes no memory.
    pub fn new(alloc: Global) -> MemoryFiles
        ensures { result ≡ [] }
    {
        MemoryFiles {
            files: Vec::new(alloc),
        }
    }

    // The place of the file of a name, or else the one where it would stand.
    #[tactic(auto, using(crate::proofs::Placed::placed))]
    fn place(&self, name: &[u8]) -> Result<usize, usize>
        ensures { IsPlace name.now self.now result }
    {
        self.scan(name)
    }

    // The same, as a walk over the files.
    fn scan(&self, name: &[u8]) -> Result<usize, usize>
        ensures { result ≡ place_in name.now self.now 0 }
    {
        let mut at = 0;
        'files: while at < self.files.len() {
            match name.cmp(self.files[at].name.as_slice()) {
                Ordering::Less => return Err(at),
                Ordering::Equal => return Ok(at),
                Ordering::Greater => at += 1,
            }
        }
        Err(at)
    }

    /// The place of the file of a name, if there is one.
    pub fn find(&self, name: &[u8]) -> Option<usize>
        ensures some { IfSome result (λ at. IsFound name.now self.now at) }
        ensures none { IfNone result (file_of name.now self.now ≡ None) }
    {
        self.place(name).ok()
    }

    /// The bytes of the file at a place.
    pub fn bytes(&self, at: usize) -> &[u8]
        requires { at < length self.now }
        ensures { result.now ≡ bytes_at at self.now }
    {
        &self.files[at].bytes
    }

    /// The bytes of the file of a name, if there is one.
    pub fn get(&self, name: &[u8]) -> Option<&[u8]>
        ensures { option_copied result ≡ file_of name.now self.now }
    {
        match self.place(name) {
            Ok(at) => Some(self.files[at].bytes.as_slice()),
            Err(_) => None,
        }
    }

    /// Sets the bytes of a file. For want of memory the files are as they were.
    pub fn set(&mut self, name: &[u8], bytes: Vec<u8>) -> Result<(), AllocError>
        ensures ok { OnOk result (self.new ≡ with_file name.now bytes.items self.old) }
        ensures err { OnErr result (self.new ≡ self.old) }
    {
        match self.place(name) {
            Ok(at) => self.files[at].bytes = bytes,
            Err(at) => {
                let name = name.to_vec(*self.files.allocator())?;
                self.files.insert(at, MemoryFile { name, bytes })?;
            }
        }
        Ok(())
    }

    /// Appends to a file. For want of memory the files are as they were.
    pub fn append(&mut self, name: &[u8], piece: &[u8]) -> Result<(), AllocError>
        ensures ok { OnOk result (self.new ≡ with_more name.now piece.now self.old) }
        ensures err { OnErr result (self.new ≡ self.old) }
    {
        match self.place(name) {
            Ok(at) => self.files[at].bytes.extend_from_slice(piece),
            Err(_) => {
                let bytes = piece.to_vec(*self.files.allocator())?;
                self.set(name, bytes)
            }
        }
    }
}
