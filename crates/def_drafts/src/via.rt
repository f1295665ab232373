ghost use Rattle.std.specs.Prelude.{◌≡◌};
ghost use Rattle.ld_reader.specs.Rules.{Gives};
ghost use Rattle.def_drafts.specs.Vias.{new_via, via_begun, via_of, via_set};

use crate::options::{DefBegun, Options};
use def_forms::{Flaw, Statement};
use ld_forms::Kept;
use ld_reader::{Begun, Stop};
use odb_base::{Name, Text};
use std::alloc::Global;

/// A via that is being read. All its options are kept.
#[derive(Drop)]
pub struct ViaDraft {
    pub name: Name,
    pub options: Options,
}

impl ViaDraft {
    /// Behind its name. It takes no memory.
    pub fn new(alloc: Global, name: Name) -> ViaDraft
        ensures { result ≡ new_via name }
    {
        ViaDraft {
            name,
            options: Options::new(alloc),
        }
    }

    /// What a word begins.
    pub fn begun(&self, word: &[u8]) -> DefBegun
        ensures { result ≡ via_begun self.now word.now }
    {
        self.options.begun(word, Begun::Within(Statement::KeptWord))
    }

    /// Sets what a statement sets.
    pub fn set(
        &mut self,
        alloc: Global,
        statement: Statement,
        words: &Kept,
    ) -> Result<(), Stop<Flaw>>
        ensures { Gives (via_set self.old statement words.now) self.new result }
    {
        self.options.set(alloc, statement, words)
    }

    /// Its name and its options.
    pub fn finish(self) -> (Name, Text)
        ensures { result ≡ via_of self }
    {
        let ViaDraft { name, options } = self;
        let Options { kept, props, spot } = options;
        drop(props);
        drop(spot);
        (name, kept.into_text())
    }
}
