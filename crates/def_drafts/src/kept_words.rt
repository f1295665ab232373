ghost use Rattle.std.specs.Prelude.{◌≡◌, [], OnOk};
ghost use Rattle.ld_reader.specs.Rules.{Gives};
ghost use Rattle.def_drafts.specs.KeptWords.{kept_option, kept_with, with_word};

use def_forms::Flaw;
use ld_reader::Stop;
use odb_base::Text;
use std::alloc::{AllocError, Global};
use std::marker::Model;

/// The greatest number of bytes of the words that one object keeps.
pub const KEPT_LIMIT: usize = 1_000_000;

/// Words that are kept as they are, with one space between them. Contracts see the list of their bytes.
#[derive(Drop)]
pub struct KeptWords {
    bytes: Vec<u8>,
}

impl Model for KeptWords {
    ghost use Rattle.std.specs.Prelude.{List, ℕ};

    ghost Value = { List ℕ };

    ghost view = { λ k. k.bytes.items };
}

impl KeptWords {
    /// No words. It takes no memory.
    pub fn new(alloc: Global) -> KeptWords
        ensures { result ≡ [] }
    {
        KeptWords {
            bytes: Vec::new(alloc),
        }
    }

    /// Puts a word last, which is unexpected where the words would pass their limit.
    #[tactic(auto, unfolding(crate::specs::KeptWords::kept_with))]
    pub fn push(&mut self, word: &[u8]) -> Result<(), Stop<Flaw>>
        ensures { Gives (kept_with self.old word.now) self.new result }
    {
        self.append(word)?;
        if self.bytes.len() > KEPT_LIMIT {
            return Err(Stop::Fault(Flaw::Unexpected));
        }
        Ok(())
    }

    fn append(&mut self, word: &[u8]) -> Result<(), AllocError>
        ensures { OnOk result (self.new ≡ with_word self.old word.now) }
    {
        if !self.bytes.is_empty() {
            self.bytes.push(b' ')?;
        }
        self.bytes.extend_from_slice(word)?;
        Ok(())
    }

    /// Puts the words of an option last: `+` and its own.
    pub fn push_option(&mut self, word: &[u8]) -> Result<(), Stop<Flaw>>
        ensures { Gives (kept_option self.old word.now) self.new result }
    {
        self.push(b"+")?;
        self.push(word)
    }

    /// The text of the words. It takes no memory.
    pub fn into_text(self) -> Text
        ensures { result ≡ self }
    {
        let KeptWords { bytes } = self;
        Text::from_vec(bytes)
    }
}
