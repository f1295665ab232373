ghost use Rattle.std.specs.Prelude.{◌≡◌, ◌++◌, ◌∷◌, [], IfOk, OnOk, length, slice_get};
ghost use Rattle.std.specs.Option.{option_map};
ghost use Rattle.ld_forms.specs.Kept.{has_word, joined};

use crate::short_text::ShortText;
use odb_base::Text;
use std::alloc::{AllocError, Global};
use std::marker::Model;

/// The words of a statement that are kept, in their order. Contracts see the list of their bytes.
#[derive(Drop)]
pub struct Kept {
    words: Vec<ShortText>,
}

impl Model for Kept {
    ghost use Rattle.std.specs.Prelude.{List, ℕ};

    ghost Value = { List (List ℕ) };

    ghost view = { λ k. k.words.items };
}

impl Kept {
    /// No words. It takes no memory.
    pub fn new(alloc: Global) -> Kept
        ensures { result ≡ [] }
    {
        Kept {
            words: Vec::new(alloc),
        }
    }

    /// Puts a copy of a word last.
    pub fn push(&mut self, alloc: Global, word: &[u8]) -> Result<(), AllocError>
        ensures { OnOk result (self.new ≡ self.old ++ word.now ∷ []) }
    {
        let text = ShortText::new(alloc, word)?;
        self.words.push(text)?;
        Ok(())
    }

    /// Lets all words go, and keeps the memory for others.
    pub fn clear(&mut self)
        ensures { self.new ≡ [] }
    {
        self.words.clear();
    }

    /// How many words there are.
    pub fn len(&self) -> usize
        ensures { result ≡ length self.now }
    {
        self.words.len()
    }

    /// The word at a place, from 0, if there is one.
    pub fn get(&self, at: usize) -> Option<&[u8]>
        ensures { option_map (λ w. w.now) result ≡ slice_get self.now at }
    {
        match self.words.get(at) {
            Some(word) => Some(word.bytes()),
            None => None,
        }
    }

    /// Whether a word is among them.
    pub fn has(&self, word: &[u8]) -> bool
        ensures { result ≡ has_word word.now self.now }
    {
        self.words.iter().any(|kept| kept.bytes() == word)
    }

    /// The words with one space between them.
    pub fn joined(&self, alloc: Global) -> Result<Text, AllocError>
        ensures { IfOk result (λ text. text ≡ joined self.now) }
    {
        let mut text = Vec::new(alloc);
        let [first, others @ ..] = self.words.as_slice() else {
            return Ok(Text::from_vec(text));
        };
        text.extend_from_slice(first.bytes())?;
        let mut rest = others;
        'words: while let [word, later @ ..] = rest {
            text.push(b' ')?;
            text.extend_from_slice(word.bytes())?;
            rest = later;
        }
        Ok(Text::from_vec(text))
    }
}
