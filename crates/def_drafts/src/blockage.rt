ghost use Rattle.std.specs.Prelude.{◌≡◌};
ghost use Rattle.ld_reader.specs.Rules.{Gives};
ghost use Rattle.def_drafts.specs.Blockages.{blockage_begun, blockage_of, blockage_set, first_begun, kept_by, new_blockage, option_begun, or_end, or_rect};

use crate::kept_words::KeptWords;
use crate::options::DefBegun;
use crate::region::push_rect;
use crate::values::{name_at, rect};
use def_forms::{Flaw, Keyword, Statement};
use def_tree::DefBlockage;
use ld_forms::{Kept, is_semicolon};
use ld_reader::{Begun, Stop};
use odb_base::{List, Name, Rect};
use std::alloc::Global;

/// Where the reading of a blockage stands.
#[derive(Clone, Copy, Debug, PartialEq, Eq)]
pub enum BlockageSpot {
    /// `LAYER` or `PLACEMENT` is due.
    First,
    /// An option or `RECT` is due.
    Between,
    /// The word behind `+` is due.
    Word,
    /// Further words of an option may stand here.
    Kept,
    /// A rectangle is due, or the end behind one.
    Rects,
}

/// A blockage that is being read. All its options are kept.
#[derive(Drop)]
pub struct BlockageDraft {
    /// The layer that is blocked; none where placement is, or before it is said.
    pub layer: Option<Name>,
    pub rects: List<Rect>,
    pub kept: KeptWords,
    pub spot: BlockageSpot,
}

impl BlockageDraft {
    /// Behind `-`. It takes no memory.
    pub fn new(alloc: Global) -> BlockageDraft
        ensures { result ≡ new_blockage }
    {
        BlockageDraft {
            layer: None,
            rects: List::new(alloc),
            kept: KeptWords::new(alloc),
            spot: BlockageSpot::First,
        }
    }

    /// What a word begins.
    #[tactic(auto, unfolding(crate::specs::Blockages::blockage_begun))]
    pub fn begun(&self, word: &[u8]) -> DefBegun
        ensures { result ≡ blockage_begun self.now word.now }
    {
        if Keyword::Polygon.is(word) {
            return Begun::Bad(Flaw::Unsupported);
        }
        match self.spot {
            BlockageSpot::First => first_begun(word),
            BlockageSpot::Between => or_rect(word, Statement::EndElement),
            BlockageSpot::Word => option_begun(word),
            BlockageSpot::Kept => or_rect(word, Statement::KeptWord),
            BlockageSpot::Rects => or_end(word),
        }
    }

    /// Sets what a statement sets.
    #[tactic(auto, unfolding(crate::specs::Blockages::blockage_set))]
    pub fn set(
        &mut self,
        alloc: Global,
        statement: Statement,
        words: &Kept,
    ) -> Result<(), Stop<Flaw>>
        ensures { Gives (blockage_set self.old statement words.now) self.new result }
    {
        self.spot = match statement {
            Statement::BlockedLayer => {
                self.layer = Some(name_at(alloc, words, 0)?);
                BlockageSpot::Between
            }
            Statement::BlockedPlacement => BlockageSpot::Between,
            Statement::Plus => BlockageSpot::Word,
            Statement::KeptWord => {
                self.keep(words.get(0).unwrap_or(b""))?;
                BlockageSpot::Kept
            }
            Statement::BlockedRect => {
                push_rect(&mut self.rects, rect(words))?;
                BlockageSpot::Rects
            }
            _ => self.spot,
        };
        Ok(())
    }

    // A word of an option: the first one stands behind `+`.
    fn keep(&mut self, word: &[u8]) -> Result<(), Stop<Flaw>>
        ensures { Gives (kept_by self.old word.now) self.new result }
    {
        match self.spot {
            BlockageSpot::Word => self.kept.push_option(word),
            BlockageSpot::First
            | BlockageSpot::Between
            | BlockageSpot::Kept
            | BlockageSpot::Rects => self.kept.push(word),
        }
    }

    /// What it is.
    pub fn finish(self) -> DefBlockage
        ensures { result ≡ blockage_of self }
    {
        let BlockageDraft {
            layer,
            rects,
            kept,
            spot: _,
        } = self;
        DefBlockage {
            layer,
            rects,
            kept: kept.into_text(),
        }
    }
}

// The first word of a blockage.
fn first_begun(word: &[u8]) -> DefBegun
    ensures { result ≡ first_begun word.now }
{
    if Keyword::Layer.is(word) {
        Begun::Taken(Statement::BlockedLayer)
    } else if Keyword::Placement.is(word) {
        Begun::Taken(Statement::BlockedPlacement)
    } else {
        Begun::Bad(Flaw::Unexpected)
    }
}

// The word behind `+`.
fn option_begun(word: &[u8]) -> DefBegun
    ensures { result ≡ option_begun word.now }
{
    if Keyword::Rect.is(word) {
        Begun::Bad(Flaw::Unexpected)
    } else {
        Begun::Within(Statement::KeptWord)
    }
}

// `+`, `RECT`, or a word of another statement.
fn or_rect(word: &[u8], other: Statement) -> DefBegun
    ensures { result ≡ or_rect word.now other }
{
    if Keyword::Plus.is(word) {
        Begun::Taken(Statement::Plus)
    } else if Keyword::Rect.is(word) {
        Begun::Taken(Statement::BlockedRect)
    } else if is_semicolon(word) {
        Begun::Bad(Flaw::Unexpected)
    } else {
        Begun::Within(other)
    }
}

// `RECT` or the end.
fn or_end(word: &[u8]) -> DefBegun
    ensures { result ≡ or_end word.now }
{
    if Keyword::Rect.is(word) {
        Begun::Taken(Statement::BlockedRect)
    } else {
        Begun::Within(Statement::EndElement)
    }
}
