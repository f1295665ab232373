ghost use Rattle.std.specs.Prelude.{◌≡◌};
ghost use Rattle.ld_reader.specs.Rules.{Gives};
ghost use Rattle.def_drafts.specs.Regions.{new_region, region_begun, region_of, region_option, region_set, type_at, with_rect};

use crate::options::{DefBegun, Options};
use crate::values::rect;
use def_forms::{Flaw, Keyword, Statement, region_type_of};
use def_tree::DefRegion;
use ld_forms::Kept;
use ld_reader::{Begun, Stop};
use odb_base::{List, Name, Rect, RegionType};
use std::alloc::Global;

/// The greatest number of rectangles, boxes or layers in one list.
pub const LIST_LIMIT: usize = 1_000_000;

/// A region that is being read.
#[derive(Drop)]
pub struct RegionDraft {
    pub name: Name,
    pub rects: List<Rect>,
    /// Whether a further rectangle may stand here.
    pub listing: bool,
    pub sort: RegionType,
    pub options: Options,
}

impl RegionDraft {
    /// Behind its name. It takes no memory.
    pub fn new(alloc: Global, name: Name) -> RegionDraft
        ensures { result ≡ new_region name }
    {
        RegionDraft {
            name,
            rects: List::new(alloc),
            listing: true,
            sort: RegionType::None,
            options: Options::new(alloc),
        }
    }

    /// What a word begins.
    pub fn begun(&self, word: &[u8]) -> DefBegun
        ensures { result ≡ region_begun self.now word.now }
    {
        if self.rects.items().is_empty() || self.listing && Keyword::Open.is(word) {
            Begun::Within(Statement::Rect)
        } else {
            self.options.begun(word, option(word))
        }
    }

    /// Sets what a statement sets.
    #[tactic(auto, unfolding(crate::specs::Regions::region_set))]
    pub fn set(
        &mut self,
        alloc: Global,
        statement: Statement,
        words: &Kept,
    ) -> Result<(), Stop<Flaw>>
        ensures { Gives (region_set self.old statement words.now) self.new result }
    {
        match statement {
            Statement::Rect => push_rect(&mut self.rects, rect(words))?,
            Statement::RegionType => {
                self.sort = type_at(words);
                self.options.end_own();
            }
            _ => {
                self.listing = false;
                self.options.set(alloc, statement, words)?;
            }
        }
        Ok(())
    }

    /// Its name and what it is.
    pub fn finish(self) -> (Name, DefRegion)
        ensures { result ≡ region_of self }
    {
        let RegionDraft {
            name,
            rects,
            listing: _,
            sort,
            options,
        } = self;
        let Options { kept, props, spot } = options;
        drop(spot);
        let region = DefRegion {
            sort,
            rects,
            kept: kept.into_text(),
            props,
        };
        (name, region)
    }
}

/// Puts a rectangle last, which is unexpected where the list is full.
pub fn push_rect(rects: &mut List<Rect>, rect: Rect) -> Result<(), Stop<Flaw>>
    ensures { Gives (with_rect rects.old rect) rects.new result }
{
    if rects.items().len() >= LIST_LIMIT {
        return Err(Stop::Fault(Flaw::Unexpected));
    }
    rects.push(rect)?;
    Ok(())
}

// The type of the region that the first word names.
fn type_at(words: &Kept) -> RegionType
    ensures { result ≡ type_at words.now }
{
    match words.get(0) {
        Some(word) => region_type_of(word).unwrap_or(RegionType::None),
        None => RegionType::None,
    }
}

// What a word begins as that of an option.
#[tactic(auto, unfolding(crate::specs::Regions::region_option))]
fn option(word: &[u8]) -> DefBegun
    ensures { result ≡ region_option word.now }
{
    if Keyword::Type.is(word) {
        Begun::Taken(Statement::RegionType)
    } else if Keyword::Property.is(word) {
        Begun::Taken(Statement::Property)
    } else {
        Begun::Within(Statement::KeptWord)
    }
}
