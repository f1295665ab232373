ghost use Rattle.std.specs.Prelude.{◌≡◌};
ghost use Rattle.ld_reader.specs.Rules.{Gives};
ghost use Rattle.def_drafts.specs.Tracks.{axis_at, track_begun, track_in, track_set, with_layer};

use crate::options::DefBegun;
use crate::region::LIST_LIMIT;
use crate::values::{coordinate_at, count_at, name_at, step_at};
use def_forms::{Flaw, Keyword, Statement, axis_of};
use def_tree::DefTrack;
use ld_forms::{Kept, is_semicolon};
use ld_reader::{Begun, Stop};
use odb_base::{List, TrackAxis};
use std::alloc::Global;

/// Tracks that are being read. Words that can't stand in them have them passed over.
#[derive(Drop)]
pub struct TrackDraft {
    pub track: DefTrack,
}

impl TrackDraft {
    /// Behind the words that say where the tracks are. It takes no memory.
    pub fn new(alloc: Global, words: &Kept) -> TrackDraft
        ensures { result ≡ track_in words.now }
    {
        TrackDraft {
            track: DefTrack {
                axis: axis_at(words),
                start: coordinate_at(words, 1),
                count: count_at(words, 2),
                step: step_at(words, 3),
                layers: List::new(alloc),
            },
        }
    }

    /// What a word begins.
    pub fn begun(&self, word: &[u8]) -> DefBegun
        ensures { result ≡ track_begun self.now word.now }
    {
        if is_semicolon(word) {
            Begun::Within(Statement::EndElement)
        } else if !self.track.layers.items().is_empty() {
            Begun::Within(Statement::TrackLayer)
        } else if Keyword::Layer.is(word) {
            Begun::Taken(Statement::TrackLayer)
        } else {
            Begun::Within(Statement::EndElement)
        }
    }

    /// Sets what a statement sets.
    pub fn set(
        &mut self,
        alloc: Global,
        statement: Statement,
        words: &Kept,
    ) -> Result<(), Stop<Flaw>>
        ensures { Gives (track_set self.old statement words.now) self.new result }
    {
        match statement {
            Statement::TrackLayer => self.enter(alloc, words),
            _ => Ok(()),
        }
    }

    // A further layer, which is unexpected where the list is full.
    fn enter(&mut self, alloc: Global, words: &Kept) -> Result<(), Stop<Flaw>>
        ensures { Gives (with_layer self.old words.now) self.new result }
    {
        let layer = name_at(alloc, words, 0)?;
        if self.track.layers.items().len() >= LIST_LIMIT {
            drop(layer);
            return Err(Stop::Fault(Flaw::Unexpected));
        }
        self.track.layers.push(layer)?;
        Ok(())
    }
}

// The axis that the first word names.
fn axis_at(words: &Kept) -> TrackAxis
    ensures { result ≡ axis_at words.now }
{
    match words.get(0) {
        Some(word) => axis_of(word).unwrap_or(TrackAxis::X),
        None => TrackAxis::X,
    }
}
