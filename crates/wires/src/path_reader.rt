ghost use Rattle.std.specs.Prelude.{◌≡◌, All, IfOk, OnOk};
ghost use Rattle.wires.specs.Paths.{IsShort};
ghost use Rattle.wires.specs.PathPlaces.{name_in};
ghost use Rattle.wires.specs.PathReading.{AreShort, Gives, IsGiven, Takes, finished, flaw_at, in_last, may_end, number_due, start, step_of, taken, with_begun, with_ended};

use crate::fault::{PathFlaw, PathStop};
use crate::open_path::OpenPath;
use crate::path::NamedPaths;
use crate::path_word::{PathWord, is_unsupported_word};
use crate::place_words::{length_whole, name_of};
use odb_base::List;
use std::alloc::{AllocError, Global};
use std::mem;

/// The room for the words of one wire, each point written whole and with a space behind each word. The last space
/// isn't among the 1,000,000 bytes.
const ROOM: usize = 1_000_000 + 1;

/// Reads paths word by word. Each word is taken by what is due, with no view of later ones. The words of one wire,
/// each point written whole and with one space between them, are at most 1,000,000 bytes.
#[derive(Debug, Drop)]
pub struct PathReader {
    special: bool,
    room: usize,
    done: NamedPaths,
    last: Option<OpenPath>,
}

impl PathReader {
    /// Before the first word of the paths of a special wire, or of a plain one.
    pub fn new(alloc: Global, special: bool) -> PathReader
        ensures value { result ≡ start special }
        ensures short { AreShort result }
    {
        PathReader {
            special,
            room: ROOM,
            done: List::new(alloc),
            last: None,
        }
    }

    /// Takes one more word. Once a word isn't taken, the reader says nothing of the paths any more.
    #[tactic(auto, unfolding(crate::specs::PathReading::step_of))]
    pub fn step(&mut self, alloc: Global, word: &[u8]) -> Result<(), PathStop>
        ensures value { Gives (step_of self.old word.now) self.new result }
        ensures short { AreShort self.old → AreShort self.new }
    {
        if is_unsupported_word(word) {
            return Err(PathStop::Flaw(PathFlaw::Unsupported));
        }
        let flaw = self.flaw();
        if self.take(alloc, word)? {
            Ok(())
        } else {
            Err(PathStop::Flaw(flaw))
        }
    }

    /// Whether the words may end here: the last path has its first point, and they
    /// aren't inside a point or a rectangle.
    pub fn may_end(&self) -> bool
        ensures { result ≡ may_end self.now }
    {
        match &self.last {
            None => false,
            Some(path) => path.spot.ends(),
        }
    }

    /// The paths, where the words end. Where they may not, the fault is that of a word that can't stand there.
    pub fn finish(mut self) -> Result<NamedPaths, PathStop>
        ensures value { IsGiven (finished self) result }
        ensures short { AreShort self → IfOk result (All IsShort) }
    {
        if !self.may_end() {
            let flaw = self.flaw();
            drop(self);
            return Err(PathStop::Flaw(flaw));
        }
        match self.end_path() {
            Ok(()) => Ok(self.into_done()),
            Err(AllocError) => {
                drop(self);
                Err(PathStop::Memory)
            }
        }
    }

    // The paths that have ended.
    fn into_done(self) -> NamedPaths
        ensures { result ≡ self.done }
    {
        let PathReader {
            special: _,
            room: _,
            mut done,
            last,
        } = self;
        drop(last);
        done.shrink();
        done
    }

    // What is wrong with a word that isn't taken here.
    fn flaw(&self) -> PathFlaw
        ensures { result ≡ flaw_at self.now.last }
    {
        match &self.last {
            None => PathFlaw::BadName,
            Some(path) => path.spot.flaw(),
        }
    }

    // The number for which a word stands, where a number can stand.
    fn number(&self, word: &[u8]) -> Option<i32>
        ensures { result ≡ number_due self.now.last word.now }
    {
        match &self.last {
            None => None,
            Some(path) => path.spot.number(path.former, word),
        }
    }

    // Takes a word that may stand here, if there is room for it.
    fn take(&mut self, alloc: Global, word: &[u8]) -> Result<bool, AllocError>
        ensures value { IfOk result (Takes (taken (number_due self.old.last word.now) word.now self.old) self.new) }
        ensures short { AreShort self.old → AreShort self.new }
    {
        let number = self.number(word);
        let length = length_whole(number, word);
        if length < self.room {
            self.room -= length + 1;
            self.take_in_last(alloc, number, word)
        } else {
            Ok(false)
        }
    }

    // Takes the layer of a path, `NEW` where the last path may end, or one more word of the last path.
    fn take_in_last(
        &mut self,
        alloc: Global,
        number: Option<i32>,
        word: &[u8],
    ) -> Result<bool, AllocError>
        ensures value { IfOk result (Takes (in_last number word.now self.old.last self.old) self.new) }
        ensures short { AreShort self.old → AreShort self.new }
    {
        match &mut self.last {
            None => self.begin_path(alloc, word),
            Some(path) if PathWord::New.is(word) && path.spot.ends() => {
                self.end_path()?;
                Ok(true)
            }
            Some(path) => path.step(alloc, number, word),
        }
    }

    fn begin_path(&mut self, alloc: Global, word: &[u8]) -> Result<bool, AllocError>
        ensures value { IfOk result (Takes (with_begun (name_in word.now) self.old) self.new) }
        ensures short { AreShort self.old → AreShort self.new }
    {
        match name_of(alloc, word)? {
            Some(layer) => {
                let path = OpenPath::begun(alloc, self.special, layer);
                drop(mem::replace(&mut self.last, Some(path)));
                Ok(true)
            }
            None => Ok(false),
        }
    }

    // Puts the last path to those that have ended.
    fn end_path(&mut self) -> Result<(), AllocError>
        ensures value { OnOk result (self.new ≡ with_ended self.old.last self.old) }
        ensures short { AreShort self.old → AreShort self.new }
    {
        match self.last.take() {
            Some(path) => {
                self.done.push(path.ended()?)?;
                Ok(())
            }
            None => Ok(()),
        }
    }
}
