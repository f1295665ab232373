ghost use Rattle.std.specs.Prelude.{◌≡◌, Ok};
ghost use Rattle.def_drafts.specs.Values.{IsGiven, coordinate_at, count_at, name_at, name_in, ordered, orientation_at, rect_in, step_at, text_at};

use def_forms::{Flaw, coordinate, count, orientation_of, track_step};
use ld_forms::Kept;
use ld_reader::Stop;
use odb_base::{Name, NameFault, Orient, Rect, Text};
use std::alloc::Global;

/// The name that the word at a place is, from 0.
#[tactic(auto, unfolding(crate::specs::Values::name_at))]
pub fn name_at(alloc: Global, words: &Kept, at: usize) -> Result<Name, Stop<Flaw>>
    ensures { IsGiven (name_at words.now at) result }
{
    match words.get(at) {
        Some(word) => name_of(alloc, word),
        None => Err(Stop::Fault(Flaw::BadName)),
    }
}

/// The name that a word is.
#[tactic(auto, unfolding(crate::specs::Values::name_in, ld_forms::specs::Names::is_name))]
pub fn name_of(alloc: Global, word: &[u8]) -> Result<Name, Stop<Flaw>>
    ensures { IsGiven (name_in word.now) result }
{
    match Name::new(alloc, word) {
        Ok(name) => Ok(name),
        Err(NameFault::Memory) => Err(Stop::Memory),
        Err(_) => Err(Stop::Fault(Flaw::BadName)),
    }
}

/// A copy of the word at a place, from 0; empty where there is none.
pub fn text_at(alloc: Global, words: &Kept, at: usize) -> Result<Text, Stop<Flaw>>
    ensures { IsGiven (Ok (text_at words.now at)) result }
{
    let text = match words.get(at) {
        Some(word) => Text::new(alloc, word)?,
        None => Text::from_vec(Vec::new(alloc)),
    };
    Ok(text)
}

/// The number at a place, from 0; 0 where there is none.
pub fn coordinate_at(words: &Kept, at: usize) -> i32
    ensures { result ≡ coordinate_at words.now at }
{
    match words.get(at) {
        Some(word) => coordinate(word).unwrap_or(0),
        None => 0,
    }
}

/// How often something is repeated by the word at a place, from 0; once where there is none.
pub fn count_at(words: &Kept, at: usize) -> u32
    ensures { result ≡ count_at words.now at }
{
    match words.get(at) {
        Some(word) => count(word).unwrap_or(1),
        None => 1,
    }
}

/// The distance of tracks by the word at a place, from 0; 1 where there is none.
pub fn step_at(words: &Kept, at: usize) -> i32
    ensures { result ≡ step_at words.now at }
{
    match words.get(at) {
        Some(word) => track_step(word).unwrap_or(1),
        None => 1,
    }
}

/// The orientation by the word at a place, from 0; as drawn where there is none.
pub fn orientation_at(words: &Kept, at: usize) -> Orient
    ensures { result ≡ orientation_at words.now at }
{
    match words.get(at) {
        Some(word) => orientation_of(word).unwrap_or(Orient::N),
        None => Orient::N,
    }
}

/// The rectangle between two opposite corners, which are the first four numbers.
pub fn rect(words: &Kept) -> Rect
    ensures { result ≡ rect_in words.now }
{
    let (xl, xh) = ordered(coordinate_at(words, 0), coordinate_at(words, 2));
    let (yl, yh) = ordered(coordinate_at(words, 1), coordinate_at(words, 3));
    Rect { xl, yl, xh, yh }
}

// The lesser number and the greater one.
fn ordered(a: i32, b: i32) -> (i32, i32)
    ensures { result ≡ ordered a b }
{
    if a <= b { (a, b) } else { (b, a) }
}
