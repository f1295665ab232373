ghost use Rattle.std.specs.Prelude.{◌≡◌, ◌≤◌, IfOk, slice_get};
ghost use Rattle.lef_drafts.specs.Values.{corners_at, last_of_two, name_in, name_of, one_of, rect_of, second_of, symmetries_of, symmetry_bit};

use ld_forms::{Kept, ShortText};
use lef_forms::Symmetry;
use lef_tree::LefRect;
use odb_base::{Coded, Name, NameFault, Worded};
use std::alloc::{AllocError, Global};

/// A copy of the word at a place, from 0.
pub fn word(alloc: Global, words: &Kept, at: usize) -> Result<Option<ShortText>, AllocError>
    ensures { IfOk result (λ word. word ≡ slice_get words.now at) }
{
    match words.get(at) {
        Some(word) => Ok(Some(ShortText::new(alloc, word)?)),
        None => Ok(None),
    }
}

/// The first two words.
pub fn two(
    alloc: Global,
    words: &Kept,
) -> Result<(Option<ShortText>, Option<ShortText>), AllocError>
    ensures first { IfOk result (λ pair. pair.0 ≡ one_of words.now) }
    ensures second { IfOk result (λ pair. pair.1 ≡ second_of words.now) }
{
    let first = word(alloc, words, 0)?;
    let second = word(alloc, words, 1)?;
    Ok((first, second))
}

/// The first two words. Where there is one, it is both.
pub fn one_or_two(
    alloc: Global,
    words: &Kept,
) -> Result<(Option<ShortText>, Option<ShortText>), AllocError>
    ensures first { IfOk result (λ pair. pair.0 ≡ one_of words.now) }
    ensures second { IfOk result (λ pair. pair.1 ≡ last_of_two words.now) }
{
    let first = word(alloc, words, 0)?;
    let second = last_of_two(alloc, words)?;
    Ok((first, second))
}

fn last_of_two(alloc: Global, words: &Kept) -> Result<Option<ShortText>, AllocError>
    ensures { IfOk result (λ word. word ≡ last_of_two words.now) }
{
    match word(alloc, words, 1)? {
        Some(second) => Ok(Some(second)),
        None => word(alloc, words, 0),
    }
}

/// The name that the first word is.
pub fn name(alloc: Global, words: &Kept) -> Result<Option<Name>, AllocError>
    ensures { IfOk result (λ name. name ≡ name_of words.now) }
{
    match words.get(0) {
        Some(word) => name_of_word(alloc, word),
        None => Ok(None),
    }
}

/// Two corners, on whatever mask.
pub fn rect(alloc: Global, words: &Kept) -> Result<Option<LefRect>, AllocError>
    ensures { IfOk result (λ rect. rect ≡ rect_of words.now) }
{
    if words.len() > 4 {
        corners_at(alloc, words, 2)
    } else {
        corners_at(alloc, words, 0)
    }
}

fn corners_at(alloc: Global, words: &Kept, at: usize) -> Result<Option<LefRect>, AllocError>
    requires { at ≤ 2 }
    ensures { IfOk result (λ rect. rect ≡ corners_at words.now at) }
{
    match (
        words.get(at),
        words.get(at + 1),
        words.get(at + 2),
        words.get(at + 3),
    ) {
        (Some(x1), Some(y1), Some(x2), Some(y2)) => Ok(Some(corners(alloc, x1, y1, x2, y2)?)),
        _ => Ok(None),
    }
}

fn corners(alloc: Global, x1: &[u8], y1: &[u8], x2: &[u8], y2: &[u8]) -> Result<LefRect, AllocError>
    ensures { IfOk result (λ rect. rect ≡ record { x1 = x1.now; y1 = y1.now; x2 = x2.now; y2 = y2.now }) }
{
    Ok(LefRect {
        x1: ShortText::new(alloc, x1)?,
        y1: ShortText::new(alloc, y1)?,
        x2: ShortText::new(alloc, x2)?,
        y2: ShortText::new(alloc, y2)?,
    })
}

/// The sum of the bits of the symmetries that are among the words.
pub fn symmetries(words: &Kept) -> u8
    ensures { result ≡ symmetries_of words.now }
{
    bit(words, Symmetry::X) + bit(words, Symmetry::Y) + bit(words, Symmetry::R90)
}

fn bit(words: &Kept, symmetry: Symmetry) -> u8
    ensures bit { result ≡ symmetry_bit words.now symmetry }
    ensures few { result ≤ 4 }
{
    if words.has(symmetry.word()) {
        symmetry.code()
    } else {
        0
    }
}

/// The name that a word is.
#[tactic(auto, unfolding(ld_forms::specs::Names::is_name))]
pub fn name_of_word(alloc: Global, word: &[u8]) -> Result<Option<Name>, AllocError>
    ensures { IfOk result (λ name. name ≡ name_in word.now) }
{
    match Name::new(alloc, word) {
        Ok(name) => Ok(Some(name)),
        Err(NameFault::Memory) => Err(AllocError),
        Err(_) => Ok(None),
    }
}
