ghost use Rattle.std.specs.Prelude.{◌≡◌};
ghost use Rattle.script_words.specs.Answers.{IsCopied, IsTaken, IsWordTaken};
ghost use Rattle.script_words.specs.Forms.{end_at, file_at, fitting, id_at, identifier, name_at, named_kind_at, number_at, object_at, size_at, value_at, word_at};
ghost use Rattle.script_words.specs.Words.{words_of};

use crate::fault::LineFault;
use crate::file_name::FileName;
use crate::number::number_named;
use crate::words::next_word;
use odb_base::{Coded, Kind, Name, NameFault, Text, Worded};
use std::alloc::Global;

/// The next word, and what stands behind it.
#[tactic(auto, unfolding(crate::specs::Forms::word_at))]
pub fn word(line: &[u8]) -> Result<(&[u8], &[u8]), LineFault>
    ensures { IsWordTaken (word_at (words_of line.now)) result }
{
    next_word(line).ok_or(LineFault::BadWords)
}

/// The line has no more words.
#[tactic(auto, unfolding(crate::specs::Forms::end_at))]
pub fn end(line: &[u8]) -> Result<(), LineFault>
    ensures { result ≡ end_at (words_of line.now) }
{
    match next_word(line) {
        Some(_) => Err(LineFault::BadWords),
        None => Ok(()),
    }
}

/// A copy of the next word, and what stands behind it.
pub fn text(alloc: Global, line: &[u8]) -> Result<(Text, &[u8]), LineFault>
    ensures { IsCopied (word_at (words_of line.now)) result }
{
    let (word, rest) = word(line)?;
    Ok((Text::new(alloc, word)?, rest))
}

/// The lawful name that the next word is, and what stands behind it.
#[tactic(auto, unfolding(crate::specs::Forms::form_at, crate::specs::Forms::name_named))]
pub fn name(alloc: Global, line: &[u8]) -> Result<(Name, &[u8]), LineFault>
    ensures { IsCopied (name_at (words_of line.now)) result }
{
    let (word, rest) = word(line)?;
    match Name::new(alloc, word) {
        Ok(name) => Ok((name, rest)),
        Err(NameFault::Memory) => Err(LineFault::Memory),
        Err(_) => Err(LineFault::BadWords),
    }
}

/// The value of a set that the next word names, and what stands behind it.
#[tactic(auto, unfolding(crate::specs::Forms::form_at, crate::specs::Forms::value_named))]
pub fn worded<T: Coded + Worded>(line: &[u8]) -> Result<(T, &[u8]), LineFault>
    ensures { IsTaken (value_at T.every T.word_of (words_of line.now)) result }
{
    let (word, rest) = word(line)?;
    let value = T::from_word(word).ok_or(LineFault::BadWords)?;
    Ok((value, rest))
}

/// The kind that the next word names, where its objects have names, and what stands behind it.
#[tactic(auto, unfolding(crate::specs::Forms::form_at, crate::specs::Forms::named_kind))]
pub fn named_kind(line: &[u8]) -> Result<(Kind, &[u8]), LineFault>
    ensures { IsTaken (named_kind_at (words_of line.now)) result }
{
    let (kind, rest) = worded::<Kind>(line)?;
    if kind.has_names() {
        Ok((kind, rest))
    } else {
        Err(LineFault::BadWords)
    }
}

/// The number that the next word is, and what stands behind it.
#[tactic(auto, unfolding(crate::specs::Forms::form_at))]
pub fn number(line: &[u8]) -> Result<(i64, &[u8]), LineFault>
    ensures { IsTaken (number_at (words_of line.now)) result }
{
    let (word, rest) = word(line)?;
    let number = number_named(word).ok_or(LineFault::BadWords)?;
    Ok((number, rest))
}

/// The identifier that the next word is, a number from 0 to 4,294,967,295, and what stands behind it.
#[tactic(auto, unfolding(crate::specs::Forms::form_at, crate::specs::Forms::id_named))]
pub fn id(line: &[u8]) -> Result<(u32, &[u8]), LineFault>
    ensures { IsTaken (id_at (words_of line.now)) result }
{
    let (number, rest) = number(line)?;
    let id = identifier(number).ok_or(LineFault::BadWords)?;
    Ok((id, rest))
}

fn identifier(number: i64) -> Option<u32>
    ensures { result ≡ identifier number }
{
    if number >= 0 && number <= u32::MAX as i64 {
        Some(number as u32)
    } else {
        None
    }
}

/// The object that the next two words name, a kind and an identifier, and what stands behind them.
#[tactic(auto, unfolding(crate::specs::Forms::object_at))]
pub fn object(line: &[u8]) -> Result<((Kind, u32), &[u8]), LineFault>
    ensures { IsTaken (object_at (words_of line.now)) result }
{
    let (kind, rest) = worded(line)?;
    let (id, rest) = id(rest)?;
    Ok(((kind, id), rest))
}

/// The number of 32 bits with its sign that the next word is, and what stands behind it.
#[tactic(auto, unfolding(crate::specs::Forms::form_at, crate::specs::Forms::size_named))]
pub fn size(line: &[u8]) -> Result<(i32, &[u8]), LineFault>
    ensures { IsTaken (size_at (words_of line.now)) result }
{
    let (number, rest) = number(line)?;
    let size = fitting(number).ok_or(LineFault::BadWords)?;
    Ok((size, rest))
}

fn fitting(number: i64) -> Option<i32>
    ensures { result ≡ fitting number }
{
    if number >= i32::MIN as i64 && number <= i32::MAX as i64 {
        Some(number as i32)
    } else {
        None
    }
}

/// The name of a file that the next word is, and what stands behind it.
#[tactic(auto, unfolding(crate::specs::Forms::form_at))]
pub fn file(alloc: Global, line: &[u8]) -> Result<(FileName, &[u8]), LineFault>
    ensures { IsCopied (file_at (words_of line.now)) result }
{
    let (word, rest) = word(line)?;
    let file = FileName::new(alloc, word)?;
    Ok((file, rest))
}
