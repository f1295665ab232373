ghost use Rattle.std.specs.Prelude.{◌≡◌, ◌<◌, ◌^◌, IfOk, IfSome, length};
ghost use Rattle.std.specs.Fmt.{signed_decimal};
ghost use Rattle.wires.specs.PathPlaces.{coordinate_in, name_in, size_in, via_in, whole};

use crate::number::signed_number;
use crate::path_word::{PathWord, orient_of_word};
use itoa::Buffer;
use odb_base::{Name, NameFault, Text, name_fault};
use std::alloc::{AllocError, Global};

/// The name that a word is.
#[tactic(auto, unfolding(crate::specs::PathPlaces::name_in))]
pub fn name_of(alloc: Global, word: &[u8]) -> Result<Option<Name>, AllocError>
    ensures { IfOk result (λ name. name ≡ name_in word.now) }
{
    match Name::new(alloc, word) {
        Ok(name) => Ok(Some(name)),
        Err(NameFault::Memory) => Err(AllocError),
        Err(_) => Ok(None),
    }
}

/// The bytes of a word that is a name.
#[tactic(auto, unfolding(crate::specs::PathPlaces::name_in), using(crate::proofs::Ranges::name_short))]
pub fn text_of_name(alloc: Global, word: &[u8]) -> Result<Option<Text>, AllocError>
    ensures value { IfOk result (λ text. text ≡ name_in word.now) }
    ensures short { IfOk result (λ text. IfSome text (λ t. length t < 2 ^ 32)) }
{
    if name_fault(word).is_none() {
        Ok(Some(Text::new(alloc, word)?))
    } else {
        Ok(None)
    }
}

/// The name of a via that a word is, which is no orientation.
#[tactic(auto, unfolding(crate::specs::PathPlaces::via_in))]
pub fn via_of(alloc: Global, word: &[u8]) -> Result<Option<Name>, AllocError>
    ensures { IfOk result (λ name. name ≡ via_in word.now) }
{
    if orient_of_word(word).is_none() {
        name_of(alloc, word)
    } else {
        Ok(None)
    }
}

/// The number that a word is, which is not below 0.
#[tactic(auto, unfolding(crate::specs::PathPlaces::size_in))]
pub fn size_of_word(word: &[u8]) -> Option<i32>
    ensures { result ≡ size_in word.now }
{
    match signed_number(word) {
        Some(size) if 0 <= size => Some(size),
        Some(_) | None => None,
    }
}

/// The coordinate that a word is: a number, or a star for the one before.
#[tactic(auto, unfolding(crate::specs::PathPlaces::coordinate_in))]
pub fn coordinate_of_word(former: Option<i32>, word: &[u8]) -> Option<i32>
    ensures { result ≡ coordinate_in former word.now }
{
    if PathWord::Star.is(word) {
        former
    } else {
        signed_number(word)
    }
}

/// How long a word is as written whole, where it stands for this number or for itself.
pub fn length_whole(number: Option<i32>, word: &[u8]) -> usize
    ensures { result ≡ length (whole number word.now) }
{
    match number {
        Some(number) => length_in_decimal(number),
        None => word.len(),
    }
}

fn length_in_decimal(number: i32) -> usize
    ensures { result ≡ length (signed_decimal number) }
{
    let mut buffer = Buffer::new();
    buffer.format(number).len()
}
