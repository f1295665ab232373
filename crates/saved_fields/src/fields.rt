ghost use Rattle.std.specs.Prelude.{◌≡◌, ◌++◌, ◌<◌, ◌^◌, OnOk, length};
ghost use Rattle.odb_base.specs.Geometry.{is_coordinate};
ghost use Rattle.odb_fields.specs.Fields.{i32_bytes};
ghost use Rattle.odb_fields.specs.Putting.{KeepsVector, bytes_in};
ghost use Rattle.saved_fields.specs.Bytes.{flag_bytes};
ghost use Rattle.saved_fields.specs.Fields.{any_text_at, coded_at, coordinate_at, distance_at, flag_at, id_at, is_from, name_at, no_text_at, number_at, small_at, text_at, word_at};
ghost use Rattle.saved_fields.specs.Reading.{Reads, ReadsAs};

use crate::fault::ReadFault;
use odb_base::{COORDINATE_LIMIT, Coded, Name, NameFault, Text};
use odb_fields::{Get, Put};
use std::alloc::{AllocError, Global};

/// Reads a number of one byte up to `most`.
#[tactic(auto, unfolding(crate::specs::Fields::small_at))]
pub fn get_small(input: &mut Get<'_>, most: u8) -> Result<u8, ReadFault>
    ensures { Reads result (small_at most input.old) input.new }
{
    let at = input.place();
    let n = input.get_u8()?;
    if n <= most {
        Ok(n)
    } else {
        Err(ReadFault::BadField { at })
    }
}

/// Reads a number of four bytes from `least` to `most`.
#[tactic(auto, unfolding(crate::specs::Fields::number_at))]
pub fn get_number(input: &mut Get<'_>, least: u32, most: u32) -> Result<u32, ReadFault>
    ensures { Reads result (number_at least most input.old) input.new }
{
    let at = input.place();
    let n = input.get_u32()?;
    if least <= n && n <= most {
        Ok(n)
    } else {
        Err(ReadFault::BadField { at })
    }
}

/// Reads an identifier. Which ones name something isn't judged.
#[tactic(auto, unfolding(crate::specs::Fields::id_at))]
pub fn get_id(input: &mut Get<'_>) -> Result<u32, ReadFault>
    ensures { Reads result (id_at input.old) input.new }
{
    let id = input.get_u32()?;
    Ok(id)
}

/// Reads a coordinate.
#[tactic(auto, unfolding(crate::specs::Fields::distance_at))]
pub fn get_coordinate(input: &mut Get<'_>) -> Result<i32, ReadFault>
    ensures { Reads result (coordinate_at input.old) input.new }
{
    let at = input.place();
    let n = input.get_i32()?;
    if in_limit(n) {
        Ok(n)
    } else {
        Err(ReadFault::BadField { at })
    }
}

/// Reads a coordinate that may not be below `least`.
#[tactic(auto, unfolding(crate::specs::Fields::distance_at))]
pub fn get_from(input: &mut Get<'_>, least: i32) -> Result<i32, ReadFault>
    ensures { Reads result (distance_at (is_from least) input.old) input.new }
{
    let at = input.place();
    let n = input.get_i32()?;
    if is_from_to_limit(least, n) {
        Ok(n)
    } else {
        Err(ReadFault::BadField { at })
    }
}

fn is_from_to_limit(least: i32, n: i32) -> bool
    ensures { result ≡ is_from least n }
{
    least <= n && in_limit(n)
}

/// Whether the number is within the limit of coordinates.
pub fn in_limit(n: i32) -> bool
    ensures { result ≡ is_coordinate n }
{
    n.unsigned_abs() <= COORDINATE_LIMIT
}

/// Reads a flag: 0 or 1.
#[tactic(auto, unfolding(crate::specs::Fields::flag_at))]
pub fn get_flag(input: &mut Get<'_>) -> Result<bool, ReadFault>
    ensures { Reads result (flag_at input.old) input.new }
{
    let at = input.place();
    match input.get_u8()? {
        0 => Ok(false),
        1 => Ok(true),
        _ => Err(ReadFault::BadField { at }),
    }
}

/// Reads the code of a value of a set.
#[tactic(auto, unfolding(crate::specs::Fields::coded_at))]
pub fn get_coded<T: Coded>(input: &mut Get<'_>) -> Result<T, ReadFault>
    ensures { Reads result (coded_at T.code_of T.every input.old) input.new }
{
    let at = input.place();
    let code = input.get_u8()?;
    match T::from_code(code) {
        Some(value) => Ok(value),
        None => Err(ReadFault::BadField { at }),
    }
}

/// Reads a text of `least` to `most` bytes, and lends it. Their number is judged before they are looked for.
#[tactic(auto, unfolding(crate::specs::Fields::text_at))]
pub fn get_text<'a>(input: &mut Get<'a>, least: u32, most: u32) -> Result<&'a [u8], ReadFault>
    ensures { ReadsAs (λ text. text.now) result (text_at least most input.old) input.new }
{
    let count = get_number(input, least, most)?;
    let text = input.get_bytes(count as usize)?;
    Ok(text)
}

/// Reads a text of any length.
pub fn get_any_text(alloc: Global, input: &mut Get<'_>) -> Result<Text, ReadFault>
    ensures { Reads result (any_text_at input.old) input.new }
{
    let text = get_text(input, 0, u32::MAX)?;
    Ok(Text::new(alloc, text)?)
}

/// Reads a text that is empty yet.
pub fn get_no_text(alloc: Global, input: &mut Get<'_>) -> Result<Text, ReadFault>
    ensures { Reads result (no_text_at input.old) input.new }
{
    let text = get_text(input, 0, 0)?;
    Ok(Text::new(alloc, text)?)
}

/// Reads a lawful name.
#[tactic(auto, unfolding(crate::specs::Fields::name_at))]
pub fn get_name(alloc: Global, input: &mut Get<'_>) -> Result<Name, ReadFault>
    ensures { Reads result (name_at input.old) input.new }
{
    let at = input.place();
    let text = get_text(input, 1, odb_base::name::NAME_LIMIT as u32)?;
    match Name::new(alloc, text) {
        Ok(name) => Ok(name),
        Err(NameFault::Memory) => Err(ReadFault::Memory),
        Err(_) => Err(ReadFault::BadField { at }),
    }
}

/// Reads just this text.
#[tactic(auto, unfolding(crate::specs::Fields::word_at))]
pub fn get_word(alloc: Global, input: &mut Get<'_>, word: &'static [u8]) -> Result<Text, ReadFault>
    requires { length word.now < 2 ^ 32 }
    ensures { Reads result (word_at word.now input.old) input.new }
{
    let at = input.place();
    let count = word.len() as u32;
    let text = get_text(input, count, count)?;
    if word == text {
        Ok(Text::new(alloc, text)?)
    } else {
        Err(ReadFault::BadField { at })
    }
}

/// Appends a flag.
pub fn put_flag(put: &mut Put<'_>, flag: bool) -> Result<(), AllocError>
    ensures ok { OnOk result (bytes_in put.new ≡ bytes_in put.old ++ flag_bytes flag) }
    ensures vector { KeepsVector put.old put.new }
{
    put.put_u8(u8::from(flag))
}

/// Appends a signed number of four bytes. It is taken by reference, since what is read of a field behind a reference is
/// converted first, and each caller would have to prove that away.
pub fn put_distance(put: &mut Put<'_>, distance: &i32) -> Result<(), AllocError>
    ensures ok { OnOk result (bytes_in put.new ≡ bytes_in put.old ++ i32_bytes distance.now) }
    ensures vector { KeepsVector put.old put.new }
{
    put.put_i32(*distance)
}
