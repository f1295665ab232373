ghost use Rattle.std.specs.Prelude.{◌≡◌, ◌&&◌, IfOk, nat_le};
ghost use Rattle.odb_fields.specs.Reading.{i32_at, text_at, u32_at, u8_at};
ghost use Rattle.wires.specs.Fields.{Reads, field_at, is_between, is_from_to, text_fits};

use crate::fault::WireFault;
use odb_base::name_fault;
use odb_fields::{Cut, Get};

/// The greatest coordinate or distance; its negative is the least one.
pub const LIMIT: i32 = odb_base::COORDINATE_LIMIT as i32;

/// Which texts may stand in a field.
#[derive(Clone, Copy, Debug, PartialEq, Eq)]
pub enum TextSort {
    /// The empty one.
    Empty,
    /// A lawful name.
    Name,
    /// A lawful name or the empty one.
    NameOrEmpty,
}

/// Reads a number of one byte from `least` to `most`.
#[tactic(auto, unfolding(crate::specs::Fields::field_at))]
pub fn get_byte(input: &mut Get<'_>, least: u8, most: u8) -> Result<u8, WireFault>
    ensures value { Reads (λ n. n) result (field_at u8_at (is_between least most) input.old) input.new }
    ensures bytes { input.new.bytes ≡ input.old.bytes }
{
    let at = input.place();
    match input.get_u8() {
        Ok(n) if least <= n && n <= most => Ok(n),
        _ => Err(WireFault::At { at }),
    }
}

/// Reads a number that names one of `most` things, which are numbered from 1.
#[tactic(auto, unfolding(crate::specs::Fields::field_at))]
pub fn get_id(input: &mut Get<'_>, most: u32) -> Result<u32, WireFault>
    ensures value { Reads (λ n. n) result (field_at u32_at (is_between 1 most) input.old) input.new }
    ensures bytes { input.new.bytes ≡ input.old.bytes }
{
    let at = input.place();
    match input.get_u32() {
        Ok(n) if 1 <= n && n <= most => Ok(n),
        _ => Err(WireFault::At { at }),
    }
}

/// Reads a distance from `least` to the greatest coordinate.
#[tactic(auto, unfolding(crate::specs::Fields::field_at))]
pub fn get_distance(input: &mut Get<'_>, least: i32) -> Result<i32, WireFault>
    ensures value { Reads (λ z. z) result (field_at i32_at (is_from_to least) input.old) input.new }
    ensures bytes { input.new.bytes ≡ input.old.bytes }
{
    let at = input.place();
    match input.get_i32() {
        Ok(z) if least <= z && z <= LIMIT => Ok(z),
        _ => Err(WireFault::At { at }),
    }
}

/// Reads a text of this sort, and lends its bytes.
#[tactic(auto, unfolding(crate::specs::Fields::field_at))]
pub fn get_text<'a>(input: &mut Get<'a>, sort: TextSort) -> Result<&'a [u8], WireFault>
    ensures value { Reads (λ text. text.now) result (field_at text_at (text_fits sort) input.old) input.new }
    ensures bytes { input.new.bytes ≡ input.old.bytes }
{
    let at = input.place();
    match input.get_text() {
        Ok(text) if is_of_sort(text, sort) => Ok(text),
        _ => Err(WireFault::At { at }),
    }
}

fn is_of_sort(text: &[u8], sort: TextSort) -> bool
    ensures { result ≡ text_fits sort text.now }
{
    match sort {
        TextSort::Empty => text.is_empty(),
        TextSort::Name => name_fault(text).is_none(),
        TextSort::NameOrEmpty => text.is_empty() || name_fault(text).is_none(),
    }
}
