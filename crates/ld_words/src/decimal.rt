ghost use Rattle.std.specs.Prelude.{◌≡◌, ◌+◌, ◌*◌, ◌^◌, ◌<◌, ◌≤◌, ◌++◌, None, Some, IfSome, if◌then◌else◌, length, nat_le, position};
ghost use Rattle.std.specs.List.{after_first, before_first};
ghost use Rattle.ld_words.specs.Decimal.{has_sign, is_decimal, is_point, magnitude_in, rounded, signed, units_of, unsigned, whole_of};

use crate::short_decimal::{SHORT_LIMIT, ShortDecimal, UNITS_LIMIT};
use odb_base::{is_negative, with_digits};
use thiserror::Error;

/// The greatest coordinate; its negative is the least one.
const COORDINATE_LIMIT: u128 = odb_base::COORDINATE_LIMIT as u128;

/// The greatest number of digits in a decimal.
const DIGIT_LIMIT: usize = 30;

/// Two halves of 16 bits make the units of a micron.
const HALF: u128 = 65_536;

/// Why a word has no number of units.
#[derive(Clone, Copy, Debug, PartialEq, Eq, Error)]
pub enum NumberFault {
    /// The word is no decimal.
    #[error("not a number")]
    NotNumber,
    /// The number of units is outside the coordinates.
    #[error("out of range")]
    OutOfRange,
}

/// A decimal in database units, of which `per_micron` make a micron: the whole number nearest to it, half a
/// unit going away from zero.
///
/// A decimal is an optional `-` or `+` and 1 to 30 digits with at most one `.` among or around them. A word
/// that is none is `NotNumber`. `OutOfRange` comes exactly where the whole number is below -2,000,000,000 or
/// above 2,000,000,000.
#[tactic(auto, unfolding(crate::specs::Decimal::units_of))]
pub fn to_units(word: &[u8], per_micron: u32) -> Result<i64, NumberFault>
    ensures { result ≡ units_of per_micron word.now }
{
    let magnitude = magnitude(without_sign(word), per_micron)?;
    Ok(with_sign(is_negative(word), magnitude))
}

/// Whether the word is a decimal, of whatever size.
pub fn is_number(word: &[u8]) -> bool
    ensures { result ≡ is_decimal (unsigned word.now) }
{
    let text = without_sign(word);
    if text.len() <= SHORT_LIMIT {
        ShortDecimal::new(text).is_some()
    } else {
        is_long_number(text)
    }
}

fn is_long_number(text: &[u8]) -> bool
    ensures { result ≡ is_decimal text.now }
{
    let (front, back) = around_point(text);
    whole_number(front, back).is_some()
}

fn magnitude(text: &[u8], per_micron: u32) -> Result<u64, NumberFault>
    ensures { result ≡ magnitude_in per_micron text.now }
{
    if text.len() > SHORT_LIMIT || per_micron > UNITS_LIMIT {
        return long_magnitude(text, per_micron);
    }
    match ShortDecimal::new(text) {
        Some(decimal) => coordinate(decimal.nearest(per_micron)),
        None => Err(NumberFault::NotNumber),
    }
}

fn long_magnitude(text: &[u8], per_micron: u32) -> Result<u64, NumberFault>
    ensures { result ≡ magnitude_in per_micron text.now }
{
    let (front, back) = around_point(text);
    let whole = whole_number(front, back).ok_or(NumberFault::NotNumber)?;
    nearest(whole, per_micron, back.len()).ok_or(NumberFault::OutOfRange)
}

fn coordinate(magnitude: u64) -> Result<u64, NumberFault>
    ensures { result ≡ (if nat_le magnitude 2000000000 then Ok magnitude else Err NumberFault.OutOfRange) }
{
    if magnitude <= COORDINATE_LIMIT as u64 {
        Ok(magnitude)
    } else {
        Err(NumberFault::OutOfRange)
    }
}

fn starts_with_sign(word: &[u8]) -> bool
    ensures { result ≡ has_sign word.now }
{
    match word.first() {
        Some(first) => *first == b'-' || *first == b'+',
        None => false,
    }
}

fn without_sign(word: &[u8]) -> &[u8]
    ensures { result.now ≡ unsigned word.now }
{
    if starts_with_sign(word) {
        &word[1..]
    } else {
        word
    }
}

fn first_point(text: &[u8]) -> Option<usize>
    ensures { result ≡ position is_point text.now }
{
    text.iter().position(|b| *b == b'.')
}

/// What stands before the first point and what stands after it.
fn around_point(text: &[u8]) -> (&[u8], &[u8])
    ensures front { result.0.now ≡ before_first is_point text.now }
    ensures back { result.1.now ≡ after_first is_point text.now }
{
    match first_point(text) {
        Some(at) => (&text[..at], &text[at + 1..]),
        None => (text, &text[text.len()..]),
    }
}

/// The digits of both parts as one number, where they are 1 to [`DIGIT_LIMIT`] digits.
fn whole_number(front: &[u8], back: &[u8]) -> Option<u128>
    ensures value { result ≡ whole_of (front.now ++ back.now) }
    ensures bound { IfSome result (λ n. n < 10 ^ 30) }
{
    let digits = front.len().checked_add(back.len())?;
    if digits == 0 || digits > DIGIT_LIMIT {
        return None;
    }
    with_digits(with_digits(0, front)?, back)
}

fn power_of_ten(exponent: usize) -> u128
    requires { exponent ≤ 30 }
    ensures power { result ≡ 10 ^ exponent }
    ensures some { 0 < result }
    ensures bound { result ≤ 10 ^ 30 }
{
    10u128.pow(exponent as u32)
}

/// The whole number nearest to `whole` times `per_micron` over ten to the power of `places`, if it is a
/// coordinate.
fn nearest(whole: u128, per_micron: u32, places: usize) -> Option<u64>
    requires whole { whole < 10 ^ 30 }
    requires places { places ≤ 30 }
    ensures { let n = rounded (whole * per_micron) (10 ^ places) in
        result ≡ (if nat_le n 2000000000 then Some n else None) }
{
    let divisor = power_of_ten(places);
    let per_micron = per_micron as u128;
    // The product of all three numbers can be wider than 128 bits, and the one of a half can't.
    let high = whole * (per_micron / HALF);
    let quotient = high / divisor;
    if quotient > COORDINATE_LIMIT {
        return None;
    }
    let rest = high % divisor * HALF + whole * (per_micron % HALF);
    let units = quotient * HALF + (2 * rest + divisor) / (2 * divisor);
    if units <= COORDINATE_LIMIT {
        Some(units as u64)
    } else {
        None
    }
}

fn with_sign(negative: bool, magnitude: u64) -> i64
    requires { magnitude ≤ 2000000000 }
    ensures { result ≡ signed negative magnitude }
{
    let number = magnitude as i64;
    if negative { -number } else { number }
}
