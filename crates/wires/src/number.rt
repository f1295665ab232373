ghost use Rattle.std.specs.Prelude.{◌≡◌, ◌≤◌, ◌<◌, IfSome};
ghost use Rattle.wires.specs.PathWords.{magnitude_of, number_of, number_with, signed, unsigned};

use odb_base::{is_digit, is_negative};

/// The greatest coordinate or distance; its negative is the least one.
const LIMIT: u64 = odb_base::COORDINATE_LIMIT as u64;

/// The number of a word: an optional minus and digits, within the limit of coordinates.
#[tactic(auto, unfolding(crate::specs::PathWords::number_of))]
pub fn signed_number(word: &[u8]) -> Option<i32>
    ensures { result ≡ number_of word.now }
{
    let negative = is_negative(word);
    let magnitude = magnitude(without_sign(word))?;
    Some(with_sign(negative, magnitude))
}

fn without_sign(word: &[u8]) -> &[u8]
    ensures { result.now ≡ unsigned word.now }
{
    if is_negative(word) { &word[1..] } else { word }
}

fn magnitude(digits: &[u8]) -> Option<u64>
    ensures value { result ≡ magnitude_of digits.now }
    ensures bound { IfSome result (λ n. n ≤ 2000000000) }
{
    if digits.is_empty() {
        None
    } else {
        number_of_digits(digits)
    }
}

fn number_of_digits(mut digits: &[u8]) -> Option<u64>
    ensures value { result ≡ number_with 0 digits.now }
    ensures bound { IfSome result (λ n. n ≤ 2000000000) }
{
    let mut number = 0u64;
    'digits: while let [first, rest @ ..] = digits {
        if !is_digit(*first) {
            return None;
        }
        number = number * 10 + (*first - b'0') as u64;
        if number > LIMIT {
            return None;
        }
        digits = rest;
    }
    Some(number)
}

fn with_sign(negative: bool, magnitude: u64) -> i32
    requires { magnitude ≤ 2000000000 }
    ensures { result ≡ signed negative magnitude }
{
    let number = magnitude as i32;
    if negative { -number } else { number }
}
