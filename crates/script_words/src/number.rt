ghost use Rattle.std.specs.Prelude.{◌≡◌, ◌^◌, ◌<◌, IfSome};
ghost use Rattle.script_words.specs.Forms.{number_named, positive_named};

use odb_base::{is_negative, with_digits};

/// The greatest number of digits.
const DIGIT_LIMIT: usize = 18;

/// The number that a word is: `0`, or an optional `-`, a digit 1 to 9 and at most 17 further digits.
#[tactic(auto, unfolding(crate::specs::Forms::number_named))]
pub fn number_named(word: &[u8]) -> Option<i64>
    ensures { result ≡ number_named word.now }
{
    if word == b"0".as_slice() {
        return Some(0);
    }
    if is_negative(word) {
        let number = positive_named(&word[1..])?;
        return Some(-(number as i64));
    }
    let number = positive_named(word)?;
    Some(number as i64)
}

// The number that a digit 1 to 9 and at most 17 further digits are.
#[tactic(auto, unfolding(crate::specs::Forms::positive_named))]
fn positive_named(word: &[u8]) -> Option<u64>
    ensures value { result ≡ positive_named word.now }
    ensures bound { IfSome result (λ n. n < 10 ^ 18) }
{
    let first = word.first()?;
    if *first < b'1' || word.len() > DIGIT_LIMIT {
        return None;
    }
    let number = with_digits(0, word)?;
    Some(number as u64)
}
