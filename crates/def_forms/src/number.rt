ghost use Rattle.std.specs.Prelude.{◌≡◌};
ghost use Rattle.std.specs.List.{list_all};
ghost use Rattle.odb_base.specs.Digits.{is_digit};
ghost use Rattle.wires.specs.PathWords.{number_of};
ghost use Rattle.def_forms.specs.Numbers.{are_digits, count_in, is_number, stated_in, step_in, unsigned_of};

use ld_forms::whole_number;
use odb_base::{is_digit, is_negative};

/// The number of a word, within the limit of coordinates, in database units.
pub fn coordinate(word: &[u8]) -> Option<i32>
    ensures { result ≡ number_of word.now }
{
    wires::signed_number(word)
}

/// How often something is repeated, by a word: 1 to 1,000,000.
#[tactic(auto, unfolding(crate::specs::Numbers::count_in))]
pub fn count(word: &[u8]) -> Option<u32>
    ensures { result ≡ count_in word.now }
{
    match coordinate(word) {
        Some(number) if number >= 1 && number <= 1_000_000 => Some(number as u32),
        _ => None,
    }
}

/// The distance of tracks, by a word: at least 1, in database units.
#[tactic(auto, unfolding(crate::specs::Numbers::step_in))]
pub fn track_step(word: &[u8]) -> Option<i32>
    ensures { result ≡ step_in word.now }
{
    match coordinate(word) {
        Some(number) if number >= 1 => Some(number),
        _ => None,
    }
}

// The word without a minus sign in front.
fn unsigned(word: &[u8]) -> &[u8]
    ensures { result.now ≡ unsigned_of word.now }
{
    if is_negative(word) { &word[1..] } else { word }
}

/// Whether the word is a number, of whatever size: an optional minus sign and digits.
#[tactic(auto, unfolding(crate::specs::Numbers::is_number))]
pub fn is_number(word: &[u8]) -> bool
    ensures { result ≡ is_number word.now }
{
    are_digits(unsigned(word))
}

fn are_digits(digits: &[u8]) -> bool
    ensures { result ≡ are_digits digits.now }
{
    !digits.is_empty() && all_digits(digits)
}

fn all_digits(digits: &[u8]) -> bool
    ensures { result ≡ list_all is_digit digits.now }
{
    digits.iter().all(|byte| is_digit(*byte))
}

/// How many elements a section has by its header: the number that a word states, where some section can have so many.
#[tactic(auto, unfolding(crate::specs::Numbers::stated_in))]
pub fn stated(word: &[u8]) -> Option<u64>
    ensures { result ≡ stated_in word.now }
{
    match whole_number(unsigned(word)) {
        Some(number) if !is_negative(word) || number == 0 => Some(number),
        _ => None,
    }
}
