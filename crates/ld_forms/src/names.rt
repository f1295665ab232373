ghost use Rattle.std.specs.Prelude.{◌≡◌, is_none};
ghost use Rattle.odb_base.specs.Name.{name_fault as fault_of_name};
ghost use Rattle.ld_forms.specs.Names.{is_name, is_orientation, is_via_name, per_micron_in, whole_number_in};

use odb_base::{Orient, Worded, is_digit, name_fault};

/// The greatest number of database units per micron (LEF/DEF 5.8 Language Reference, Units).
pub const UNITS_LIMIT: u32 = 100_000;

/// Whether the word is a lawful name.
#[tactic(auto, unfolding(crate::specs::Names::is_name))]
pub fn is_name(word: &[u8]) -> bool
    ensures { result ≡ is_name word.now }
{
    name_fault(word).is_none()
}

/// Whether the word is a lawful name of a via, which no orientation has.
#[tactic(auto, unfolding(crate::specs::Names::is_via_name))]
pub fn is_via_name(word: &[u8]) -> bool
    ensures { result ≡ is_via_name word.now }
{
    !is_orientation(word) && is_name(word)
}

#[tactic(auto, unfolding(crate::specs::Names::is_orientation))]
fn is_orientation(word: &[u8]) -> bool
    ensures { result ≡ is_orientation word.now }
{
    Orient::from_word(word).is_some()
}

/// The database units per micron that a word states: digits of value 1 to [`UNITS_LIMIT`].
#[tactic(auto, unfolding(crate::specs::Names::per_micron_in))]
pub fn per_micron_of(word: &[u8]) -> Option<u32>
    ensures { result ≡ per_micron_in word.now }
{
    let mut number = 0;
    for digit in word {
        if number > UNITS_LIMIT {
            return None;
        }
        if !is_digit(*digit) {
            return None;
        }
        number = number * 10 + (*digit - b'0') as u32;
    }
    if number >= 1 && number <= UNITS_LIMIT {
        Some(number)
    } else {
        None
    }
}

/// The whole number that digits make, where it is below 2^64.
#[tactic(auto, unfolding(crate::specs::Names::whole_number_in))]
pub fn whole_number(digits: &[u8]) -> Option<u64>
    ensures { result ≡ whole_number_in digits.now }
{
    let mut number = 0u128;
    for digit in digits {
        if number > u64::MAX as u128 {
            return None;
        }
        if !is_digit(*digit) {
            return None;
        }
        number = number * 10 + (*digit - b'0') as u128;
    }
    if number <= u64::MAX as u128 {
        Some(number as u64)
    } else {
        None
    }
}
