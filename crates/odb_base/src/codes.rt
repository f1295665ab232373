ghost use Rattle.std.specs.Prelude.{◌≡◌, ◌==◌, List, ℕ};
ghost use Rattle.std.specs.List.{find};
ghost use Rattle.std.specs.Str.{bytes_eq};

use crate::sameness::same_bytes;

pub mod direction;
pub mod kind;
pub mod layer_direction;
pub mod layer_type;
pub mod orient;
pub mod owner;
pub mod place_status;
pub mod prop_type;
pub mod region_type;
pub mod row_form;
pub mod site_class;
pub mod track_axis;
pub mod usage;
pub mod wire_status;

/// A value of a set whose values have codes in the streams.
pub trait Coded: Copy + 'static {
    ghost every: { List Self };

    ghost code_of: { Self → ℕ };

    /// The values of the set, in the order of their codes.
    fn every() -> &'static [Self]
        ensures { result.now ≡ every };

    /// The code of the value.
    fn code(self) -> u8
        ensures { result ≡ code_of self };

    /// The value of a code, or nothing where it is the code of none.
    final fn from_code(code: u8) -> Option<Self>
        ensures { result ≡ find (λ value. code_of value == code) every }
    {
        let values = Self::every();
        for value in values {
            if value.code() == code {
                return Some(*value);
            }
        }
        None
    }
}

/// A value of a set whose values have words in scripts, replies, LEF and DEF.
pub trait Worded: Copy + 'static {
    ghost word_of: { Self → List ℕ };

    /// The word of the value.
    fn word(self) -> &'static [u8]
        ensures { result.now ≡ word_of self };

    /// The first of some values whose word this is, or nothing where it is the word of none of them.
    final fn named_among(values: &[Self], word: &[u8]) -> Option<Self>
        ensures { result ≡ find (λ value. bytes_eq (word_of value) word.now) values.now }
    {
        for value in values {
            if same_bytes(value.word(), word) {
                return Some(*value);
            }
        }
        None
    }

    /// The value of a word, or nothing where it is the word of none.
    final fn from_word(word: &[u8]) -> Option<Self>
    where
        Self: Coded,
        ensures { result ≡ find (λ value. bytes_eq (word_of value) word.now) Self.every }
    {
        Self::named_among(Self::every(), word)
    }
}
