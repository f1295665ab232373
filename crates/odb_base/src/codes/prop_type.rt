ghost use Rattle.odb_base.specs.PropType.{prop_types, prop_type_code, prop_type_word};

use crate::codes::{Coded, Worded};

/// What the values of a property are.
#[derive(Clone, Copy, Debug, PartialEq, Eq)]
pub enum PropType {
    Integer = 1,
    Real = 2,
    String = 3,
}

impl Coded for PropType {
    ghost every = { prop_types };

    ghost code_of = { prop_type_code };

    fn every() -> &'static [PropType] {
        &[PropType::Integer, PropType::Real, PropType::String]
    }

    fn code(self) -> u8 {
        self as u8
    }
}

impl Worded for PropType {
    ghost word_of = { prop_type_word };

    #[tactic(auto, unfolding(crate::specs::PropType::prop_type_word))]
    fn word(self) -> &'static [u8] {
        match self {
            PropType::Integer => b"INTEGER",
            PropType::Real => b"REAL",
            PropType::String => b"STRING",
        }
    }
}
