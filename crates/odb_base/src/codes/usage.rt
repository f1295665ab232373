ghost use Rattle.odb_base.specs.Usage.{usages, usage_code, usage_word};

use crate::codes::{Coded, Worded};

/// What a net or a terminal is used for. `-` is the word where nothing is said.
#[derive(Clone, Copy, Debug, PartialEq, Eq)]
pub enum Usage {
    /// Nothing is said.
    None = 0,
    Signal = 1,
    Analog = 2,
    Power = 3,
    Ground = 4,
    Clock = 5,
    Reset = 6,
    Scan = 7,
    TieOff = 8,
}

impl Coded for Usage {
    ghost every = { usages };

    ghost code_of = { usage_code };

    fn every() -> &'static [Usage] {
        &[
            Usage::None,
            Usage::Signal,
            Usage::Analog,
            Usage::Power,
            Usage::Ground,
            Usage::Clock,
            Usage::Reset,
            Usage::Scan,
            Usage::TieOff,
        ]
    }

    fn code(self) -> u8 {
        self as u8
    }
}

impl Worded for Usage {
    ghost word_of = { usage_word };

    #[tactic(auto, unfolding(crate::specs::Usage::usage_word))]
    fn word(self) -> &'static [u8] {
        match self {
            Usage::None => b"-",
            Usage::Signal => b"SIGNAL",
            Usage::Analog => b"ANALOG",
            Usage::Power => b"POWER",
            Usage::Ground => b"GROUND",
            Usage::Clock => b"CLOCK",
            Usage::Reset => b"RESET",
            Usage::Scan => b"SCAN",
            Usage::TieOff => b"TIEOFF",
        }
    }
}
