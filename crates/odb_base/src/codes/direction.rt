ghost use Rattle.std.specs.Prelude.{◌≡◌};
ghost use Rattle.odb_base.specs.Direction.{directions, direction_code, direction_word, is_bterm_direction};

use crate::codes::{Coded, Worded};

/// In which direction signals pass a terminal. `-` is the word where nothing is said.
#[derive(Clone, Copy, Debug, PartialEq, Eq)]
pub enum Direction {
    /// Nothing is said.
    None = 0,
    Input = 1,
    Output = 2,
    /// `OUTPUT TRISTATE` of LEF.
    Tristate = 3,
    Inout = 4,
    Feedthru = 5,
}

impl Direction {
    /// Whether a terminal of the block may have the direction: any but `OUTPUT TRISTATE`.
    pub fn fits_bterm(self) -> bool
        ensures { result ≡ is_bterm_direction self }
    {
        !matches!(self, Direction::Tristate)
    }
}

impl Coded for Direction {
    ghost every = { directions };

    ghost code_of = { direction_code };

    fn every() -> &'static [Direction] {
        &[
            Direction::None,
            Direction::Input,
            Direction::Output,
            Direction::Tristate,
            Direction::Inout,
            Direction::Feedthru,
        ]
    }

    fn code(self) -> u8 {
        self as u8
    }
}

impl Worded for Direction {
    ghost word_of = { direction_word };

    #[tactic(auto, unfolding(crate::specs::Direction::direction_word))]
    fn word(self) -> &'static [u8] {
        match self {
            Direction::None => b"-",
            Direction::Input => b"INPUT",
            Direction::Output => b"OUTPUT",
            Direction::Tristate => b"TRISTATE",
            Direction::Inout => b"INOUT",
            Direction::Feedthru => b"FEEDTHRU",
        }
    }
}
