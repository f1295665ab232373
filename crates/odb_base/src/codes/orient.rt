ghost use Rattle.odb_base.specs.Orient.{orients, orient_code, orient_word};

use crate::codes::{Coded, Worded};

/// How a placed object is turned, by the words of LEF and DEF.
#[derive(Clone, Copy, Debug, PartialEq, Eq)]
pub enum Orient {
    /// As drawn.
    N = 0,
    /// Turned by 180 degrees.
    S = 1,
    /// Turned by 90 degrees against the clock.
    W = 2,
    /// Turned by 90 degrees with the clock.
    E = 3,
    /// Mirrored at the y axis.
    FN = 4,
    /// `S`, mirrored at the y axis.
    FS = 5,
    /// `W`, mirrored at the y axis.
    FW = 6,
    /// `E`, mirrored at the y axis.
    FE = 7,
}

impl Coded for Orient {
    ghost every = { orients };

    ghost code_of = { orient_code };

    fn every() -> &'static [Orient] {
        &[
            Orient::N,
            Orient::S,
            Orient::W,
            Orient::E,
            Orient::FN,
            Orient::FS,
            Orient::FW,
            Orient::FE,
        ]
    }

    fn code(self) -> u8 {
        self as u8
    }
}

impl Worded for Orient {
    ghost word_of = { orient_word };

    #[tactic(auto, unfolding(crate::specs::Orient::orient_word))]
    fn word(self) -> &'static [u8] {
        match self {
            Orient::N => b"N",
            Orient::S => b"S",
            Orient::W => b"W",
            Orient::E => b"E",
            Orient::FN => b"FN",
            Orient::FS => b"FS",
            Orient::FW => b"FW",
            Orient::FE => b"FE",
        }
    }
}
