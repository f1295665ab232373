ghost use Rattle.odb_base.specs.TrackAxis.{track_axes, track_axis_code, track_axis_word};

use crate::codes::{Coded, Worded};

/// Which coordinate of the tracks is stepped.
#[derive(Clone, Copy, Debug, PartialEq, Eq)]
pub enum TrackAxis {
    /// The tracks are vertical.
    X = 0,
    /// The tracks are horizontal.
    Y = 1,
}

impl Coded for TrackAxis {
    ghost every = { track_axes };

    ghost code_of = { track_axis_code };

    fn every() -> &'static [TrackAxis] {
        &[TrackAxis::X, TrackAxis::Y]
    }

    fn code(self) -> u8 {
        self as u8
    }
}

impl Worded for TrackAxis {
    ghost word_of = { track_axis_word };

    #[tactic(auto, unfolding(crate::specs::TrackAxis::track_axis_word))]
    fn word(self) -> &'static [u8] {
        match self {
            TrackAxis::X => b"X",
            TrackAxis::Y => b"Y",
        }
    }
}
