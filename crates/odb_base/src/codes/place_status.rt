ghost use Rattle.odb_base.specs.PlaceStatus.{place_statuses, place_status_code, place_status_word};

use crate::codes::{Coded, Worded};

/// Whether an instance or a pin is placed, and who may move it.
#[derive(Clone, Copy, Debug, PartialEq, Eq)]
pub enum PlaceStatus {
    /// It has no place.
    Unplaced = 0,
    /// It has a place, which a placer may change.
    Placed = 1,
    /// It has a place that only a person changes.
    Fixed = 2,
    /// It has a place that nobody changes.
    Cover = 3,
}

impl Coded for PlaceStatus {
    ghost every = { place_statuses };

    ghost code_of = { place_status_code };

    fn every() -> &'static [PlaceStatus] {
        &[
            PlaceStatus::Unplaced,
            PlaceStatus::Placed,
            PlaceStatus::Fixed,
            PlaceStatus::Cover,
        ]
    }

    fn code(self) -> u8 {
        self as u8
    }
}

impl Worded for PlaceStatus {
    ghost word_of = { place_status_word };

    #[tactic(auto, unfolding(crate::specs::PlaceStatus::place_status_word))]
    fn word(self) -> &'static [u8] {
        match self {
            PlaceStatus::Unplaced => b"UNPLACED",
            PlaceStatus::Placed => b"PLACED",
            PlaceStatus::Fixed => b"FIXED",
            PlaceStatus::Cover => b"COVER",
        }
    }
}
