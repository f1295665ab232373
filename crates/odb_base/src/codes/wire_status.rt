ghost use Rattle.odb_base.specs.WireStatus.{wire_statuses, wire_status_code, wire_status_word};

use crate::codes::{Coded, Worded};

/// Who may change a wire.
#[derive(Clone, Copy, Debug, PartialEq, Eq)]
pub enum WireStatus {
    /// A router may.
    Routed = 0,
    /// Only a person does.
    Fixed = 1,
    /// Nobody does.
    Cover = 2,
}

impl Coded for WireStatus {
    ghost every = { wire_statuses };

    ghost code_of = { wire_status_code };

    fn every() -> &'static [WireStatus] {
        &[WireStatus::Routed, WireStatus::Fixed, WireStatus::Cover]
    }

    fn code(self) -> u8 {
        self as u8
    }
}

impl Worded for WireStatus {
    ghost word_of = { wire_status_word };

    #[tactic(auto, unfolding(crate::specs::WireStatus::wire_status_word))]
    fn word(self) -> &'static [u8] {
        match self {
            WireStatus::Routed => b"ROUTED",
            WireStatus::Fixed => b"FIXED",
            WireStatus::Cover => b"COVER",
        }
    }
}
