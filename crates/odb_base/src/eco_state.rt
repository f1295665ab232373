ghost use Rattle.odb_base.specs.EcoState.{eco_state_word};

use crate::codes::Worded;

/// Where a session stands between two engineering change orders, or within one. The words are those of replies.
#[derive(Clone, Copy, Debug, PartialEq, Eq)]
pub enum EcoState {
    /// No ECO stands.
    None,
    /// An ECO stands and takes edits.
    Open,
    /// An ECO stands and takes no more edits.
    Ended,
}

impl Worded for EcoState {
    ghost word_of = { eco_state_word };

    #[tactic(auto, unfolding(crate::specs::EcoState::eco_state_word))]
    fn word(self) -> &'static [u8] {
        match self {
            EcoState::None => b"None",
            EcoState::Open => b"Open",
            EcoState::Ended => b"Ended",
        }
    }
}
