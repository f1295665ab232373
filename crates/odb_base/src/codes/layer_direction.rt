ghost use Rattle.odb_base.specs.LayerDirection.{layer_directions, layer_direction_code, layer_direction_word};

use crate::codes::{Coded, Worded};

/// In which direction the wires of a layer run. `-` is the word where nothing is said.
#[derive(Clone, Copy, Debug, PartialEq, Eq)]
pub enum LayerDirection {
    /// Nothing is said.
    None = 0,
    Horizontal = 1,
    Vertical = 2,
}

impl Coded for LayerDirection {
    ghost every = { layer_directions };

    ghost code_of = { layer_direction_code };

    fn every() -> &'static [LayerDirection] {
        &[
            LayerDirection::None,
            LayerDirection::Horizontal,
            LayerDirection::Vertical,
        ]
    }

    fn code(self) -> u8 {
        self as u8
    }
}

impl Worded for LayerDirection {
    ghost word_of = { layer_direction_word };

    #[tactic(auto, unfolding(crate::specs::LayerDirection::layer_direction_word))]
    fn word(self) -> &'static [u8] {
        match self {
            LayerDirection::None => b"-",
            LayerDirection::Horizontal => b"HORIZONTAL",
            LayerDirection::Vertical => b"VERTICAL",
        }
    }
}
