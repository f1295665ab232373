ghost use Rattle.odb_base.specs.LayerType.{layer_types, layer_type_code, layer_type_word};

use crate::codes::{Coded, Worded};

/// What a layer is for. `other` is the word where nothing else is said.
#[derive(Clone, Copy, Debug, PartialEq, Eq)]
pub enum LayerType {
    /// Nothing is said, or what this database has no word for.
    Other = 0,
    Routing = 1,
    Cut = 2,
    Masterslice = 3,
    Overlap = 4,
    Implant = 5,
}

impl Coded for LayerType {
    ghost every = { layer_types };

    ghost code_of = { layer_type_code };

    fn every() -> &'static [LayerType] {
        &[
            LayerType::Other,
            LayerType::Routing,
            LayerType::Cut,
            LayerType::Masterslice,
            LayerType::Overlap,
            LayerType::Implant,
        ]
    }

    fn code(self) -> u8 {
        self as u8
    }
}

impl Worded for LayerType {
    ghost word_of = { layer_type_word };

    #[tactic(auto, unfolding(crate::specs::LayerType::layer_type_word))]
    fn word(self) -> &'static [u8] {
        match self {
            LayerType::Other => b"other",
            LayerType::Routing => b"ROUTING",
            LayerType::Cut => b"CUT",
            LayerType::Masterslice => b"MASTERSLICE",
            LayerType::Overlap => b"OVERLAP",
            LayerType::Implant => b"IMPLANT",
        }
    }
}
