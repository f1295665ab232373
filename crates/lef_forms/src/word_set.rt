ghost use Rattle.std.specs.Prelude.{◌≡◌};
ghost use Rattle.lef_forms.specs.WordSets.{direction_in, has, is_density_word, layer_direction_in, layer_type_in, site_class_in, symmetry_in};

use crate::keyword::Keyword;
use crate::symmetry::Symmetry;
use ld_forms::{is_semicolon, usage_of};
use odb_base::{Direction, LayerDirection, LayerType, SiteClass, Worded};

/// The words that a place may take (LEF/DEF 5.8 Language Reference). In a set of codes the words for nothing
/// and for anything else are no words of LEF.
#[derive(Clone, Copy, Debug, PartialEq, Eq)]
pub enum WordSet {
    /// `ROUTING`, `CUT`, `MASTERSLICE`, `OVERLAP`, `IMPLANT` (Layer, TYPE).
    LayerType,
    /// `HORIZONTAL`, `VERTICAL` (Layer, DIRECTION).
    LayerDirection,
    /// `CORE`, `PAD` (Site, CLASS).
    SiteClass,
    /// `X`, `Y`, `R90` (Site and Macro, SYMMETRY).
    Symmetry,
    /// `INPUT`, `INOUT`, `FEEDTHRU` (Macro Pin, DIRECTION). `OUTPUT` has a form of its own.
    PinDirection,
    /// `SIGNAL`, `ANALOG`, `POWER`, `GROUND`, `CLOCK`, `RESET`, `SCAN`, `TIEOFF` (Macro Pin, USE).
    PinUse,
    /// `FREQUENCY`, `WIDTH`, `CUTAREA` (Layer, ACCURRENTDENSITY and DCCURRENTDENSITY).
    Density,
    /// Any word but `;`.
    Any,
}

impl WordSet {
    /// Whether the word is in the set.
    #[tactic(auto, unfolding(crate::specs::WordSets::has))]
    pub fn has(self, word: &[u8]) -> bool
        ensures { result ≡ has self word.now }
    {
        match self {
            WordSet::LayerType => layer_type_of(word).is_some(),
            WordSet::LayerDirection => layer_direction_of(word).is_some(),
            WordSet::SiteClass => site_class_of(word).is_some(),
            WordSet::Symmetry => symmetry_of(word).is_some(),
            WordSet::PinDirection => direction_of(word).is_some(),
            WordSet::PinUse => usage_of(word).is_some(),
            WordSet::Density => is_density_word(word),
            WordSet::Any => !is_semicolon(word),
        }
    }
}

#[tactic(auto, unfolding(crate::specs::WordSets::is_density_word))]
fn is_density_word(word: &[u8]) -> bool
    ensures { result ≡ is_density_word word.now }
{
    Keyword::Frequency.is(word) || Keyword::Width.is(word) || Keyword::CutArea.is(word)
}

/// The type of layer that a word names.
#[tactic(auto, unfolding(crate::specs::WordSets::layer_type_in))]
pub fn layer_type_of(word: &[u8]) -> Option<LayerType>
    ensures { result ≡ layer_type_in word.now }
{
    LayerType::named_among(
        &[
            LayerType::Routing,
            LayerType::Cut,
            LayerType::Masterslice,
            LayerType::Overlap,
            LayerType::Implant,
        ],
        word,
    )
}

/// The direction of a layer that a word names.
#[tactic(auto, unfolding(crate::specs::WordSets::layer_direction_in))]
pub fn layer_direction_of(word: &[u8]) -> Option<LayerDirection>
    ensures { result ≡ layer_direction_in word.now }
{
    LayerDirection::named_among(
        &[LayerDirection::Horizontal, LayerDirection::Vertical],
        word,
    )
}

/// The class of a site that a word names.
#[tactic(auto, unfolding(crate::specs::WordSets::site_class_in))]
pub fn site_class_of(word: &[u8]) -> Option<SiteClass>
    ensures { result ≡ site_class_in word.now }
{
    SiteClass::named_among(&[SiteClass::Core, SiteClass::Pad], word)
}

/// The symmetry that a word names.
#[tactic(auto, unfolding(crate::specs::WordSets::symmetry_in))]
pub fn symmetry_of(word: &[u8]) -> Option<Symmetry>
    ensures { result ≡ symmetry_in word.now }
{
    Symmetry::named_among(&[Symmetry::X, Symmetry::Y, Symmetry::R90], word)
}

/// The direction of a pin that a word names by itself, which is no output.
#[tactic(auto, unfolding(crate::specs::WordSets::direction_in))]
pub fn direction_of(word: &[u8]) -> Option<Direction>
    ensures { result ≡ direction_in word.now }
{
    Direction::named_among(
        &[Direction::Input, Direction::Inout, Direction::Feedthru],
        word,
    )
}
