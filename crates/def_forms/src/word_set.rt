ghost use Rattle.std.specs.Prelude.{◌≡◌};
ghost use Rattle.def_forms.specs.WordSets.{axis_in, direction_in, has, orientation_in, owner_in, prop_type_in, region_type_in};

use ld_forms::usage_of;
use odb_base::{Direction, Orient, Owner, PropType, RegionType, TrackAxis, Worded};

/// The words that a place may take (LEF/DEF 5.8 Language Reference). In a set of codes the words for nothing are no words
/// of DEF.
#[derive(Clone, Copy, Debug, PartialEq, Eq)]
pub enum WordSet {
    /// `N`, `S`, `W`, `E`, `FN`, `FS`, `FW`, `FE`.
    Orientation,
    /// `X`, `Y` (TRACKS).
    Axis,
    /// `FENCE`, `GUIDE` (REGIONS, TYPE).
    RegionType,
    /// `INTEGER`, `REAL`, `STRING` (PROPERTYDEFINITIONS).
    PropType,
    /// `INPUT`, `OUTPUT`, `INOUT`, `FEEDTHRU` (PINS, DIRECTION).
    Direction,
    /// `SIGNAL`, `ANALOG`, `POWER`, `GROUND`, `CLOCK`, `RESET`, `SCAN`, `TIEOFF` (PINS, NETS and SPECIALNETS, USE).
    Use,
}

impl WordSet {
    /// Whether the word is in the set.
    #[tactic(auto, unfolding(crate::specs::WordSets::has))]
    pub fn has(self, word: &[u8]) -> bool
        ensures { result ≡ has self word.now }
    {
        match self {
            WordSet::Orientation => orientation_of(word).is_some(),
            WordSet::Axis => axis_of(word).is_some(),
            WordSet::RegionType => region_type_of(word).is_some(),
            WordSet::PropType => prop_type_of(word).is_some(),
            WordSet::Direction => direction_of(word).is_some(),
            WordSet::Use => usage_of(word).is_some(),
        }
    }
}

/// The orientation that a word names.
#[tactic(auto, unfolding(crate::specs::WordSets::orientation_in))]
pub fn orientation_of(word: &[u8]) -> Option<Orient>
    ensures { result ≡ orientation_in word.now }
{
    Orient::from_word(word)
}

/// The axis of tracks that a word names.
#[tactic(auto, unfolding(crate::specs::WordSets::axis_in))]
pub fn axis_of(word: &[u8]) -> Option<TrackAxis>
    ensures { result ≡ axis_in word.now }
{
    TrackAxis::from_word(word)
}

/// The type of a region that a word names.
#[tactic(auto, unfolding(crate::specs::WordSets::region_type_in))]
pub fn region_type_of(word: &[u8]) -> Option<RegionType>
    ensures { result ≡ region_type_in word.now }
{
    RegionType::named_among(&[RegionType::Fence, RegionType::Guide], word)
}

/// The type of a property that a word names.
#[tactic(auto, unfolding(crate::specs::WordSets::prop_type_in))]
pub fn prop_type_of(word: &[u8]) -> Option<PropType>
    ensures { result ≡ prop_type_in word.now }
{
    PropType::from_word(word)
}

/// The owner of properties that a word names.
#[tactic(auto, unfolding(crate::specs::WordSets::owner_in))]
pub fn owner_of(word: &[u8]) -> Option<Owner>
    ensures { result ≡ owner_in word.now }
{
    Owner::from_word(word)
}

/// The direction of a pin that a word names, which is no tristate one.
#[tactic(auto, unfolding(crate::specs::WordSets::direction_in))]
pub fn direction_of(word: &[u8]) -> Option<Direction>
    ensures { result ≡ direction_in word.now }
{
    Direction::named_among(
        &[
            Direction::Input,
            Direction::Output,
            Direction::Inout,
            Direction::Feedthru,
        ],
        word,
    )
}
