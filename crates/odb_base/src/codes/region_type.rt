ghost use Rattle.odb_base.specs.RegionType.{region_types, region_type_code, region_type_word};

use crate::codes::{Coded, Worded};

/// What a region asks of its instances. `-` is the word where nothing is said.
#[derive(Clone, Copy, Debug, PartialEq, Eq)]
pub enum RegionType {
    /// Nothing is said.
    None = 0,
    /// Its instances stand inside, and no others.
    Fence = 1,
    /// Its instances should stand inside.
    Guide = 2,
}

impl Coded for RegionType {
    ghost every = { region_types };

    ghost code_of = { region_type_code };

    fn every() -> &'static [RegionType] {
        &[RegionType::None, RegionType::Fence, RegionType::Guide]
    }

    fn code(self) -> u8 {
        self as u8
    }
}

impl Worded for RegionType {
    ghost word_of = { region_type_word };

    #[tactic(auto, unfolding(crate::specs::RegionType::region_type_word))]
    fn word(self) -> &'static [u8] {
        match self {
            RegionType::None => b"-",
            RegionType::Fence => b"FENCE",
            RegionType::Guide => b"GUIDE",
        }
    }
}
