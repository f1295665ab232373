ghost use Rattle.std.specs.Prelude.{◌≡◌};
ghost use Rattle.def_reader.specs.Inside.{behind, word_of};

use def_drafts::Element;
use def_forms::{Keyword, Section};

/// A section that is open.
#[derive(Clone, Copy, Debug, PartialEq, Eq)]
pub struct Counted {
    pub section: Section,
    /// How many elements it has by its header; none where no section can have so many, or it has no count.
    pub stated: Option<u64>,
    /// How many have ended. It stops at 2^64 - 1.
    pub seen: u64,
}

/// In what the next word of a text stands.
#[derive(Drop)]
pub enum Inside {
    /// Outside all sections.
    Top,
    /// In the header of a section, of which the number is due.
    Header(Section),
    /// In a section, between its elements.
    Section(Counted),
    /// In an element of a section, or in one outside all sections.
    Element(Option<Counted>, Element),
}

/// What is open behind an element.
pub fn behind(counted: Option<Counted>) -> Inside
    ensures { result ≡ behind counted }
{
    match counted {
        Some(counted) => Inside::Section(Counted {
            seen: counted.seen.saturating_add(1),
            ..counted
        }),
        None => Inside::Top,
    }
}

/// The word that begins a section and ends it.
pub fn end_of(section: Section) -> Keyword
    ensures { result ≡ word_of section }
{
    match section {
        Section::Definitions => Keyword::PropertyDefinitions,
        Section::Vias => Keyword::Vias,
        Section::Regions => Keyword::Regions,
        Section::Components => Keyword::Components,
        Section::Pins => Keyword::Pins,
        Section::Blockages => Keyword::Blockages,
        Section::SpecialNets => Keyword::SpecialNets,
        Section::Nets => Keyword::Nets,
        Section::Groups => Keyword::Groups,
    }
}
