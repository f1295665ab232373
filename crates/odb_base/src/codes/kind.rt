ghost use Rattle.std.specs.Prelude.{◌≡◌};
ghost use Rattle.odb_base.specs.Kind.{has_names, has_place, has_props, has_usage, is_terminal, kinds, kind_code, kind_word};

use crate::codes::{Coded, Worded};

/// The kinds of objects of a block, one table each.
#[derive(Clone, Copy, Debug, PartialEq, Eq)]
pub enum Kind {
    /// Instances.
    Inst = 1,
    /// Terminals of instances.
    ITerm = 2,
    /// Nets.
    Net = 3,
    /// Terminals of the block.
    BTerm = 4,
    /// Pins of terminals of the block.
    Pin = 5,
    /// Rows of sites.
    Row = 6,
    /// Tracks.
    Track = 7,
    /// Wires of nets.
    Wire = 8,
    /// Blockages.
    Blockage = 9,
    /// Regions.
    Region = 10,
    /// Groups of instances.
    Group = 11,
    /// Properties of objects.
    Prop = 12,
}

impl Kind {
    /// Whether objects of the kind have names, no two of them the same.
    pub fn has_names(self) -> bool
        ensures { result ≡ has_names self }
    {
        matches!(
            self,
            Kind::Inst | Kind::Net | Kind::BTerm | Kind::Row | Kind::Region | Kind::Group
        )
    }

    /// Whether objects of the kind have a placement.
    pub fn has_place(self) -> bool
        ensures { result ≡ has_place self }
    {
        matches!(self, Kind::Inst | Kind::Pin)
    }

    /// Whether objects of the kind have a use.
    pub fn has_usage(self) -> bool
        ensures { result ≡ has_usage self }
    {
        matches!(self, Kind::Net | Kind::BTerm)
    }

    /// Whether objects of the kind are terminals, which are joined to nets.
    pub fn is_terminal(self) -> bool
        ensures { result ≡ is_terminal self }
    {
        matches!(self, Kind::ITerm | Kind::BTerm)
    }

    /// Whether objects of the kind have properties.
    pub fn has_props(self) -> bool
        ensures { result ≡ has_props self }
    {
        matches!(
            self,
            Kind::Inst | Kind::Net | Kind::Row | Kind::Region | Kind::Group
        )
    }
}

impl Coded for Kind {
    ghost every = { kinds };

    ghost code_of = { kind_code };

    fn every() -> &'static [Kind] {
        &[
            Kind::Inst,
            Kind::ITerm,
            Kind::Net,
            Kind::BTerm,
            Kind::Pin,
            Kind::Row,
            Kind::Track,
            Kind::Wire,
            Kind::Blockage,
            Kind::Region,
            Kind::Group,
            Kind::Prop,
        ]
    }

    fn code(self) -> u8 {
        self as u8
    }
}

impl Worded for Kind {
    ghost word_of = { kind_word };

    #[tactic(auto, unfolding(crate::specs::Kind::kind_word))]
    fn word(self) -> &'static [u8] {
        match self {
            Kind::Inst => b"inst",
            Kind::ITerm => b"iterm",
            Kind::Net => b"net",
            Kind::BTerm => b"bterm",
            Kind::Pin => b"pin",
            Kind::Row => b"row",
            Kind::Track => b"track",
            Kind::Wire => b"wire",
            Kind::Blockage => b"blockage",
            Kind::Region => b"region",
            Kind::Group => b"group",
            Kind::Prop => b"prop",
        }
    }
}
