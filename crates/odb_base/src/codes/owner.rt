ghost use Rattle.odb_base.specs.Owner.{owners, owner_code, owner_word};

use crate::codes::{Coded, Worded};

/// To what kind of objects a property belongs.
#[derive(Clone, Copy, Debug, PartialEq, Eq)]
pub enum Owner {
    Design = 1,
    Component = 2,
    Net = 3,
    SpecialNet = 4,
    Row = 5,
    Region = 6,
    Group = 7,
    ComponentPin = 8,
}

impl Coded for Owner {
    ghost every = { owners };

    ghost code_of = { owner_code };

    fn every() -> &'static [Owner] {
        &[
            Owner::Design,
            Owner::Component,
            Owner::Net,
            Owner::SpecialNet,
            Owner::Row,
            Owner::Region,
            Owner::Group,
            Owner::ComponentPin,
        ]
    }

    fn code(self) -> u8 {
        self as u8
    }
}

impl Worded for Owner {
    ghost word_of = { owner_word };

    #[tactic(auto, unfolding(crate::specs::Owner::owner_word))]
    fn word(self) -> &'static [u8] {
        match self {
            Owner::Design => b"DESIGN",
            Owner::Component => b"COMPONENT",
            Owner::Net => b"NET",
            Owner::SpecialNet => b"SPECIALNET",
            Owner::Row => b"ROW",
            Owner::Region => b"REGION",
            Owner::Group => b"GROUP",
            Owner::ComponentPin => b"COMPONENTPIN",
        }
    }
}
