ghost use Rattle.std.specs.Prelude.{◌≡◌, IfOk};
ghost use Rattle.block_records.specs.Header.{new_header};

use odb_base::{List, Name, Owner, PropType, Rect, Text};
use std::alloc::{AllocError, Global};

/// A definition of a property.
#[derive(Debug, Drop)]
pub struct PropDef {
    pub owner: Owner,
    pub sort: PropType,
    pub name: Name,
    /// The words of DEF behind the type, as they are.
    pub rest: Text,
}

/// A via of the block.
#[derive(Debug, Drop)]
pub struct BlockVia {
    pub name: Name,
    /// Words of DEF that are kept as they are.
    pub kept: Text,
}

/// What a block has apart from its objects.
#[derive(Debug, Drop)]
pub struct Header {
    /// The name of the design, empty where it has none.
    pub design: Text,
    /// The character that parts the levels of a hierarchical name.
    pub divider: Text,
    /// The two characters around the index of a bus's bit.
    pub bus: Text,
    /// The area of the die, where it is stated.
    pub die: Option<Rect>,
    /// The definitions of properties, in the order in which they were made.
    pub definitions: List<PropDef>,
    /// The vias of the block, in the order in which they were made.
    pub vias: List<BlockVia>,
}

impl Header {
    /// The header of a new block: the divider is `/`, the bus characters are `[]`, and all else is empty.
    pub fn new(alloc: Global) -> Result<Header, AllocError>
        ensures { IfOk result (λ header. header ≡ new_header) }
    {
        Ok(Header {
            design: Text::new(alloc, b"")?,
            divider: Text::new(alloc, b"/")?,
            bus: Text::new(alloc, b"[]")?,
            die: None,
            definitions: List::new(alloc),
            vias: List::new(alloc),
        })
    }
}
