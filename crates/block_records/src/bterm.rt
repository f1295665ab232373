use odb_base::{Direction, Name, Text, Usage};

/// A terminal of the block, which the section PINS of DEF names.
#[derive(Debug, Drop)]
pub struct BTermRec {
    pub name: Name,
    /// The net that it is joined to, or 0.
    pub net: u32,
    /// Its direction, which is never `Tristate`.
    pub direction: Direction,
    pub usage: Usage,
    /// Words of DEF that are kept as they are.
    pub kept: Text,
}
