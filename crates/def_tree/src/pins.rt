use odb_base::{Direction, List, Name, Placement, Rect, Text, Usage};

/// A rectangle on a layer.
#[derive(Debug, Drop)]
pub struct DefBox {
    pub layer: Name,
    pub rect: Rect,
}

/// A port of a pin: shapes that are joined, and where they stand.
#[derive(Debug, Drop)]
pub struct DefPort {
    /// In the order of the text, about the place of the port.
    pub boxes: List<DefBox>,
    pub place: Placement,
    /// Its other options, word for word.
    pub kept: Text,
}

/// A terminal of the block (PINS).
#[derive(Debug, Drop)]
pub struct DefPin {
    /// The net that it is joined to.
    pub net: Option<Name>,
    /// Never `Tristate`.
    pub direction: Direction,
    pub usage: Usage,
    /// Its other options, word for word.
    pub kept: Text,
    /// In the order of the text.
    pub ports: List<DefPort>,
}
