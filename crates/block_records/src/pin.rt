use odb_base::{List, Placement, Shape, Text};

/// Rectangles on layers, in the order in which they were given.
pub type LayerRects = List<Shape>;

/// A pin of a block terminal: a port of DEF.
#[derive(Debug, Drop)]
pub struct PinRec {
    pub bterm: u32,
    pub place: Placement,
    pub boxes: LayerRects,
    /// Words of DEF that are kept as they are.
    pub kept: Text,
}
