use crate::region::Rects;
use odb_base::Text;

/// A blockage of a layer or of placement.
#[derive(Debug, Drop)]
pub struct BlockageRec {
    /// The number of the layer in the technology, or 0 for a blockage of placement.
    pub layer: u32,
    pub rects: Rects,
    /// Words of DEF that are kept as they are.
    pub kept: Text,
}
