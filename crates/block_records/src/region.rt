use odb_base::{List, Name, Rect, RegionType, Text};

/// Rectangles, in the order in which they were given.
pub type Rects = List<Rect>;

/// A region for the instances of groups.
#[derive(Debug, Drop)]
pub struct RegionRec {
    pub name: Name,
    pub sort: RegionType,
    pub rects: Rects,
    /// Words of DEF that are kept as they are.
    pub kept: Text,
}
