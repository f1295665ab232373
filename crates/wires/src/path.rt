use odb_base::{List, Name, Orient, Text};

/// Paths with their layers and vias by number, as a database holds them: layers from 1 in the order of the
/// technology, vias as [`ViaRef`].
pub type Paths = List<Path<u32, ViaRef>>;

/// Paths with the names of their layers and vias, as texts have them.
pub type NamedPaths = List<Path<Name, Name>>;

/// A path of a wire: centre lines on one layer, with the vias and rectangles on its way. `L` says which layer,
/// `V` which via.
#[derive(Debug, Drop)]
pub struct Path<L, V> {
    /// The layer of the path.
    pub layer: L,
    /// The width, in database units; that of a plain wire is 0.
    pub width: i32,
    /// The name of the shape, empty for none.
    pub shape: Text,
    /// Whether the path is narrowed where it meets a pin.
    pub taper: Taper,
    /// Points, vias and rectangles in their order. The first is a point.
    pub elements: List<Element<V>>,
}

/// Whether a path of a plain wire is narrowed where it meets a pin.
#[derive(Debug, Drop)]
pub enum Taper {
    /// It isn't.
    None,
    /// To the layer's own width, as `TAPER` says.
    Layer,
    /// By the rule of this name, as `TAPERRULE` says.
    Rule(Text),
}

/// One element of a path after its layer. Distances are in database units.
#[derive(Debug, Drop)]
pub enum Element<V> {
    /// A point of the centre line, with how far the wire goes on beyond it where that is stated.
    Point {
        x: i32,
        y: i32,
        ext: Option<i32>,
    },
    /// A via at the last point, with its orientation where that is stated.
    Via {
        via: V,
        orient: Option<Orient>,
    },
    /// A rectangle beside the last point, by the distances of its corners from there.
    Rect {
        dx1: i32,
        dy1: i32,
        dx2: i32,
        dy2: i32,
    },
}

/// A via by its number, from 1.
#[derive(Clone, Copy, Debug, PartialEq, Eq)]
pub enum ViaRef {
    /// A via of the technology.
    Tech(u32),
    /// A via of the block.
    Block(u32),
}
