use odb_base::Orient;

/// One element of a wire code. Distances are in database units.
#[derive(Clone, Copy, Debug, PartialEq, Eq)]
pub enum Item<'a> {
    /// A path begins: its layer, its width, the name of its shape or nothing, how it is tapered (0 not, 1 to the
    /// layer's own width, 2 by a rule), and the name of the rule or nothing.
    Layer {
        layer: u32,
        width: i32,
        shape: &'a [u8],
        taper: u8,
        rule: &'a [u8],
    },
    /// A point, with an extension where it is stated.
    Point {
        x: i32,
        y: i32,
        ext: Option<i32>,
    },
    /// A via of the block or of the technology at the last point.
    Via {
        block: bool,
        via: u32,
        orient: Option<Orient>,
    },
    /// A rectangle beside the last point.
    Rect {
        dx1: i32,
        dy1: i32,
        dx2: i32,
        dy2: i32,
    },
}
