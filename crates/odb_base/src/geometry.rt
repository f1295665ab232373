ghost use Rattle.std.specs.Prelude.{◌≡◌, ◌↔◌, IsTrue};
ghost use Rattle.odb_base.specs.Geometry.{IsCoordinate, is_coordinate, oriented};

use crate::codes::orient::Orient;
use crate::codes::place_status::PlaceStatus;
use crate::id::LayerId;

/// The greatest coordinate, distance, width or step, in database units; the least is its negative.
pub const COORDINATE_LIMIT: u32 = 2_000_000_000;

/// Whether the number is within the limit of coordinates, distances, widths and steps.
pub fn is_coordinate(n: i64) -> bool
    ensures test { result ≡ is_coordinate n }
    ensures lawful { IsTrue result ↔ IsCoordinate n }
{
    n.unsigned_abs() <= COORDINATE_LIMIT as u64
}

/// A point, in database units.
#[derive(Clone, Copy, Debug, PartialEq, Eq)]
pub struct Point {
    pub x: i32,
    pub y: i32,
}

/// A rectangle from its lower left corner to its upper right one, in database units. `xl` is at most `xh`
/// and `yl` at most `yh` wherever a database holds it.
#[derive(Clone, Copy, Debug, PartialEq, Eq)]
pub struct Rect {
    pub xl: i32,
    pub yl: i32,
    pub xh: i32,
    pub yh: i32,
}

/// A rectangle on a layer, of a via, a terminal, an obstruction or a pin.
#[derive(Clone, Copy, Debug, PartialEq, Eq)]
pub struct Shape {
    pub layer: LayerId,
    /// In the coordinates of what it is a part of.
    pub rect: Rect,
}

/// Where an instance or a pin stands, in database units. One that is unplaced stands at 0, 0 and is turned N.
#[derive(Clone, Copy, Debug, PartialEq, Eq)]
pub struct Placement {
    pub status: PlaceStatus,
    pub x: i32,
    pub y: i32,
    pub orientation: Orient,
}

impl Placement {
    /// The placement of an object that has no place.
    pub const UNPLACED: Placement = Placement {
        status: PlaceStatus::Unplaced,
        x: 0,
        y: 0,
        orientation: Orient::N,
    };
}

/// The width and height of an object of width `w` and height `h` once it is turned: exchanged for W, E, FW
/// and FE.
pub fn oriented_size(o: Orient, w: i32, h: i32) -> (i32, i32)
    ensures { result ≡ oriented o w h }
{
    match o {
        Orient::N | Orient::S | Orient::FN | Orient::FS => (w, h),
        Orient::W | Orient::E | Orient::FW | Orient::FE => (h, w),
    }
}
