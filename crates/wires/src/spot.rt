ghost use Rattle.std.specs.Prelude.{◌≡◌};
ghost use Rattle.wires.specs.PathPlaces.{ends, flaw_of, flaw_of_head, flaw_of_point, flaw_of_rect, number_at, number_in_head, number_in_point, number_in_rect};

use crate::fault::PathFlaw;
use crate::number::signed_number;
use crate::place_words::{coordinate_of_word, size_of_word};
use odb_base::Point;

/// Which word is due in a path.
#[derive(Clone, Copy, Debug, PartialEq, Eq)]
pub enum Spot {
    /// A word of what stands before the first point.
    Head(HeadSpot),
    /// A word of a point.
    Point(PointSpot),
    /// A word of a rectangle.
    Rect(RectSpot),
    /// The orientation of a via that stands last, the first word of an element, or `NEW`.
    Element,
}

/// Which word is due before the first point of a path.
#[derive(Clone, Copy, Debug, PartialEq, Eq)]
pub enum HeadSpot {
    /// The width of a special path.
    Width,
    /// `+` or the first point.
    AfterWidth,
    /// `SHAPE`.
    Shape,
    /// The name of the shape.
    ShapeName,
    /// `TAPER`, `TAPERRULE` or the first point.
    AfterLayer,
    /// The name of the rule.
    RuleName,
    /// The first point.
    Last,
}

/// Which word of a point is due.
#[derive(Clone, Copy, Debug, PartialEq, Eq)]
pub enum PointSpot {
    X,
    Y { x: i32 },
    /// An extension or `)`.
    AfterY { point: Point },
    /// `)`.
    Close { point: Point, ext: i32 },
}

/// Which word of a rectangle is due.
#[derive(Clone, Copy, Debug, PartialEq, Eq)]
pub enum RectSpot {
    Open,
    X1,
    Y1 { dx1: i32 },
    X2 { first: Point },
    Y2 { first: Point, dx2: i32 },
    /// `)`.
    Close { first: Point, second: Point },
}

impl Spot {
    /// Whether the words may end here.
    pub fn ends(self) -> bool
        ensures { result ≡ ends self }
    {
        match self {
            Spot::Element => true,
            Spot::Head(_) | Spot::Point(_) | Spot::Rect(_) => false,
        }
    }

    /// What is wrong with a word that isn't taken here.
    pub fn flaw(self) -> PathFlaw
        ensures { result ≡ flaw_of self }
    {
        match self {
            Spot::Head(spot) => spot.flaw(),
            Spot::Point(spot) => spot.flaw(),
            Spot::Rect(spot) => spot.flaw(),
            Spot::Element => PathFlaw::BadName,
        }
    }

    /// The number for which a word stands, where a number can stand.
    pub fn number(self, former: Option<Point>, word: &[u8]) -> Option<i32>
        ensures { result ≡ number_at self former word.now }
    {
        match self {
            Spot::Head(spot) => spot.number(word),
            Spot::Point(spot) => spot.number(former, word),
            Spot::Rect(spot) => spot.number(word),
            Spot::Element => None,
        }
    }
}

impl HeadSpot {
    fn flaw(self) -> PathFlaw
        ensures { result ≡ flaw_of_head self }
    {
        match self {
            HeadSpot::Width => PathFlaw::BadNumber,
            HeadSpot::ShapeName | HeadSpot::RuleName => PathFlaw::BadName,
            HeadSpot::AfterWidth | HeadSpot::Shape | HeadSpot::AfterLayer | HeadSpot::Last => {
                PathFlaw::Unexpected
            }
        }
    }

    fn number(self, word: &[u8]) -> Option<i32>
        ensures { result ≡ number_in_head self word.now }
    {
        match self {
            HeadSpot::Width => size_of_word(word),
            HeadSpot::AfterWidth
            | HeadSpot::Shape
            | HeadSpot::ShapeName
            | HeadSpot::AfterLayer
            | HeadSpot::RuleName
            | HeadSpot::Last => None,
        }
    }
}

impl PointSpot {
    fn flaw(self) -> PathFlaw
        ensures { result ≡ flaw_of_point self }
    {
        match self {
            PointSpot::X | PointSpot::Y { .. } | PointSpot::AfterY { .. } => PathFlaw::BadNumber,
            PointSpot::Close { .. } => PathFlaw::Unexpected,
        }
    }

    fn number(self, former: Option<Point>, word: &[u8]) -> Option<i32>
        ensures { result ≡ number_in_point self former word.now }
    {
        match self {
            PointSpot::X => coordinate_of_word(former.map(|p| p.x), word),
            PointSpot::Y { .. } => coordinate_of_word(former.map(|p| p.y), word),
            PointSpot::AfterY { .. } => size_of_word(word),
            PointSpot::Close { .. } => None,
        }
    }
}

impl RectSpot {
    fn flaw(self) -> PathFlaw
        ensures { result ≡ flaw_of_rect self }
    {
        match self {
            RectSpot::X1 | RectSpot::Y1 { .. } | RectSpot::X2 { .. } | RectSpot::Y2 { .. } => {
                PathFlaw::BadNumber
            }
            RectSpot::Open | RectSpot::Close { .. } => PathFlaw::Unexpected,
        }
    }

    fn number(self, word: &[u8]) -> Option<i32>
        ensures { result ≡ number_in_rect self word.now }
    {
        match self {
            RectSpot::X1 | RectSpot::Y1 { .. } | RectSpot::X2 { .. } | RectSpot::Y2 { .. } => {
                signed_number(word)
            }
            RectSpot::Open | RectSpot::Close { .. } => None,
        }
    }
}
