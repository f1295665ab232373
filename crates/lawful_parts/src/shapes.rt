ghost use Rattle.std.specs.Prelude.{◌≡◌, ◌↔◌, IsTrue, length};
ghost use Rattle.std.specs.List.{list_all};
ghost use Rattle.lawful_parts.specs.Lawful.{AreShapes};
ghost use Rattle.lawful_parts.specs.Tests.{are_shapes, has_lawful_corners, int_le, is_in_order, is_rect, is_shape};

use crate::values::in_limit;
use odb_base::{Rect, Shape};
use tech::Tech;

/// The greatest number of shapes in one list.
pub const SHAPE_LIMIT: usize = 1_000_000;

/// The greatest number of database units per micron.
pub const UNIT_LIMIT: u32 = 100_000;

/// Whether shapes are rectangles on layers of the technology, and no more than [`SHAPE_LIMIT`].
#[tactic(auto, using(crate::proofs::ShapeTests::shapes_are_tested))]
pub fn are_lawful_shapes(tech: &Tech, shapes: &[Shape]) -> bool
    ensures test { result ≡ are_shapes tech.now shapes.now }
    ensures lawful { IsTrue result ↔ AreShapes tech.now shapes.now }
{
    tested(tech, shapes)
}

#[tactic(auto, unfolding(crate::specs::Tests::are_shapes))]
fn tested(tech: &Tech, shapes: &[Shape]) -> bool
    ensures { result ≡ are_shapes tech.now shapes.now }
{
    let [layers, _, _] = tech.counts();
    shapes.len() <= SHAPE_LIMIT && all_lawful(tech, layers, shapes)
}

fn all_lawful(tech: &Tech, layers: u32, shapes: &[Shape]) -> bool
    requires { layers ≡ length tech.now.layers }
    ensures { result ≡ list_all (is_shape tech.now) shapes.now }
{
    for shape in shapes {
        if !is_lawful(tech, layers, shape) {
            return false;
        }
    }
    true
}

fn is_lawful(_tech: &Tech, layers: u32, shape: &Shape) -> bool
    requires { layers ≡ length _tech.now.layers }
    ensures { result ≡ is_shape _tech.now shape.now }
{
    let layer = shape.layer.0;
    1 <= layer && layer <= layers && lawful_rect(&shape.rect)
}

fn lawful_rect(rect: &Rect) -> bool
    ensures { result ≡ is_rect rect.now }
{
    lawful_corners(rect) && in_order(rect)
}

fn lawful_corners(rect: &Rect) -> bool
    ensures { result ≡ has_lawful_corners rect.now }
{
    in_limit(rect.xl) && in_limit(rect.yl) && in_limit(rect.xh) && in_limit(rect.yh)
}

// The first corner is the lower left one.
fn in_order(rect: &Rect) -> bool
    ensures { result ≡ is_in_order rect.now }
{
    at_most(rect.xl, rect.xh) && at_most(rect.yl, rect.yh)
}

fn at_most(a: i32, b: i32) -> bool
    ensures { result ≡ int_le a b }
{
    a <= b
}
