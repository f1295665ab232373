ghost use Rattle.std.specs.Prelude.{◌≡◌, ◌↔◌, IsTrue};
ghost use Rattle.wires.specs.Paths.{IsLawfulCode};
ghost use Rattle.wires.specs.Pieces.{limits_of, piece_of, suits};
ghost use Rattle.wires.specs.Reading.{IsReadable, all_suit, items_of};

use crate::elements::Elements;
use crate::item::Item;
use crate::limits::Limits;

/// Whether [`decode`](crate::decode) accepts a code and it may be that of such a wire: a plain wire has width 0
/// and no shape, and a special wire has no taper. It takes no memory.
pub fn lawful(code: &[u8], layers: u32, tech_vias: u32, block_vias: u32, special: bool) -> bool
    // It is the code of lawful paths, which may be those of such a wire.
    ensures paths { IsTrue result ↔ IsLawfulCode (limits_of layers tech_vias block_vias) special code.now }
    ensures elements { result ≡ all_suit special (items_of (limits_of layers tech_vias block_vias) code.now) }
    ensures readable { IsTrue result → IsReadable code.now }
{
    let limits = Limits {
        layers,
        tech_vias,
        block_vias,
    };
    is_lawful_within(code, limits, special)
}

fn is_lawful_within(code: &[u8], limits: Limits, special: bool) -> bool
    ensures { result ≡ all_suit special (items_of limits code.now) }
{
    let mut elements = Elements::new(code);
    'elements: loop {
        match elements.next(limits) {
            Ok(Some(item)) if suits_wire(&item, special) => {}
            Ok(None) => return true,
            Ok(Some(_)) | Err(_) => return false,
        }
    }
}

// Whether an element may stand in such a wire.
fn suits_wire(item: &Item<'_>, special: bool) -> bool
    ensures { result ≡ suits special (piece_of item.now) }
{
    match item {
        Item::Layer {
            width,
            shape,
            taper,
            ..
        } => {
            if special {
                *taper == 0
            } else {
                *width == 0 && shape.is_empty()
            }
        }
        Item::Point { .. } | Item::Via { .. } | Item::Rect { .. } => true,
    }
}
