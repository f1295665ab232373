ghost use Rattle.std.specs.Prelude.{◌≡◌, List, Ok};
ghost use Rattle.std.specs.Iterator.{YieldsFirstBy, item_count};
ghost use Rattle.wires.specs.Pieces.{AreNumbers, Piece, piece_of};

use crate::elements::Elements;
use crate::item::Item;
use crate::limits::Limits;
use std::marker::Model;

/// The elements of a wire code, one after another. Contracts see the list of those that are left. It takes no
/// memory.
#[derive(Debug, Drop)]
pub struct Items<'a> {
    elements: Elements<'a>,
}

impl<'a> Model for Items<'a> {
    ghost use Rattle.std.specs.Prelude.{◌≡◌, List, true, is_ok};
    ghost use Rattle.wires.specs.Pieces.{Piece, widest};
    ghost use Rattle.wires.specs.Reading.{items_left, pieces_or_none};

    ghost Value = { List Piece };

    ghost view = { λ i. pieces_or_none (items_left widest i.elements.due i.elements.input) };

    ghost invariant = { λ i. is_ok (items_left widest i.elements.due i.elements.input) ≡ true };
}

impl<'a> Items<'a> {
    ghost use Rattle.wires.specs.declared.limits.Limits.{Limits as LimitsOf};
    ghost use Rattle.wires.specs.Reading.{IsReadable, items_of};

    /// The elements of a code that [`decode`](crate::decode) accepts for some numbers of layers and vias.
    pub fn new(code: &'a [u8]) -> Items<'a>
        requires { IsReadable code.now }
        ensures { (limits : LimitsOf) (pieces : List Piece) → AreNumbers limits → items_of limits code.now ≡ Ok pieces → result ≡ pieces }
    {
        Items {
            elements: Elements::new(code),
        }
    }
}

impl<'a> Iterator for Items<'a> {
    type Item = Item<'a>;

    ghost next_gives = { YieldsFirstBy piece_of (λ items. items) };

    ghost remaining = { item_count (λ items. items) };

    fn next(&mut self) -> Option<Item<'a>> {
        let Ok(item) = self.elements.next(Limits::WIDEST) else {
            return None;
        };
        item
    }
}
