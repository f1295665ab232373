// Laws of lists of identifiers and of heads that stand for them. Each is the contract of a function that does
// nothing.

ghost use Rattle.std.specs.Prelude.{◌≡◌, ◌≤◌, List, ℕ, true};
ghost use Rattle.odb_base.specs.Ids.{IsDistinct, after, holds, placed, without};
ghost use Rattle.link_list.specs.Standing.{Stands, members_from};
ghost use Rattle.link_list.specs.declared.link.Head.{Head as head};

use crate::cells::LinkCells;

/// A member that left a list and is put before the member that stood after it, or last where there was none,
/// is back in its place.
pub fn put_back()
    ensures { (ids : List ℕ) (id : ℕ) → IsDistinct ids → holds ids id ≡ true
        → placed id (after ids id) (without id ids) ≡ ids }
{}

/// The list that a head stands for is read off the links, so it stands for one list. No more members need to
/// be read than the greatest identifier of a cell.
pub fn read_off<C: LinkCells>()
    ensures { (cells : C) (list : head) (ids : List ℕ) (most : ℕ)
        → ((id : ℕ) → C.cell cells id ≡ true → id ≤ most)
        → Stands (C.cell cells) (C.link_of cells) list ids
        → members_from (C.link_of cells) most list.first ≡ ids }
{}
