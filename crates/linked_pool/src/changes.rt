ghost use Rattle.std.specs.Prelude.{◌≡◌, ◌+◌, ◌≤◌, List, ℕ};
ghost use Rattle.link_list.specs.Standing.{OthersStand, Stands};
ghost use Rattle.linked_pool.specs.Changes.{CanChange, changed, members_around, next_after, with_links};

use link_list::{Head, LinkCells, insert_before, push_front, unlink};
use odb_base::Steps;
use std::sync::ledger::Ledger;

/// A change of a list by one member.
#[derive(Clone, Copy, Debug, PartialEq, Eq)]
pub enum Change {
    /// A member enters in front.
    Enter { member: u32 },
    /// A member enters before another one, or last where none is named.
    Return { member: u32, next: Option<u32> },
    /// A member leaves.
    Leave { member: u32 },
}

/// Changes a list, and answers the member that stood after one that left. This is three steps at most.
pub fn change_list<C: LinkCells, L: Ledger>(
    cells: &mut C,
    head: &mut Head,
    change: Change,
    moves: &mut Steps<L>,
) -> Option<u32>
    ghost ids: { List ℕ }
    requires list { Stands (C.cell cells.old) (C.link_of cells.old) head.old ids }
    requires can { CanChange (C.cell cells.old) change ids }
    ensures list { Stands (C.cell cells.new) (C.link_of cells.new) head.new (changed change ids) }
    ensures next { result ≡ next_after change ids }
    ensures kept { (other : ℕ) → C.cell cells.new other ≡ C.cell cells.old other }
    ensures others { OthersStand (C.cell cells.old) (C.link_of cells.old)
        (C.cell cells.new) (C.link_of cells.new) (members_around change ids) }
    ensures cells { cells.new ≡ with_links C.with_link C.link_of change ids cells.old }
    ensures least { moves.old ≤ moves.new }
    ensures most { moves.new ≤ moves.old + 3 }
{
    match change {
        Change::Enter { member } => {
            push_front(cells, head, member, moves);
            None
        }
        Change::Return { member, next } => {
            insert_before(cells, head, member, next, moves);
            None
        }
        Change::Leave { member } => unlink(cells, head, member, moves),
    }
}
