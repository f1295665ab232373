ghost use Rattle.std.specs.Prelude.{◌≡◌, ◌==◌, ◌+◌, ◌≤◌, if◌then◌else◌, ◌∷◌, List, ℕ, false, IfSome, IsTrue};
ghost use Rattle.odb_base.specs.Ids.{after, holds, placed, without};
ghost use Rattle.link_list.specs.Links.{linked_in, linked_out, with_after, with_before};
ghost use Rattle.link_list.specs.Standing.{NamesCell, OthersStand, Stands, last_or, left_of, named as named_by};

use crate::cells::LinkCells;
use crate::link::{Head, Link};
use odb_base::Steps;
use std::sync::ledger::Ledger;

/// Puts an object at the front of a list. This is two steps at most.
pub fn push_front<C: LinkCells, L: Ledger>(
    cells: &mut C,
    head: &mut Head,
    id: u32,
    moves: &mut Steps<L>,
)
    ghost ids: { List ℕ }
    requires list { Stands (C.cell cells.old) (C.link_of cells.old) head.old ids }
    requires cell { IsTrue (C.cell cells.old id) }
    requires new { holds ids id ≡ false }
    ensures list { Stands (C.cell cells.new) (C.link_of cells.new) head.new (id ∷ ids) }
    ensures kept { (other : ℕ) → C.cell cells.new other ≡ C.cell cells.old other }
    ensures others { OthersStand (C.cell cells.old) (C.link_of cells.old)
        (C.cell cells.new) (C.link_of cells.new) (id ∷ ids) }
    ensures cells { cells.new ≡ linked_in C.with_link C.link_of (id ∷ ids) id cells.old }
    ensures least { moves.old ≤ moves.new }
    ensures most { moves.new ≤ moves.old + 2 }
{
    let first = head.first;
    cells.set_link(
        id,
        Link {
            before: 0,
            after: first,
        },
        moves,
    );
    set_before(cells, first, id, moves);
    head.first = id;
}

/// Takes a member out of its list, and answers the member that stood after it. This is two steps at most.
pub fn unlink<C: LinkCells, L: Ledger>(
    cells: &mut C,
    head: &mut Head,
    id: u32,
    moves: &mut Steps<L>,
) -> Option<u32>
    ghost ids: { List ℕ }
    requires list { Stands (C.cell cells.old) (C.link_of cells.old) head.old ids }
    requires member { IsTrue (holds ids id) }
    ensures list { Stands (C.cell cells.new) (C.link_of cells.new) head.new (without id ids) }
    ensures next { result ≡ after ids id }
    ensures kept { (other : ℕ) → C.cell cells.new other ≡ C.cell cells.old other }
    ensures others { OthersStand (C.cell cells.old) (C.link_of cells.old)
        (C.cell cells.new) (C.link_of cells.new) ids }
    ensures cells { cells.new ≡ linked_out C.with_link C.link_of ids id cells.old }
    ensures least { moves.old ≤ moves.new }
    ensures most { moves.new ≤ moves.old + 2 }
{
    let link = cells.link(id);
    set_after(cells, link.before, link.after, moves);
    set_before(cells, link.after, link.before, moves);
    set_first(head, link.before, link.after);
    named(link.after)
}

/// Puts an object before a member of a list, or last where none is named. This is three steps at most.
pub fn insert_before<C: LinkCells, L: Ledger>(
    cells: &mut C,
    head: &mut Head,
    id: u32,
    next: Option<u32>,
    moves: &mut Steps<L>,
)
    ghost ids: { List ℕ }
    requires list { Stands (C.cell cells.old) (C.link_of cells.old) head.old ids }
    requires cell { IsTrue (C.cell cells.old id) }
    requires new { holds ids id ≡ false }
    requires next { IfSome next (λ member. IsTrue (holds ids member)) }
    ensures list { Stands (C.cell cells.new) (C.link_of cells.new) head.new (placed id next ids) }
    ensures kept { (other : ℕ) → C.cell cells.new other ≡ C.cell cells.old other }
    ensures others { OthersStand (C.cell cells.old) (C.link_of cells.old)
        (C.cell cells.new) (C.link_of cells.new) (placed id next ids) }
    ensures cells { cells.new ≡ linked_in C.with_link C.link_of (placed id next ids) id cells.old }
    ensures least { moves.old ≤ moves.new }
    ensures most { moves.new ≤ moves.old + 3 }
{
    let before = place(cells, *head, next);
    let after = next.unwrap_or(0);
    cells.set_link(id, Link { before, after }, moves);
    set_after(cells, before, id, moves);
    set_before(cells, after, id, moves);
    set_first(head, before, id);
}

// The member after which an object comes that is put before another, or last; 0 where it comes first.
fn place<C: LinkCells>(cells: &C, head: Head, next: Option<u32>) -> u32
    ghost ids: { List ℕ }
    requires list { Stands (C.cell cells.now) (C.link_of cells.now) head ids }
    requires next { IfSome next (λ member. IsTrue (holds ids member)) }
    ensures { result ≡ left_of ids next }
{
    match next {
        Some(next) => cells.link(next).before,
        None => last(cells, head),
    }
}

// The last member of a list, 0 where there is none. It reads the link of each.
fn last<C: LinkCells>(cells: &C, head: Head) -> u32
    ghost ids: { List ℕ }
    requires { Stands (C.cell cells.now) (C.link_of cells.now) head ids }
    ensures { result ≡ last_or 0 ids }
{
    let mut last = 0;
    let mut next = head.first;
    while next != 0 {
        last = next;
        next = cells.link(next).after;
    }
    last
}

// Sets who stands before a member; 0 names none, and nothing is set.
fn set_before<C: LinkCells, L: Ledger>(cells: &mut C, id: u32, other: u32, moves: &mut Steps<L>)
    requires { NamesCell (C.cell cells.old) id }
    ensures cells { cells.new ≡ with_before C.with_link C.link_of id other cells.old }
    ensures least { moves.old ≤ moves.new }
    ensures most { moves.new ≤ moves.old + 1 }
{
    if id != 0 {
        let after = cells.link(id).after;
        let link = Link {
            before: other,
            after,
        };
        cells.set_link(id, link, moves);
    }
}

// Sets who stands after a member; 0 names none, and nothing is set.
fn set_after<C: LinkCells, L: Ledger>(cells: &mut C, id: u32, other: u32, moves: &mut Steps<L>)
    requires { NamesCell (C.cell cells.old) id }
    ensures cells { cells.new ≡ with_after C.with_link C.link_of id other cells.old }
    ensures least { moves.old ≤ moves.new }
    ensures most { moves.new ≤ moves.old + 1 }
{
    if id != 0 {
        let before = cells.link(id).before;
        let link = Link {
            before,
            after: other,
        };
        cells.set_link(id, link, moves);
    }
}

// Sets the first member of a list, where none stands before it.
fn set_first(head: &mut Head, before: u32, first: u32)
    ensures { head.new ≡ record { first = if before == 0 then first else head.old.first } }
{
    if before == 0 {
        head.first = first;
    }
}

// The identifier that a number of a link stands for.
fn named(number: u32) -> Option<u32>
    ensures { result ≡ named_by number }
{
    if number == 0 { None } else { Some(number) }
}
