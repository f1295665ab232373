ghost use Rattle.std.specs.Prelude.{◌≡◌, ◌≢◌, ◌+◌, ◌≤◌, Bool, ℕ, false, true, IsTrue};
ghost use Rattle.link_list.specs.declared.link.Link.{Link};

use crate::link::Link;
use odb_base::Steps;
use std::sync::ledger::Ledger;

/// Whoever keeps the links of objects. An identifier that names one of its cells has a link there.
pub trait LinkCells {
    /// Whether an identifier names a cell.
    ghost cell: { Self → ℕ → Bool };

    /// The link in the cell of an identifier.
    ghost link_of: { Self → ℕ → Link };

    /// The cells with the link of one identifier set, and all else as it was.
    ghost with_link: { Self → ℕ → Link → Self };

    /// The link of an object.
    fn link(&self, id: u32) -> Link
        requires { IsTrue (cell self.now id) }
        ensures { result ≡ link_of self.now id };

    /// Sets the link of an object. This is one step at most.
    fn set_link<L: Ledger>(&mut self, id: u32, link: Link, moves: &mut Steps<L>)
        requires { IsTrue (cell self.old id) }
        ensures cells { self.new ≡ with_link self.old id link }
        ensures least { moves.old ≤ moves.new }
        ensures most { moves.new ≤ moves.old + 1 };

    /// 0 names no cell.
    ghost none: { (cells : Self) → cell cells 0 ≡ false };

    /// Setting a link keeps which identifiers name a cell.
    ghost kept: { (cells : Self) (id other : ℕ) (link : Link) → cell cells id ≡ true
        → cell (with_link cells id link) other ≡ cell cells other };

    /// The link that was set is there.
    ghost set: { (cells : Self) (id : ℕ) (link : Link) → cell cells id ≡ true
        → link_of (with_link cells id link) id ≡ link };

    /// No other link changes.
    ghost others: { (cells : Self) (id other : ℕ) (link : Link) → cell cells id ≡ true → other ≢ id
        → link_of (with_link cells id link) other ≡ link_of cells other };
}
