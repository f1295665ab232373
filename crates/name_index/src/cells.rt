ghost use Rattle.std.specs.Prelude.{◌≡◌, ◌≢◌, ◌+◌, ◌≤◌, Bool, List, ℕ, false, true, IsTrue};

use odb_base::Steps;
use std::sync::ledger::Ledger;

/// Whoever keeps the names and the chains of objects. An identifier that names one of its cells has both there.
pub trait ChainCells {
    /// Whether an identifier names a cell.
    ghost cell: { Self → ℕ → Bool };

    /// The name in the cell of an identifier.
    ghost name_of: { Self → ℕ → List ℕ };

    /// The chain in the cell of an identifier: the identifier that comes after it, 0 for none.
    ghost chain_of: { Self → ℕ → ℕ };

    /// The cells with the chain of one identifier set, and all else as it was.
    ghost with_chain: { Self → ℕ → ℕ → Self };

    /// The name of an object.
    fn name(&self, id: u32) -> &[u8]
        requires { IsTrue (cell self.now id) }
        ensures { result.now ≡ name_of self.now id };

    /// The object after another in its chain, 0 for none.
    fn chain(&self, id: u32) -> u32
        requires { IsTrue (cell self.now id) }
        ensures { result ≡ chain_of self.now id };

    /// Sets which object comes after another in its chain. This is one step at most.
    fn set_chain<L: Ledger>(&mut self, id: u32, next: u32, moves: &mut Steps<L>)
        requires { IsTrue (cell self.old id) }
        ensures cells { self.new ≡ with_chain self.old id next }
        ensures least { moves.old ≤ moves.new }
        ensures most { moves.new ≤ moves.old + 1 };

    /// 0 names no cell.
    ghost none: { (cells : Self) → cell cells 0 ≡ false };

    /// Setting a chain keeps which identifiers name a cell.
    ghost kept: { (cells : Self) (id other next : ℕ) → cell cells id ≡ true
        → cell (with_chain cells id next) other ≡ cell cells other };

    /// No name changes.
    ghost named: { (cells : Self) (id other next : ℕ) → cell cells id ≡ true
        → name_of (with_chain cells id next) other ≡ name_of cells other };

    /// The chain that was set is there.
    ghost set: { (cells : Self) (id next : ℕ) → cell cells id ≡ true
        → chain_of (with_chain cells id next) id ≡ next };

    /// No other chain changes.
    ghost others: { (cells : Self) (id other next : ℕ) → cell cells id ≡ true → other ≢ id
        → chain_of (with_chain cells id next) other ≡ chain_of cells other };
}
