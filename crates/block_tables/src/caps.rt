ghost use Rattle.std.specs.Prelude.{◌≡◌, ◌≤◌, false, IsTrue};
ghost use Rattle.odb_base.specs.declared.codes.kind.Kind.{Kind as AnyKind};
ghost use Rattle.block_store.specs.Block.{slots_in};

use block_store::Tables;
use odb_base::{Coded, Kind};

/// Whether no table has more than `cap` slots.
pub fn fits(tables: &Tables, cap: u32) -> bool
    ensures within { IsTrue result → (k : AnyKind) → slots_in k tables.now ≤ cap }
    ensures past { result ≡ false → ((k : AnyKind) → slots_in k tables.now ≤ cap) → ⊥ }
{
    for kind in Kind::every() {
        if tables.slots(*kind) > cap as usize {
            return false;
        }
    }
    true
}
