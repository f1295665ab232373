ghost use Rattle.std.specs.Prelude.{◌≡◌, ◌↔◌, ℕ, IsTrue, Some, slice_get};
ghost use Rattle.block_store.specs.Sound.{iterm_place};
ghost use Rattle.block_tables.specs.RuleInstances.{AreInPlace};

use block_store::Tables;

// Whether each of these terminals is there, names the instance, and has its place here as its index.
pub(crate) fn are_in_place(tables: &Tables, inst: u32, terminals: &[u32]) -> bool
    ensures { IsTrue result ↔ AreInPlace tables.now inst terminals.now }
{
    for (place, terminal) in terminals.iter().enumerate() {
        if !is_in_place(tables, inst, *terminal, place) {
            return false;
        }
    }
    true
}

fn is_in_place(tables: &Tables, inst: u32, terminal: u32, place: usize) -> bool
    ensures { IsTrue result ↔ (iterm_place tables.now terminal ≡ Some (inst, place)) }
{
    match tables.iterm.get(terminal) {
        Some(iterm) => iterm.inst == inst && iterm.index as usize == place,
        None => false,
    }
}
