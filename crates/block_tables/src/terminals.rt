ghost use Rattle.std.specs.Prelude.{◌≡◌, ◌↔◌, ◌≤◌, IsTrue, Some, slice_get, slice_index};
ghost use Rattle.block_store.specs.Sound.{inst_terms};

use block_store::Tables;

// Whether an instance has the terminal at this place.
pub(crate) fn stands_at(tables: &Tables, inst: u32, place: u32, terminal: u32) -> bool
    ensures { IsTrue result ↔ (slice_get (inst_terms tables.now inst) place ≡ Some terminal) }
{
    match tables.inst.get(inst) {
        Some(inst) => inst.fields.terminals.items().get(place as usize) == Some(&terminal),
        None => false,
    }
}

// Whether a number is counted at all.
pub(crate) fn is_counted(counts: &[u8], number: usize) -> bool
    ensures { IsTrue result ↔ (1 ≤ slice_index counts.now number) }
{
    match counts.get(number) {
        Some(count) => *count >= 1,
        None => false,
    }
}
