ghost use Rattle.std.specs.Prelude.{◌≡◌, ◌↔◌, IsTrue, slice_index};
ghost use Rattle.block_store.specs.Sound.{net_terms};
ghost use Rattle.block_tables.specs.Indexes.{CountsStanding};
ghost use Rattle.block_tables.specs.RuleNets.{AreTerminals, term_net as net_of};

use crate::standing::term_net;
use block_store::Tables;

// Whether each number in the list of a net stands there once, for a terminal that names the net.
pub(crate) fn are_terminals(tables: &Tables, standing: &[u8], net: u32, numbers: &[u32]) -> bool
    requires counted { CountsStanding tables.now standing.now }
    requires list { numbers.now ≡ net_terms tables.now net }
    ensures { IsTrue result ↔ AreTerminals tables.now net numbers.now }
{
    for number in numbers {
        if !stands_once(tables, standing, net, *number) {
            return false;
        }
    }
    true
}

fn stands_once(tables: &Tables, standing: &[u8], net: u32, number: u32) -> bool
    ensures { IsTrue result ↔ ((net_of tables.now number ≡ net) × (slice_index standing.now number ≡ 1)) }
{
    let counted = standing.get(number as usize).copied().unwrap_or(0) == 1;
    counted && term_net(tables, number) == net
}
