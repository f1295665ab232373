ghost use Rattle.std.specs.Prelude.{◌≡◌, ◌≢◌, ◌+◌, ◌*◌, ◌<◌, ◌≤◌, ◌==◌, ◌^◌, ℕ, IfOk, length, min, slice_index, if◌then◌else◌};
ghost use Rattle.block_store.specs.Sound.{bterm_net, iterm_net, net_terms};
ghost use Rattle.block_tables.specs.Counting.{often};
ghost use Rattle.block_tables.specs.Indexes.{CountsStanding};
ghost use Rattle.block_tables.specs.RuleNets.{term_net as net_of};

use crate::tally::count_one;
use block_store::Tables;
use std::alloc::{AllocError, Global};

// How often each terminal stands in the list of the net that it names, counted up to two, by the numbers of
// terminals.
pub(crate) fn standing(alloc: Global, tables: &Tables) -> Result<Vec<u8>, AllocError>
    requires iterms { length tables.now.iterm.slots ≤ 16777215 }
    requires nets { length tables.now.net.slots ≤ 16777215 }
    requires bterms { length tables.now.bterm.slots ≤ 16777215 }
    ensures { IfOk result (λ counts. CountsStanding tables.now counts.items) }
{
    let limit = 2 * tables.iterm.slots().len().max(tables.bterm.slots().len()) + 2;
    let mut counts = vec![in alloc; 0u8; limit]?;
    for place in 0..tables.net.slots().len() {
        let net = place as u32 + 1;
        count_list(&mut counts, tables, net, terminals_of(tables, net));
    }
    Ok(counts)
}

// The list of a net's terminals, none for an identifier without a net.
fn terminals_of(tables: &Tables, net: u32) -> &[u32]
    ensures { result.now ≡ net_terms tables.now net }
{
    match tables.net.get(net) {
        Some(net) => net.terms.items(),
        None => &[],
    }
}

// Counts those in a net's list that name the net; none of these was counted before.
fn count_list(counts: &mut Vec<u8>, tables: &Tables, net: u32, numbers: &[u32])
    requires { (number : ℕ) → net_of tables.now number ≡ net → slice_index counts.old.items number ≡ 0 }
    ensures long { length counts.new.items ≡ length counts.old.items }
    ensures counts { (number : ℕ) → number < length counts.old.items → slice_index counts.new.items number ≡ (if net_of tables.now number == net then often number numbers.now else slice_index counts.old.items number) }
{
    for number in numbers {
        count_in_net(counts, tables, net, *number);
    }
}

// Counts a terminal if it names the net.
fn count_in_net(counts: &mut Vec<u8>, tables: &Tables, net: u32, number: u32)
    ensures long { length counts.new.items ≡ length counts.old.items }
    ensures others { (other : ℕ) → other ≢ number → slice_index counts.new.items other ≡ slice_index counts.old.items other }
    ensures this { number < length counts.old.items → slice_index counts.new.items number ≡ (if net_of tables.now number == net then min 2 (slice_index counts.old.items number + 1) else slice_index counts.old.items number) }
{
    if term_net(tables, number) == net {
        count_one(counts, number);
    }
}

// The net that the terminal of a number names, 0 for none.
pub(crate) fn term_net(tables: &Tables, number: u32) -> u32
    ensures { result ≡ net_of tables.now number }
{
    if number % 2 == 0 {
        net_of_iterm(tables, number / 2)
    } else {
        net_of_bterm(tables, number / 2)
    }
}

fn net_of_iterm(tables: &Tables, id: u32) -> u32
    ensures { result ≡ iterm_net tables.now id }
{
    match tables.iterm.get(id) {
        Some(iterm) => iterm.net,
        None => 0,
    }
}

fn net_of_bterm(tables: &Tables, id: u32) -> u32
    ensures { result ≡ bterm_net tables.now id }
{
    match tables.bterm.get(id) {
        Some(bterm) => bterm.fields.net,
        None => 0,
    }
}
