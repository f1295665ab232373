ghost use Rattle.std.specs.Prelude.{◌≡◌, ◌↔◌, IsTrue};
ghost use Rattle.std.specs.List.{list_all, list_any};
ghost use Rattle.std.specs.Str.{bytes_eq};
ghost use Rattle.lawful_parts.specs.Lawful.{IsMaster};
ghost use Rattle.lawful_parts.specs.Tests.{are_distinct, has_lawful_rest, has_lawful_sizes, has_lawful_terminals, has_lawful_texts, is_master, is_mterm};

use crate::shapes::are_lawful_shapes;
use crate::values::{fits, in_limit, is_name};
use library::{MTerm, Master};
use tech::Tech;

/// The greatest number of terminals of a master.
pub const TERMINAL_LIMIT: usize = 65_535;

/// Whether a master may stand in a library over the technology: each value is in its set and its limit, its site and
/// its layers are there, and no two of its terminals have one name. It compares each name with those behind it.
#[tactic(auto, using(crate::proofs::MasterTests::master_is_tested))]
pub fn is_lawful_master(tech: &Tech, master: &Master) -> bool
    ensures test { result ≡ is_master tech.now master.now }
    ensures lawful { IsTrue result ↔ IsMaster tech.now master.now }
{
    tested(tech, master)
}

#[tactic(auto, unfolding(crate::specs::Tests::is_master))]
fn tested(tech: &Tech, master: &Master) -> bool
    ensures { result ≡ is_master tech.now master.now }
{
    lawful_texts(master)
        && lawful_sizes(master)
        && lawful_terminals(tech, master)
        && lawful_rest(tech, master)
}

fn lawful_texts(master: &Master) -> bool
    ensures { result ≡ has_lawful_texts master.now }
{
    is_name(&master.name) && fits(master.class.bytes()) && fits(master.foreign.bytes())
}

fn lawful_sizes(master: &Master) -> bool
    ensures { result ≡ has_lawful_sizes master.now }
{
    in_limit(master.origin_x)
        && in_limit(master.origin_y)
        && in_limit(master.width)
        && in_limit(master.height)
}

fn lawful_terminals(tech: &Tech, master: &Master) -> bool
    ensures { result ≡ has_lawful_terminals tech.now master.now }
{
    let terminals = master.terminals.items();
    terminals.len() <= TERMINAL_LIMIT && all_lawful(tech, terminals) && distinct(terminals)
}

fn all_lawful(tech: &Tech, terminals: &[MTerm]) -> bool
    ensures { result ≡ list_all (is_mterm tech.now) terminals.now }
{
    for terminal in terminals {
        if !lawful_terminal(tech, terminal) {
            return false;
        }
    }
    true
}

fn lawful_terminal(tech: &Tech, terminal: &MTerm) -> bool
    ensures { result ≡ is_mterm tech.now terminal.now }
{
    is_name(&terminal.name) && are_lawful_shapes(tech, terminal.shapes.items())
}

// No two terminals have one name.
fn distinct(terminals: &[MTerm]) -> bool
    ensures { result ≡ are_distinct terminals.now }
{
    let mut rest = terminals;
    while let [terminal, others @ ..] = rest {
        if has_name(others, terminal.name.bytes()) {
            return false;
        }
        rest = others;
    }
    true
}

fn has_name(terminals: &[MTerm], name: &[u8]) -> bool
    ensures { result ≡ list_any (λ other. bytes_eq name.now other.name) terminals.now }
{
    for terminal in terminals {
        if name == terminal.name.bytes() {
            return true;
        }
    }
    false
}

fn lawful_rest(tech: &Tech, master: &Master) -> bool
    ensures { result ≡ has_lawful_rest tech.now master.now }
{
    let [_, _, sites] = tech.counts();
    master.symmetry < 8
        && master.site <= sites
        && are_lawful_shapes(tech, master.obstructions.items())
}
