ghost use Rattle.std.specs.Prelude.{◌≡◌, IfOk};
ghost use Rattle.ld_reader.specs.Rules.{Gives};
ghost use Rattle.def_reader.specs.Headers.{bus_at, divider_at, stated_in, units_at};

use def_drafts::values::{rect, text_at};
use def_forms::{Flaw, Statement, bus_of, divider_of};
use def_tree::DefTree;
use ld_forms::{Kept, per_micron_of};
use ld_reader::Stop;
use odb_base::Text;
use std::alloc::{AllocError, Global};

/// Puts what a statement outside all sections says into the tree. Of several the last stands.
#[tactic(auto, unfolding(crate::specs::Headers::stated_in))]
pub fn state(
    alloc: Global,
    statement: Statement,
    words: &Kept,
    tree: &mut DefTree,
) -> Result<(), Stop<Flaw>>
    ensures { Gives (stated_in statement words.now tree.old) tree.new result }
{
    match statement {
        Statement::Divider => tree.divider = divider(alloc, words)?,
        Statement::Bus => tree.bus = bus(alloc, words)?,
        Statement::Design => tree.design = text_at(alloc, words, 0)?,
        Statement::Units => tree.units = units(words),
        Statement::Die => tree.die = Some(rect(words)),
        _ => {}
    }
    Ok(())
}

fn divider(alloc: Global, words: &Kept) -> Result<Text, AllocError>
    ensures { IfOk result (λ text. text ≡ divider_at words.now) }
{
    match words.get(0) {
        Some(word) => Text::new(alloc, divider_of(word).unwrap_or(b"")),
        None => Text::new(alloc, b""),
    }
}

fn bus(alloc: Global, words: &Kept) -> Result<Text, AllocError>
    ensures { IfOk result (λ text. text ≡ bus_at words.now) }
{
    match words.get(0) {
        Some(word) => Text::new(alloc, bus_of(word).unwrap_or(b"")),
        None => Text::new(alloc, b""),
    }
}

fn units(words: &Kept) -> u32
    ensures { result ≡ units_at words.now }
{
    match words.get(0) {
        Some(word) => per_micron_of(word).unwrap_or(0),
        None => 0,
    }
}
