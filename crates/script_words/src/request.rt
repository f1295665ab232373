ghost use Rattle.std.specs.Prelude.{◌≡◌, ◌==◌, slice_index};
ghost use Rattle.script_words.specs.Commands.{IsRequest, line_of, named, request_of};
ghost use Rattle.script_words.specs.Answers.{IsAnswer};
ghost use Rattle.script_words.specs.Words.{words_of};

use crate::command_words::Command;
use crate::edit_lines::{
    destroy, join, make_special, new_bterm, new_inst, new_net, new_row, part, place, rename,
    set_dir, set_use, swap,
};
use crate::fault::LineFault;
use crate::master_line::master;
use crate::query_lines::{
    counts, eco_begin, eco_undo, find, free, list, load, read_lef, save, terms,
};
use crate::tech_lines::{layer, site, units};
use crate::verb::Verb;
use crate::words::next_word;
use std::alloc::Global;

/// The command of a line, which has no LF. A blank line, and a line whose first word begins with `#`, asks
/// for nothing.
#[tactic(auto, unfolding(crate::specs::Commands::request_of))]
pub fn command(alloc: Global, line: &[u8]) -> Result<Option<Command>, LineFault>
    ensures { IsRequest result (request_of line.now) }
{
    let Some((word, words)) = next_word(line) else {
        return Ok(None);
    };
    if is_comment(word) {
        return Ok(None);
    }
    Ok(Some(named(alloc, word, words)?))
}

fn is_comment(word: &[u8]) -> bool
    ensures { result ≡ (slice_index word.now 0 == 35) }
{
    word.first() == Some(&b'#')
}

// The command of this word, with the words behind it.
#[tactic(auto, unfolding(crate::specs::Commands::named))]
fn named(alloc: Global, word: &[u8], words: &[u8]) -> Result<Command, LineFault>
    ensures { IsAnswer result (named word.now (words_of words.now)) }
{
    let verb = Verb::of(word).ok_or(LineFault::UnknownCommand)?;
    line_of(alloc, verb, words)
}

// The command of this verb, with the words behind it.
#[tactic(auto, unfolding(crate::specs::Commands::line_of))]
fn line_of(alloc: Global, verb: Verb, words: &[u8]) -> Result<Command, LineFault>
    ensures { IsAnswer result (line_of verb (words_of words.now)) }
{
    match verb {
        Verb::NewInst => new_inst(alloc, words),
        Verb::NewNet => new_net(alloc, words),
        Verb::NewBTerm => new_bterm(alloc, words),
        Verb::NewRow => new_row(alloc, words),
        Verb::Destroy => destroy(words),
        Verb::Rename => rename(alloc, words),
        Verb::Swap => swap(alloc, words),
        Verb::Place => place(words),
        Verb::SetUse => set_use(words),
        Verb::SetDir => set_dir(words),
        Verb::MakeSpecial => make_special(words),
        Verb::Join => join(words),
        Verb::Part => part(words),
        Verb::Units => units(words),
        Verb::Layer => layer(alloc, words),
        Verb::Site => site(alloc, words),
        Verb::Master => master(alloc, words),
        Verb::ReadLef => read_lef(alloc, words),
        Verb::Find => find(alloc, words),
        Verb::List => list(words),
        Verb::Free => free(words),
        Verb::Counts => counts(words),
        Verb::Terms => terms(words),
        Verb::Save => save(alloc, words),
        Verb::Load => load(alloc, words),
        Verb::EcoBegin => eco_begin(words),
        Verb::EcoUndo => eco_undo(words),
    }
}
