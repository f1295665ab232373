//! The line of a master.

ghost use Rattle.std.specs.Prelude.{◌≡◌};
ghost use Rattle.script_words.specs.Commands.{master, terminal_at, terminals};
ghost use Rattle.script_words.specs.Answers.{IsAnswer, IsCopied};
ghost use Rattle.script_words.specs.Words.{words_of};

use crate::command_words::Command;
use crate::fault::LineFault;
use crate::forms::{name, size, worded};
use crate::words::next_word;
use library::{MTerm, Master};
use odb_base::{List, Text, Usage};
use std::alloc::Global;

/// `master NAME W H [TERM DIR|-]...`.
#[tactic(auto, unfolding(crate::specs::Commands::master))]
pub fn master(alloc: Global, line: &[u8]) -> Result<Command, LineFault>
    ensures { IsAnswer result (master (words_of line.now)) }
{
    let (name, line) = name(alloc, line)?;
    let (width, line) = size(line)?;
    let (height, line) = size(line)?;
    let terminals = terminals(alloc, line)?;
    Ok(Command::Master(Master {
        name,
        class: Text::from_vec(Vec::new(alloc)),
        origin_x: 0,
        origin_y: 0,
        width,
        height,
        symmetry: 0,
        site: 0,
        foreign: Text::from_vec(Vec::new(alloc)),
        terminals,
        obstructions: List::new(alloc),
    }))
}

// `[TERM DIR|-]...` to the end of the line
fn terminals(alloc: Global, line: &[u8]) -> Result<List<MTerm>, LineFault>
    ensures { IsAnswer result (terminals (words_of line.now)) }
{
    let mut terminals = List::new(alloc);
    let mut rest = line;
    'terminals: while next_word(rest).is_some() {
        let (terminal, others) = terminal(alloc, rest)?;
        terminals.push(terminal)?;
        rest = others;
    }
    Ok(terminals)
}

// `TERM DIR|-`
#[tactic(auto, unfolding(crate::specs::Commands::terminal_at))]
fn terminal(alloc: Global, line: &[u8]) -> Result<(MTerm, &[u8]), LineFault>
    ensures { IsCopied (terminal_at (words_of line.now)) result }
{
    let (name, line) = name(alloc, line)?;
    let (direction, line) = worded(line)?;
    let terminal = MTerm {
        name,
        direction,
        usage: Usage::None,
        shapes: List::new(alloc),
    };
    Ok((terminal, line))
}
