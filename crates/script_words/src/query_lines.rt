//! The lines of queries, of files, and the other lines without names to be entered, one function each. Each takes the
//! words behind the command's word.

ghost use Rattle.std.specs.Prelude.{◌≡◌};
ghost use Rattle.script_words.specs.Commands.{bare, find, free, last_file, list, on_file, save, terms};
ghost use Rattle.script_words.specs.declared.command_words.Command.TheVariants as command;
ghost use Rattle.script_words.specs.Answers.{IsAnswer};
ghost use Rattle.script_words.specs.Words.{words_of};

use crate::command_words::Command;
use crate::fault::LineFault;
use crate::file_name::FileName;
use crate::forms::{end, file, id, named_kind, text, worded};
use crate::words::next_word;
use std::alloc::Global;

/// `find KIND NAME`.
#[tactic(auto, unfolding(crate::specs::Commands::find))]
pub fn find(alloc: Global, line: &[u8]) -> Result<Command, LineFault>
    ensures { IsAnswer result (find (words_of line.now)) }
{
    let (kind, line) = named_kind(line)?;
    let (name, line) = text(alloc, line)?;
    end(line)?;
    Ok(Command::Find { kind, name })
}

/// `list KIND`.
#[tactic(auto, unfolding(crate::specs::Commands::list))]
pub fn list(line: &[u8]) -> Result<Command, LineFault>
    ensures { IsAnswer result (list (words_of line.now)) }
{
    let (kind, line) = worded(line)?;
    end(line)?;
    Ok(Command::List { kind })
}

/// `free KIND`.
#[tactic(auto, unfolding(crate::specs::Commands::free))]
pub fn free(line: &[u8]) -> Result<Command, LineFault>
    ensures { IsAnswer result (free (words_of line.now)) }
{
    let (kind, line) = worded(line)?;
    end(line)?;
    Ok(Command::Free { kind })
}

/// `terms NET`.
#[tactic(auto, unfolding(crate::specs::Commands::terms))]
pub fn terms(line: &[u8]) -> Result<Command, LineFault>
    ensures { IsAnswer result (terms (words_of line.now)) }
{
    let (net, line) = id(line)?;
    end(line)?;
    Ok(Command::Terms { net })
}

/// `save -` or `save FILE`.
#[tactic(auto, unfolding(crate::specs::Commands::save))]
pub fn save(alloc: Global, line: &[u8]) -> Result<Command, LineFault>
    ensures { IsAnswer result (save (words_of line.now)) }
{
    match next_word(line) {
        None => Err(LineFault::BadWords),
        Some((word, rest)) if word == b"-".as_slice() => save_shown(rest),
        Some(_) => save_to(alloc, line),
    }
}

// `save FILE`, behind the command's word.
#[tactic(auto, unfolding(crate::specs::Commands::on_file))]
fn save_to(alloc: Global, line: &[u8]) -> Result<Command, LineFault>
    ensures { IsAnswer result (on_file command.Save (words_of line.now)) }
{
    let file = last_file(alloc, line)?;
    Ok(Command::Save { file })
}

/// `load FILE`.
#[tactic(auto, unfolding(crate::specs::Commands::on_file))]
pub fn load(alloc: Global, line: &[u8]) -> Result<Command, LineFault>
    ensures { IsAnswer result (on_file command.Load (words_of line.now)) }
{
    let file = last_file(alloc, line)?;
    Ok(Command::Load { file })
}

/// `read_lef FILE`.
#[tactic(auto, unfolding(crate::specs::Commands::on_file))]
pub fn read_lef(alloc: Global, line: &[u8]) -> Result<Command, LineFault>
    ensures { IsAnswer result (on_file command.ReadLef (words_of line.now)) }
{
    let file = last_file(alloc, line)?;
    Ok(Command::ReadLef { file })
}

// The name of a file that ends the line.
#[tactic(auto, unfolding(crate::specs::Commands::last_file))]
fn last_file(alloc: Global, line: &[u8]) -> Result<FileName, LineFault>
    ensures { IsAnswer result (last_file (words_of line.now)) }
{
    let (file, line) = file(alloc, line)?;
    end(line)?;
    Ok(file)
}

// `save -`, behind both words.
#[tactic(auto, unfolding(crate::specs::Commands::bare))]
fn save_shown(line: &[u8]) -> Result<Command, LineFault>
    ensures { IsAnswer result (bare command.SaveShown (words_of line.now)) }
{
    end(line)?;
    Ok(Command::SaveShown)
}

/// `counts`.
#[tactic(auto, unfolding(crate::specs::Commands::bare))]
pub fn counts(line: &[u8]) -> Result<Command, LineFault>
    ensures { IsAnswer result (bare command.Counts (words_of line.now)) }
{
    end(line)?;
    Ok(Command::Counts)
}

/// `eco_begin`.
#[tactic(auto, unfolding(crate::specs::Commands::bare))]
pub fn eco_begin(line: &[u8]) -> Result<Command, LineFault>
    ensures { IsAnswer result (bare command.EcoBegin (words_of line.now)) }
{
    end(line)?;
    Ok(Command::EcoBegin)
}

/// `eco_undo`.
#[tactic(auto, unfolding(crate::specs::Commands::bare))]
pub fn eco_undo(line: &[u8]) -> Result<Command, LineFault>
    ensures { IsAnswer result (bare command.EcoUndo (words_of line.now)) }
{
    end(line)?;
    Ok(Command::EcoUndo)
}
