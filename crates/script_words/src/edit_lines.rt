//! The lines of edits, one function each. Each takes the words behind the command's word.

ghost use Rattle.script_words.specs.Commands.{destroy, join, last_id, make_special, new_bterm, new_inst, new_net, new_row, part, place, rename, set_dir, set_use, sites_to_end, steps_to_end, swap};
ghost use Rattle.script_words.specs.Answers.{IsAnswer};
ghost use Rattle.script_words.specs.Words.{words_of};

use crate::command_words::Command;
use crate::fault::LineFault;
use crate::forms::{end, id, number, object, text, worded};
use crate::words::next_word;
use edit_words::{Edit, RowSites};
use std::alloc::Global;

/// `new_inst NAME MASTER`.
#[tactic(auto, unfolding(crate::specs::Commands::new_inst))]
pub fn new_inst(alloc: Global, line: &[u8]) -> Result<Command, LineFault>
    ensures { IsAnswer result (new_inst (words_of line.now)) }
{
    let (name, line) = text(alloc, line)?;
    let (master, line) = text(alloc, line)?;
    end(line)?;
    Ok(Command::Edit(Edit::NewInst { name, master }))
}

/// `new_net NAME`.
#[tactic(auto, unfolding(crate::specs::Commands::new_net))]
pub fn new_net(alloc: Global, line: &[u8]) -> Result<Command, LineFault>
    ensures { IsAnswer result (new_net (words_of line.now)) }
{
    let (name, line) = text(alloc, line)?;
    end(line)?;
    Ok(Command::Edit(Edit::NewNet { name }))
}

/// `new_bterm NAME [NET]`.
#[tactic(auto, unfolding(crate::specs::Commands::new_bterm))]
pub fn new_bterm(alloc: Global, line: &[u8]) -> Result<Command, LineFault>
    ensures { IsAnswer result (new_bterm (words_of line.now)) }
{
    let (name, line) = text(alloc, line)?;
    let net = last_id(line)?;
    Ok(Command::Edit(Edit::NewBTerm { name, net }))
}

// The identifier that ends a line, or nothing.
#[tactic(auto, unfolding(crate::specs::Commands::last_id))]
fn last_id(line: &[u8]) -> Result<Option<u32>, LineFault>
    ensures { IsAnswer result (last_id (words_of line.now)) }
{
    if next_word(line).is_none() {
        return Ok(None);
    }
    let (id, line) = id(line)?;
    end(line)?;
    Ok(Some(id))
}

/// `new_row NAME SITE X Y ORIENT [NX NY [SX SY]]`.
#[tactic(auto, unfolding(crate::specs::Commands::new_row))]
pub fn new_row(alloc: Global, line: &[u8]) -> Result<Command, LineFault>
    ensures { IsAnswer result (new_row (words_of line.now)) }
{
    let (name, line) = text(alloc, line)?;
    let (site, line) = text(alloc, line)?;
    let (x, line) = number(line)?;
    let (y, line) = number(line)?;
    let (orientation, line) = worded(line)?;
    let sites = sites_to_end(line)?;
    Ok(Command::Edit(Edit::NewRow {
        name,
        site,
        x,
        y,
        orientation,
        sites,
    }))
}

// How often the site of a row is repeated, to the end of the line.
#[tactic(auto, unfolding(crate::specs::Commands::sites_to_end))]
fn sites_to_end(line: &[u8]) -> Result<RowSites, LineFault>
    ensures { IsAnswer result (sites_to_end (words_of line.now)) }
{
    if next_word(line).is_none() {
        return Ok(RowSites::One);
    }
    let (nx, line) = number(line)?;
    let (ny, line) = number(line)?;
    steps_to_end(nx, ny, line)
}

// The steps of so many sites, to the end of the line.
#[tactic(auto, unfolding(crate::specs::Commands::steps_to_end))]
fn steps_to_end(nx: i64, ny: i64, line: &[u8]) -> Result<RowSites, LineFault>
    ensures { IsAnswer result (steps_to_end nx ny (words_of line.now)) }
{
    if next_word(line).is_none() {
        return Ok(RowSites::Counted { nx, ny });
    }
    let (sx, line) = number(line)?;
    let (sy, line) = number(line)?;
    end(line)?;
    Ok(RowSites::Stepped { nx, ny, sx, sy })
}

/// `destroy KIND ID`.
#[tactic(auto, unfolding(crate::specs::Commands::destroy))]
pub fn destroy(line: &[u8]) -> Result<Command, LineFault>
    ensures { IsAnswer result (destroy (words_of line.now)) }
{
    let ((kind, id), line) = object(line)?;
    end(line)?;
    Ok(Command::Edit(Edit::Destroy { kind, id }))
}

/// `rename KIND ID NAME`.
#[tactic(auto, unfolding(crate::specs::Commands::rename))]
pub fn rename(alloc: Global, line: &[u8]) -> Result<Command, LineFault>
    ensures { IsAnswer result (rename (words_of line.now)) }
{
    let ((kind, id), line) = object(line)?;
    let (name, line) = text(alloc, line)?;
    end(line)?;
    Ok(Command::Edit(Edit::Rename { kind, id, name }))
}

/// `swap INST MASTER`.
#[tactic(auto, unfolding(crate::specs::Commands::swap))]
pub fn swap(alloc: Global, line: &[u8]) -> Result<Command, LineFault>
    ensures { IsAnswer result (swap (words_of line.now)) }
{
    let (inst, line) = id(line)?;
    let (master, line) = text(alloc, line)?;
    end(line)?;
    Ok(Command::Edit(Edit::Swap { inst, master }))
}

/// `place KIND ID STATUS X Y ORIENT`.
#[tactic(auto, unfolding(crate::specs::Commands::place))]
pub fn place(line: &[u8]) -> Result<Command, LineFault>
    ensures { IsAnswer result (place (words_of line.now)) }
{
    let ((kind, id), line) = object(line)?;
    let (status, line) = worded(line)?;
    let (x, line) = number(line)?;
    let (y, line) = number(line)?;
    let (orientation, line) = worded(line)?;
    end(line)?;
    Ok(Command::Edit(Edit::Place {
        kind,
        id,
        status,
        x,
        y,
        orientation,
    }))
}

/// `set_use KIND ID USE|-`.
#[tactic(auto, unfolding(crate::specs::Commands::set_use))]
pub fn set_use(line: &[u8]) -> Result<Command, LineFault>
    ensures { IsAnswer result (set_use (words_of line.now)) }
{
    let ((kind, id), line) = object(line)?;
    let (usage, line) = worded(line)?;
    end(line)?;
    Ok(Command::Edit(Edit::SetUse { kind, id, usage }))
}

/// `set_dir BTERM DIR|-`.
#[tactic(auto, unfolding(crate::specs::Commands::set_dir))]
pub fn set_dir(line: &[u8]) -> Result<Command, LineFault>
    ensures { IsAnswer result (set_dir (words_of line.now)) }
{
    let (bterm, line) = id(line)?;
    let (direction, line) = worded(line)?;
    end(line)?;
    Ok(Command::Edit(Edit::SetDir { bterm, direction }))
}

/// `make_special NET`.
#[tactic(auto, unfolding(crate::specs::Commands::make_special))]
pub fn make_special(line: &[u8]) -> Result<Command, LineFault>
    ensures { IsAnswer result (make_special (words_of line.now)) }
{
    let (net, line) = id(line)?;
    end(line)?;
    Ok(Command::Edit(Edit::MakeSpecial { net }))
}

/// `join KIND ID NET`.
#[tactic(auto, unfolding(crate::specs::Commands::join))]
pub fn join(line: &[u8]) -> Result<Command, LineFault>
    ensures { IsAnswer result (join (words_of line.now)) }
{
    let ((kind, id), line) = object(line)?;
    let (net, line) = crate::forms::id(line)?;
    end(line)?;
    Ok(Command::Edit(Edit::Join { kind, id, net }))
}

/// `part KIND ID`.
#[tactic(auto, unfolding(crate::specs::Commands::part))]
pub fn part(line: &[u8]) -> Result<Command, LineFault>
    ensures { IsAnswer result (part (words_of line.now)) }
{
    let ((kind, id), line) = object(line)?;
    end(line)?;
    Ok(Command::Edit(Edit::Part { kind, id }))
}
