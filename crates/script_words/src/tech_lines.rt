//! The lines of a technology, one function each. Each takes the words behind the command's word.

ghost use Rattle.script_words.specs.Commands.{layer, site, units};
ghost use Rattle.script_words.specs.Answers.{IsAnswer};
ghost use Rattle.script_words.specs.Words.{words_of};

use crate::command_words::Command;
use crate::fault::LineFault;
use crate::forms::{end, id, name, size, worded};
use bitflags::Flags;
use odb_base::LayerDirection;
use std::alloc::Global;
use tech::{Layer, Site, Symmetry};

/// `units N`, where N has the form of an identifier.
#[tactic(auto, unfolding(crate::specs::Commands::units))]
pub fn units(line: &[u8]) -> Result<Command, LineFault>
    ensures { IsAnswer result (units (words_of line.now)) }
{
    let (units, line) = id(line)?;
    end(line)?;
    Ok(Command::Units(units))
}

/// `layer NAME TYPE`.
#[tactic(auto, unfolding(crate::specs::Commands::layer))]
pub fn layer(alloc: Global, line: &[u8]) -> Result<Command, LineFault>
    ensures { IsAnswer result (layer (words_of line.now)) }
{
    let (name, line) = name(alloc, line)?;
    let (sort, line) = worded(line)?;
    end(line)?;
    Ok(Command::Layer(Layer {
        name,
        sort,
        direction: LayerDirection::None,
        pitch_x: 0,
        pitch_y: 0,
        width: 0,
        spacing: 0,
    }))
}

/// `site NAME CLASS W H`.
#[tactic(auto, unfolding(crate::specs::Commands::site))]
pub fn site(alloc: Global, line: &[u8]) -> Result<Command, LineFault>
    ensures { IsAnswer result (site (words_of line.now)) }
{
    let (name, line) = name(alloc, line)?;
    let (class, line) = worded(line)?;
    let (width, line) = size(line)?;
    let (height, line) = size(line)?;
    end(line)?;
    Ok(Command::Site(Site {
        name,
        class,
        symmetry: Symmetry::empty(),
        width,
        height,
    }))
}
