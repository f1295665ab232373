ghost use Rattle.std.specs.Prelude.{◌≡◌, ◌++◌, OnOk};
ghost use Rattle.odb_fields.specs.Putting.{KeepsVector, bytes_in};
ghost use Rattle.saved_reader.specs.Fits.{FitsMaster, IsShort};
ghost use Rattle.saved_reader.specs.Library.{extent_field, extent_of, library_format, master_format, mterm_format};
ghost use Rattle.saved_fields.specs.Reading.{Reads, ReadsAs};

use crate::lists::{RECT_LIMIT, Spelled, get_list};
use crate::saves::{Saves, put_list};
use library::{MASTER_LIMIT, MTerm, Master};
use odb_base::{Coded, List};
use odb_fields::{Get, Put};
use saved_fields::ReadFault;
use saved_fields::fields::{
    get_any_text, get_coded, get_coordinate, get_id, get_name, get_small, put_distance,
};
use std::alloc::{AllocError, Global};

// The greatest number of terminals of a master.
const TERMINAL_LIMIT: u32 = 65_535;

/// Reads the masters of a library, in the order of their identifiers.
#[tactic(auto, unfolding(crate::specs::Library::library_format))]
pub fn get_library(alloc: Global, input: &mut Get<'_>) -> Result<List<Master>, ReadFault>
    ensures { Reads result (library_format.at input.old) input.new }
{
    get_list(alloc, input, MASTER_LIMIT)
}

impl Spelled for Master {
    ghost format = { master_format };

    #[tactic(auto, unfolding(crate::specs::Library::master_format))]
    fn get(alloc: Global, input: &mut Get<'_>) -> Result<Master, ReadFault> {
        let name = get_name(alloc, input)?;
        let class = get_any_text(alloc, input)?;
        let extent = get_extent(input)?;
        let symmetry = get_small(input, 7)?;
        let site = get_id(input)?;
        let foreign = get_any_text(alloc, input)?;
        let terminals = get_list(alloc, input, TERMINAL_LIMIT)?;
        let obstructions = get_list(alloc, input, RECT_LIMIT)?;
        Ok(Master {
            name,
            class,
            origin_x: extent.origin_x,
            origin_y: extent.origin_y,
            width: extent.width,
            height: extent.height,
            symmetry,
            site,
            foreign,
            terminals,
            obstructions,
        })
    }
}

impl Saves for Master {
    ghost bytes_of = { master_format.bytes };

    ghost fits = { FitsMaster };

    #[tactic(auto, unfolding(crate::specs::Library::master_format))]
    fn put(&self, put: &mut Put<'_>) -> Result<(), AllocError> {
        put.put_text(self.name.bytes())?;
        put.put_text(self.class.bytes())?;
        put_extent(put, self)?;
        put.put_u8(self.symmetry)?;
        put.put_u32(self.site)?;
        put.put_text(self.foreign.bytes())?;
        put_list(put, self.terminals.items())?;
        put_list(put, self.obstructions.items())?;
        Ok(())
    }
}

// The origin, and the size.
#[tactic(auto, unfolding(crate::specs::Library::extent_field))]
fn put_extent(put: &mut Put<'_>, master: &Master) -> Result<(), AllocError>
    ensures ok { OnOk result (bytes_in put.new ≡ bytes_in put.old ++ extent_field.bytes (extent_of master.now)) }
    ensures vector { KeepsVector put.old put.new }
{
    put_distance(put, &master.origin_x)?;
    put_distance(put, &master.origin_y)?;
    put_distance(put, &master.width)?;
    put_distance(put, &master.height)?;
    Ok(())
}

// The origin of a master, and its size.
#[derive(Clone, Copy)]
struct Extent {
    origin_x: i32,
    origin_y: i32,
    width: i32,
    height: i32,
}

#[tactic(auto, unfolding(crate::specs::Library::extent_field))]
fn get_extent(input: &mut Get<'_>) -> Result<Extent, ReadFault>
    ensures { ReadsAs (λ e. (((e.origin_x, e.origin_y), e.width), e.height)) result (extent_field.at input.old) input.new }
{
    let origin_x = get_coordinate(input)?;
    let origin_y = get_coordinate(input)?;
    let width = get_coordinate(input)?;
    let height = get_coordinate(input)?;
    Ok(Extent {
        origin_x,
        origin_y,
        width,
        height,
    })
}

impl Spelled for MTerm {
    ghost format = { mterm_format };

    #[tactic(auto, unfolding(crate::specs::Library::mterm_format))]
    fn get(alloc: Global, input: &mut Get<'_>) -> Result<MTerm, ReadFault> {
        let name = get_name(alloc, input)?;
        let direction = get_coded(input)?;
        let usage = get_coded(input)?;
        let shapes = get_list(alloc, input, RECT_LIMIT)?;
        Ok(MTerm {
            name,
            direction,
            usage,
            shapes,
        })
    }
}

impl Saves for MTerm {
    ghost bytes_of = { mterm_format.bytes };

    ghost fits = { λ terminal. IsShort terminal.shapes };

    #[tactic(auto, unfolding(crate::specs::Library::mterm_format))]
    fn put(&self, put: &mut Put<'_>) -> Result<(), AllocError> {
        put.put_text(self.name.bytes())?;
        put.put_u8(self.direction.code())?;
        put.put_u8(self.usage.code())?;
        put_list(put, self.shapes.items())?;
        Ok(())
    }
}
