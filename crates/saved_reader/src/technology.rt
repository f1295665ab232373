ghost use Rattle.std.specs.Prelude.{◌≡◌};
ghost use Rattle.saved_reader.specs.Fits.{IsShort};
ghost use Rattle.saved_fields.specs.Reading.{Reads};
ghost use Rattle.saved_reader.specs.Technology.{is_no_orient as no_orient, layer_format, site_format, tech_format, via_format, via_name_field};

use crate::lists::{RECT_LIMIT, Spelled, get_list};
use crate::saved::SavedTech;
use crate::saves::{Saves, put_list};
use bitflags::Flags;
use lawful_parts::UNIT_LIMIT;
use odb_base::{Coded, Name, Orient, Worded};
use odb_fields::{Get, Put};
use saved_fields::ReadFault;
use saved_fields::fields::{
    get_coded, get_coordinate, get_flag, get_name, get_number, get_small, put_distance, put_flag,
};
use std::alloc::{AllocError, Global};
use tech::{LIST_LIMIT, Layer, Site, Symmetry, TechVia};

/// Reads a technology: its units, and layers, vias and sites, each in the order of their identifiers.
#[tactic(auto, unfolding(crate::specs::Technology::tech_format))]
pub fn get_tech(alloc: Global, input: &mut Get<'_>) -> Result<SavedTech, ReadFault>
    ensures { Reads result (tech_format.at input.old) input.new }
{
    let units = get_number(input, 0, UNIT_LIMIT)?;
    let layers = get_list(alloc, input, LIST_LIMIT)?;
    let vias = get_list(alloc, input, LIST_LIMIT)?;
    let sites = get_list(alloc, input, LIST_LIMIT)?;
    Ok(SavedTech {
        units,
        layers,
        vias,
        sites,
    })
}

impl Spelled for Layer {
    ghost format = { layer_format };

    #[tactic(auto, unfolding(crate::specs::Technology::layer_format))]
    fn get(alloc: Global, input: &mut Get<'_>) -> Result<Layer, ReadFault> {
        let name = get_name(alloc, input)?;
        let sort = get_coded(input)?;
        let direction = get_coded(input)?;
        let pitch_x = get_coordinate(input)?;
        let pitch_y = get_coordinate(input)?;
        let width = get_coordinate(input)?;
        let spacing = get_coordinate(input)?;
        Ok(Layer {
            name,
            sort,
            direction,
            pitch_x,
            pitch_y,
            width,
            spacing,
        })
    }
}

impl Saves for Layer {
    ghost bytes_of = { layer_format.bytes };

    ghost fits = { λ _. Unit {0} };

    #[tactic(auto, unfolding(crate::specs::Technology::layer_format))]
    fn put(&self, put: &mut Put<'_>) -> Result<(), AllocError> {
        put.put_text(self.name.bytes())?;
        put.put_u8(self.sort.code())?;
        put.put_u8(self.direction.code())?;
        put_distance(put, &self.pitch_x)?;
        put_distance(put, &self.pitch_y)?;
        put_distance(put, &self.width)?;
        put_distance(put, &self.spacing)?;
        Ok(())
    }
}

impl Spelled for TechVia {
    ghost format = { via_format };

    #[tactic(auto, unfolding(crate::specs::Technology::via_format))]
    fn get(alloc: Global, input: &mut Get<'_>) -> Result<TechVia, ReadFault> {
        let name = get_via_name(alloc, input)?;
        let default = get_flag(input)?;
        let shapes = get_list(alloc, input, RECT_LIMIT)?;
        Ok(TechVia {
            name,
            default,
            shapes,
        })
    }
}

impl Saves for TechVia {
    ghost bytes_of = { via_format.bytes };

    ghost fits = { λ via. IsShort via.shapes };

    #[tactic(auto, unfolding(crate::specs::Technology::via_format, crate::specs::Technology::via_name_field))]
    fn put(&self, put: &mut Put<'_>) -> Result<(), AllocError> {
        put.put_text(self.name.bytes())?;
        put_flag(put, self.default)?;
        put_list(put, self.shapes.items())?;
        Ok(())
    }
}

// Reads the name of a via, which isn't the word of an orientation.
#[tactic(auto, unfolding(crate::specs::Technology::via_name_field))]
fn get_via_name(alloc: Global, input: &mut Get<'_>) -> Result<Name, ReadFault>
    ensures { Reads result (via_name_field.at input.old) input.new }
{
    let at = input.place();
    let name = get_name(alloc, input)?;
    if is_no_orient(name.bytes()) {
        Ok(name)
    } else {
        Err(ReadFault::BadField { at })
    }
}

fn is_no_orient(word: &[u8]) -> bool
    ensures { result ≡ no_orient word.now }
{
    Orient::from_word(word).is_none()
}

impl Spelled for Site {
    ghost format = { site_format };

    #[tactic(auto, unfolding(crate::specs::Technology::site_format))]
    fn get(alloc: Global, input: &mut Get<'_>) -> Result<Site, ReadFault> {
        let name = get_name(alloc, input)?;
        let class = get_coded(input)?;
        let symmetry = get_small(input, 7)?;
        let width = get_coordinate(input)?;
        let height = get_coordinate(input)?;
        Ok(Site {
            name,
            class,
            symmetry: Symmetry::from_bits_retain(symmetry),
            width,
            height,
        })
    }
}

impl Saves for Site {
    ghost bytes_of = { site_format.bytes };

    ghost fits = { λ _. Unit {0} };

    #[tactic(auto, unfolding(crate::specs::Technology::site_format))]
    fn put(&self, put: &mut Put<'_>) -> Result<(), AllocError> {
        put.put_text(self.name.bytes())?;
        put.put_u8(self.class.code())?;
        put.put_u8(self.symmetry.bits())?;
        put_distance(put, &self.width)?;
        put_distance(put, &self.height)?;
        Ok(())
    }
}
