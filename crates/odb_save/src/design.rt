ghost use Rattle.std.specs.Prelude.{◌≡◌, ◌≤◌, ◌++◌, IfErr, IfOk, OnOk, map};
ghost use Rattle.edit_words.specs.declared.part.TechPart.{TechPart as AnyPart};
ghost use Rattle.edit_words.specs.declared.part.TechPart.TheVariants as part;
ghost use Rattle.odb_save.specs.Design.{parts_of as all_parts};
ghost use Rattle.odb_save.specs.Loading.{IsDesignFault};

use crate::load_fault::LoadFault;
use block_store::Database;
use edit_words::TechPart;
use library::Master;
use odb_base::List;
use saved_reader::SavedTech;
use std::alloc::{AllocError, Global};
use tech::{Layer, Site, TechVia};
use tech_parts::add_parts;

// The database without objects of this technology and these masters. It comes only where they are lawful, since each
// database is sound.
pub fn make_design(
    alloc: Global,
    tech: SavedTech,
    library: List<Master>,
    cap: u32,
) -> Result<Database, LoadFault>
    requires limit { cap ≤ 16777215 }
    requires units { tech.units ≤ 100000 }
    ensures tech { IfOk result (λ db. db.tech ≡ tech) }
    ensures library { IfOk result (λ db. db.library ≡ library) }
    ensures err { IfErr result (IsDesignFault tech library) }
{
    let units = tech.units;
    let parts = parts_of(alloc, tech, library)?;
    let mut db = Database::new(alloc, cap)?;
    db.set_units(units);
    match add_parts(&mut db, parts) {
        Ok(_) => Ok(db),
        Err(fault) => {
            drop(db);
            Err(LoadFault::from(fault))
        }
    }
}

// Layers, vias, sites and masters as parts, in this order.
fn parts_of(
    alloc: Global,
    tech: SavedTech,
    library: List<Master>,
) -> Result<Vec<TechPart>, AllocError>
    ensures { IfOk result (λ parts. parts.items ≡ all_parts tech library) }
{
    let SavedTech {
        units: _,
        layers,
        vias,
        sites,
    } = tech;
    let mut parts = Vec::new(alloc);
    push_all(&mut parts, layers)?;
    push_all(&mut parts, vias)?;
    push_all(&mut parts, sites)?;
    push_all(&mut parts, library)?;
    Ok(parts)
}

// What is a part of a technology or a library.
trait Part: Drop {
    ghost part_of: { Self → AnyPart };

    fn into_part(self) -> TechPart
        ensures { result ≡ part_of self };
}

impl Part for Layer {
    ghost part_of = { λ layer. part.Layer layer };

    fn into_part(self) -> TechPart {
        TechPart::Layer(self)
    }
}

impl Part for TechVia {
    ghost part_of = { λ via. part.Via via };

    fn into_part(self) -> TechPart {
        TechPart::Via(self)
    }
}

impl Part for Site {
    ghost part_of = { λ site. part.Site site };

    fn into_part(self) -> TechPart {
        TechPart::Site(self)
    }
}

impl Part for Master {
    ghost part_of = { λ master. part.Master master };

    fn into_part(self) -> TechPart {
        TechPart::Master(self)
    }
}

// Puts the things of a list last as parts, in their order.
fn push_all<T: Part>(parts: &mut Vec<TechPart>, things: List<T>) -> Result<(), AllocError>
    ensures { OnOk result (parts.new.items ≡ parts.old.items ++ map T.part_of things) }
{
    for thing in things.into_vec() {
        parts.push(thing.into_part())?;
    }
    Ok(())
}
