ghost use Rattle.std.specs.Prelude.{◌≡◌};
ghost use Rattle.edit_words.specs.declared.part.TechPart.TheVariants as part;
ghost use Rattle.tech_parts.specs.Adding.{cause_of as why_not, first_cause, units_cause};

use crate::fault::PartCause;
use block_store::Database;
use edit_words::TechPart;
use lawful_parts::{UNIT_LIMIT, is_lawful_layer, is_lawful_master, is_lawful_site, is_lawful_via};
use library::{MASTER_LIMIT, Master};
use tech::{LIST_LIMIT, Layer, Site, TechVia};

// Why a part isn't entered, if it isn't.
pub fn cause_of(db: &Database, part: &TechPart) -> Option<PartCause>
    ensures { result ≡ why_not db.now part.now }
{
    match part {
        TechPart::Units(units) => of_units(db, *units),
        TechPart::Layer(layer) => of_layer(db, layer),
        TechPart::Via(via) => of_via(db, via),
        TechPart::Site(site) => of_site(db, site),
        TechPart::Master(master) => of_master(db, master),
    }
}

#[tactic(auto, unfolding(crate::specs::Adding::cause_of))]
fn of_units(db: &Database, got: u32) -> Option<PartCause>
    ensures { result ≡ why_not db.now (part.Units got) }
{
    units_after(db.tech.units(), got)
}

fn units_after(had: u32, got: u32) -> Option<PartCause>
    ensures { result ≡ units_cause had got }
{
    if had != 0 && had != got {
        return Some(PartCause::UnitsChanged { had, got });
    }
    if 1 <= got && got <= UNIT_LIMIT {
        return None;
    }
    Some(PartCause::BadPart)
}

#[tactic(auto, using(crate::proofs::Causes::found_some), unfolding(crate::specs::Adding::cause_of))]
fn of_layer(db: &Database, layer: &Layer) -> Option<PartCause>
    ensures { result ≡ why_not db.now (part.Layer layer.now) }
{
    let [layers, _, _] = db.tech.counts();
    let taken = db.tech.find_layer(layer.name.bytes()).is_some();
    first_of(taken, is_lawful_layer(layer), LIST_LIMIT <= layers)
}

#[tactic(auto, using(crate::proofs::Causes::found_some), unfolding(crate::specs::Adding::cause_of))]
fn of_via(db: &Database, via: &TechVia) -> Option<PartCause>
    ensures { result ≡ why_not db.now (part.Via via.now) }
{
    let [_, vias, _] = db.tech.counts();
    let taken = db.tech.find_via(via.name.bytes()).is_some();
    first_of(taken, is_lawful_via(&db.tech, via), LIST_LIMIT <= vias)
}

#[tactic(auto, using(crate::proofs::Causes::found_some), unfolding(crate::specs::Adding::cause_of))]
fn of_site(db: &Database, site: &Site) -> Option<PartCause>
    ensures { result ≡ why_not db.now (part.Site site.now) }
{
    let [_, _, sites] = db.tech.counts();
    let taken = db.tech.find_site(site.name.bytes()).is_some();
    first_of(taken, is_lawful_site(site), LIST_LIMIT <= sites)
}

#[tactic(auto, using(crate::proofs::Causes::found_some), unfolding(crate::specs::Adding::cause_of))]
fn of_master(db: &Database, master: &Master) -> Option<PartCause>
    ensures { result ≡ why_not db.now (part.Master master.now) }
{
    let taken = db.library.find_master(master.name.bytes()).is_some();
    let lawful = is_lawful_master(&db.tech, master);
    first_of(taken, lawful, MASTER_LIMIT <= db.library.count())
}

fn first_of(taken: bool, lawful: bool, full: bool) -> Option<PartCause>
    ensures { result ≡ first_cause taken lawful full }
{
    if taken {
        return Some(PartCause::NameTaken);
    }
    if !lawful {
        return Some(PartCause::BadPart);
    }
    if full { Some(PartCause::Full) } else { None }
}
