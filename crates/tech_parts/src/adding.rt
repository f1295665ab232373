ghost use Rattle.std.specs.Prelude.{◌≡◌, None, Ok, IfErr, IfOk, OnErr, OnOk};
ghost use Rattle.edit_words.specs.declared.part.TechPart.TheVariants as part;
ghost use Rattle.tech_parts.specs.Adding.{IsFault, IsFaultAt, added_by, cause_of as why_not, last_id, last_id_in, with_part, with_parts};
ghost use Rattle.tech_parts.specs.Standing.{HasAtLeast, HasMoreParts, added_after};

use crate::fault::PartFault;
use crate::judging::cause_of;
use crate::standing::Standing;
use block_store::Database;
use edit_words::TechPart;
use library::Master;
use std::alloc::AllocError;
use tech::{Layer, Site, TechVia};

/// How many parts of each sort were entered.
#[derive(Clone, Copy, Debug, PartialEq, Eq)]
pub struct Added {
    pub layers: u32,
    pub vias: u32,
    pub sites: u32,
    pub masters: u32,
    /// The identifier of the last part, 0 where that is units or there is no part.
    pub last: u32,
}

/// Enters parts into the technology and the library, in their order and each judged with those before it entered, or
/// answers why the first that can't be isn't. Units that stand already may be stated again. A refusal leaves the
/// database as it was.
pub fn add_parts(db: &mut Database, parts: Vec<TechPart>) -> Result<Added, PartFault>
    ensures ok { OnOk result (with_parts 0 parts.items db.old ≡ Ok db.new) }
    ensures added { IfOk result (λ added. added ≡ added_by parts.items db.old db.new) }
    ensures fault { IfErr result (IsFault (with_parts 0 parts.items db.old)) }
    ensures err { OnErr result (db.new ≡ db.old) }
{
    let before = Standing::of(db);
    match enter_all(db, parts) {
        Ok(last) => Ok(added_since(before, db, last)),
        Err(fault) => {
            before.restore(db);
            Err(fault)
        }
    }
}

// Enters parts as far as they go, and answers the identifier of the last.
fn enter_all(db: &mut Database, parts: Vec<TechPart>) -> Result<u32, PartFault>
    ensures ok { OnOk result (with_parts 0 parts.items db.old ≡ Ok db.new) }
    ensures last { IfOk result (λ last. last ≡ last_id_in parts.items db.new) }
    ensures fault { IfErr result (IsFault (with_parts 0 parts.items db.old)) }
    ensures more { HasMoreParts db.old db.new }
{
    let mut at: u64 = 0;
    let mut last = 0;
    for part in parts {
        at += 1;
        last = enter(at, db, part)?;
    }
    Ok(last)
}

// Enters the part at this place, and answers its identifier.
fn enter(at: u64, db: &mut Database, part: TechPart) -> Result<u32, PartFault>
    ensures may { OnOk result (why_not db.old part ≡ None) }
    ensures ok { OnOk result (db.new ≡ with_part part db.old) }
    ensures id { IfOk result (λ id. id ≡ last_id db.new part) }
    ensures fault { IfErr result (IsFaultAt at (why_not db.old part)) }
    ensures err { OnErr result (db.new ≡ db.old) }
{
    if let Some(cause) = cause_of(db, &part) {
        drop(part);
        return Err(cause.at(at));
    }
    let id = put(db, part)?;
    Ok(id)
}

// Puts a part last that may be entered, and answers its identifier. A refusal leaves the database as it was.
fn put(db: &mut Database, part: TechPart) -> Result<u32, AllocError>
    requires { why_not db.old part ≡ None }
    ensures ok { OnOk result (db.new ≡ with_part part db.old) }
    ensures id { IfOk result (λ id. id ≡ last_id db.new part) }
    ensures err { OnErr result (db.new ≡ db.old) }
{
    match part {
        TechPart::Units(units) => {
            db.set_units(units);
            Ok(0)
        }
        TechPart::Layer(layer) => put_layer(db, layer),
        TechPart::Via(via) => put_via(db, via),
        TechPart::Site(site) => put_site(db, site),
        TechPart::Master(master) => put_master(db, master),
    }
}

fn put_layer(db: &mut Database, layer: Layer) -> Result<u32, AllocError>
    requires { why_not db.old (part.Layer layer) ≡ None }
    ensures ok { OnOk result (db.new ≡ with_part (part.Layer layer) db.old) }
    ensures id { IfOk result (λ id. id ≡ last_id db.new (part.Layer layer)) }
    ensures err { OnErr result (db.new ≡ db.old) }
{
    let id = db.add_layer(layer)?;
    Ok(id.0)
}

fn put_via(db: &mut Database, via: TechVia) -> Result<u32, AllocError>
    requires { why_not db.old (part.Via via) ≡ None }
    ensures ok { OnOk result (db.new ≡ with_part (part.Via via) db.old) }
    ensures id { IfOk result (λ id. id ≡ last_id db.new (part.Via via)) }
    ensures err { OnErr result (db.new ≡ db.old) }
{
    let id = db.add_via(via)?;
    Ok(id.0)
}

fn put_site(db: &mut Database, site: Site) -> Result<u32, AllocError>
    requires { why_not db.old (part.Site site) ≡ None }
    ensures ok { OnOk result (db.new ≡ with_part (part.Site site) db.old) }
    ensures id { IfOk result (λ id. id ≡ last_id db.new (part.Site site)) }
    ensures err { OnErr result (db.new ≡ db.old) }
{
    let id = db.add_site(site)?;
    Ok(id.0)
}

fn put_master(db: &mut Database, master: Master) -> Result<u32, AllocError>
    requires { why_not db.old (part.Master master) ≡ None }
    ensures ok { OnOk result (db.new ≡ with_part (part.Master master) db.old) }
    ensures id { IfOk result (λ id. id ≡ last_id db.new (part.Master master)) }
    ensures err { OnErr result (db.new ≡ db.old) }
{
    let id = db.add_master(master)?;
    Ok(id.0)
}

// What was entered since.
fn added_since(before: Standing, db: &Database, last: u32) -> Added
    requires { HasAtLeast before db.now }
    ensures { result ≡ added_after before last db.now }
{
    let now = Standing::of(db);
    Added {
        layers: now.layers - before.layers,
        vias: now.vias - before.vias,
        sites: now.sites - before.sites,
        masters: now.masters - before.masters,
        last,
    }
}
