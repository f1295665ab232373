ghost use Rattle.std.specs.Prelude.{◌≡◌, ◌≤◌, ◌<◌, ◌+◌, None, IfOk, OnErr, OnOk, length};
ghost use Rattle.tech.specs.Technology.{find_layer, find_site, find_via, with_layer, with_site, with_units, with_via};
ghost use Rattle.library.specs.Masters.{find_master};
ghost use Rattle.lawful_parts.specs.Lawful.{IsLayer, IsMaster, IsSite, IsTechVia};

use crate::block::Block;
use library::{Library, Master};
use odb_base::{LayerId, MasterId, SiteId, ViaId};
use std::alloc::{AllocError, Global};
use std::marker::Model;
use tech::{Layer, Site, Tech, TechVia};

/// A technology, a library of masters and the block that stands over them. Each database is sound. Contracts
/// see a database of the model: the technology, the list of masters, the block and its cap.
#[derive(Drop)]
pub struct Database {
    pub tech: Tech,
    pub library: Library,
    pub block: Block,
}

impl Model for Database {
    ghost use Rattle.block_store.specs.Database as model;
    ghost use Rattle.block_store.specs.Database.{IsSoundDatabase};

    ghost Value = { model.Database };

    ghost view = { λ d. record { tech = d.tech; library = d.library; block = d.block.block; cap = d.block.cap } };

    ghost invariant = { λ d. IsSoundDatabase (record { tech = d.tech; library = d.library; block = d.block.block; cap = d.block.cap }) };
}

impl Database {
    ghost use Rattle.block_store.specs.Database.{IsSoundDatabase, cut_to, database_of, empty_database, with_master, with_tech};

    /// The database without masters and objects, whose tables have at most `cap` slots each, at most
    /// [`SLOT_LIMIT`](crate::block::SLOT_LIMIT).
    pub fn new(alloc: Global, cap: u32) -> Result<Database, AllocError>
        requires { cap ≤ 16777215 }
        ensures { IfOk result (λ d. d ≡ empty_database cap) }
    {
        let block = Block::new(alloc, cap)?;
        Ok(Database {
            tech: Tech::new(alloc),
            library: Library::new(alloc),
            block,
        })
    }

    /// The database of these parts, which have to be sound together.
    pub fn of_parts(tech: Tech, library: Library, block: Block) -> Database
        requires { IsSoundDatabase (database_of tech library block) }
        ensures { result ≡ database_of tech library block }
    {
        Database {
            tech,
            library,
            block,
        }
    }

    /// States so many database units per micron, 0 for none.
    pub fn set_units(&mut self, n: u32)
        requires { n ≤ 100000 }
        ensures { self.new ≡ with_tech (with_units n self.old.tech) self.old }
    {
        self.tech.set_units(n);
    }

    /// Puts a lawful layer of a new name last, and gives its identifier. A refusal leaves the database as it was.
    pub fn add_layer(&mut self, layer: Layer) -> Result<LayerId, AllocError>
        requires lawful { IsLayer layer }
        requires new { find_layer self.old.tech layer.name ≡ None }
        requires room { length self.old.tech.layers < 1000000 }
        ensures ok { OnOk result (self.new ≡ with_tech (with_layer layer self.old.tech) self.old) }
        ensures id { IfOk result (λ id. id.0 ≡ length self.old.tech.layers + 1) }
        ensures err { OnErr result (self.new ≡ self.old) }
    {
        let id = self.tech.add_layer(layer)?;
        Ok(id)
    }

    /// Puts a lawful via of a new name last, and gives its identifier. A refusal leaves the database as it was.
    pub fn add_via(&mut self, via: TechVia) -> Result<ViaId, AllocError>
        requires lawful { IsTechVia self.old.tech via }
        requires new { find_via self.old.tech via.name ≡ None }
        requires room { length self.old.tech.vias < 1000000 }
        ensures ok { OnOk result (self.new ≡ with_tech (with_via via self.old.tech) self.old) }
        ensures id { IfOk result (λ id. id.0 ≡ length self.old.tech.vias + 1) }
        ensures err { OnErr result (self.new ≡ self.old) }
    {
        let id = self.tech.add_via(via)?;
        Ok(id)
    }

    /// Puts a lawful site of a new name last, and gives its identifier. A refusal leaves the database as it was.
    pub fn add_site(&mut self, site: Site) -> Result<SiteId, AllocError>
        requires lawful { IsSite site }
        requires new { find_site self.old.tech site.name ≡ None }
        requires room { length self.old.tech.sites < 1000000 }
        ensures ok { OnOk result (self.new ≡ with_tech (with_site site self.old.tech) self.old) }
        ensures id { IfOk result (λ id. id.0 ≡ length self.old.tech.sites + 1) }
        ensures err { OnErr result (self.new ≡ self.old) }
    {
        let id = self.tech.add_site(site)?;
        Ok(id)
    }

    /// Puts a lawful master of a new name last in the library, and gives its id. A refusal leaves the database as it
    /// was.
    pub fn add_master(&mut self, master: Master) -> Result<MasterId, AllocError>
        requires lawful { IsMaster self.old.tech master }
        requires new { find_master self.old.library master.name ≡ None }
        requires room { length self.old.library < 1000000 }
        ensures ok { OnOk result (self.new ≡ with_master master self.old) }
        ensures id { IfOk result (λ id. id.0 ≡ length self.old.library + 1) }
        ensures err { OnErr result (self.new ≡ self.old) }
    {
        let id = self.library.add_master(master)?;
        Ok(id)
    }

    /// Keeps so many first layers, vias, sites and masters, where what is left is sound. It takes no memory.
    pub fn cut(&mut self, layers: u32, vias: u32, sites: u32, masters: u32)
        requires layers { layers ≤ length self.old.tech.layers }
        requires vias { vias ≤ length self.old.tech.vias }
        requires sites { sites ≤ length self.old.tech.sites }
        requires masters { masters ≤ length self.old.library }
        requires sound { IsSoundDatabase (cut_to layers vias sites masters self.old) }
        ensures { self.new ≡ cut_to layers vias sites masters self.old }
    {
        self.tech.cut(layers, vias, sites);
        self.library.cut(masters);
    }
}
