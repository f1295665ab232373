ghost use Rattle.std.specs.Prelude.{◌≡◌, ◌+◌, ◌<◌, ◌≤◌, ◌∷◌, [], None, IfOk, OnErr, OnOk, length, take};
ghost use Rattle.std.specs.Option.{option_copied, option_map};
ghost use Rattle.tech.specs.Technology.{HasDistinctParts, HasFewParts, empty_technology, find_layer, find_site, find_via, layer_at, site_at, via_at, with_layer, with_site, with_units, with_via};

use crate::layer::Layer;
use crate::site::Site;
use crate::via::TechVia;
use named_list::NamedList;
use odb_base::{LayerId, SiteId, ViaId};
use std::alloc::{AllocError, Global};
use std::marker::Model;

/// The greatest number of layers, of vias and of sites in a technology.
pub const LIST_LIMIT: u32 = 1_000_000;

/// A technology: the number of database units per micron, 0 where none is stated, and layers, vias and sites by
/// identifier and by name. The identifier of one is its place in its list, from 1. No two of a list have one name, and
/// a list has at most [`LIST_LIMIT`].
#[derive(Drop)]
pub struct Tech {
    units: u32,
    layers: NamedList<Layer>,
    vias: NamedList<TechVia>,
    sites: NamedList<Site>,
}

impl Model for Tech {
    ghost use Rattle.tech.specs.Technology.{HasFewParts, Technology};

    ghost Value = { Technology };

    ghost view = { λ t. record { units = t.units; layers = t.layers; vias = t.vias; sites = t.sites } };

    ghost invariant = { λ t. HasFewParts 1000000 (record { units = t.units; layers = t.layers; vias = t.vias; sites = t.sites }) };
}

impl Tech {
    /// A technology that states nothing. It takes no memory.
    pub fn new(alloc: Global) -> Tech
        ensures { result ≡ empty_technology }
    {
        Tech {
            units: 0,
            layers: NamedList::new(alloc),
            vias: NamedList::new(alloc),
            sites: NamedList::new(alloc),
        }
    }

    /// States so many database units per micron, 0 for none.
    pub fn set_units(&mut self, n: u32)
        ensures { self.new ≡ with_units n self.old }
    {
        self.units = n;
    }

    /// How many database units a micron has, 0 where none are stated.
    pub fn units(&self) -> u32
        ensures { result ≡ self.now.units }
    {
        self.units
    }

    /// How many layers, vias and sites there are.
    pub fn counts(&self) -> [u32; 3]
        ensures counts { result ≡ length self.now.layers ∷ length self.now.vias ∷ length self.now.sites ∷ [] }
        ensures limit { HasFewParts 1000000 self.now }
        ensures distinct { HasDistinctParts self.now }
    {
        [self.layers.count(), self.vias.count(), self.sites.count()]
    }

    /// The layers.
    pub fn layers(&self) -> &NamedList<Layer>
        ensures { result.now ≡ self.now.layers }
    {
        &self.layers
    }

    /// The vias.
    pub fn vias(&self) -> &NamedList<TechVia>
        ensures { result.now ≡ self.now.vias }
    {
        &self.vias
    }

    /// The sites.
    pub fn sites(&self) -> &NamedList<Site>
        ensures { result.now ≡ self.now.sites }
    {
        &self.sites
    }

    /// The layer of this identifier, `None` where none has it.
    pub fn layer(&self, id: LayerId) -> Option<&Layer>
        ensures { option_copied result ≡ layer_at self.now id.0 }
    {
        self.layers.get(id.0)
    }

    /// The identifier of the layer of this name, `None` where none has it.
    pub fn find_layer(&self, name: &[u8]) -> Option<LayerId>
        ensures { option_map (λ id. id.0) result ≡ find_layer self.now name.now }
    {
        let id = self.layers.find(name)?;
        Some(LayerId(id))
    }

    /// The via of this identifier, `None` where none has it.
    pub fn via(&self, id: ViaId) -> Option<&TechVia>
        ensures { option_copied result ≡ via_at self.now id.0 }
    {
        self.vias.get(id.0)
    }

    /// The identifier of the via of this name, `None` where none has it.
    pub fn find_via(&self, name: &[u8]) -> Option<ViaId>
        ensures { option_map (λ id. id.0) result ≡ find_via self.now name.now }
    {
        let id = self.vias.find(name)?;
        Some(ViaId(id))
    }

    /// The site of this identifier, `None` where none has it.
    pub fn site(&self, id: SiteId) -> Option<&Site>
        ensures { option_copied result ≡ site_at self.now id.0 }
    {
        self.sites.get(id.0)
    }

    /// The identifier of the site of this name, `None` where none has it.
    pub fn find_site(&self, name: &[u8]) -> Option<SiteId>
        ensures { option_map (λ id. id.0) result ≡ find_site self.now name.now }
    {
        let id = self.sites.find(name)?;
        Some(SiteId(id))
    }

    /// Puts a layer last, and gives its identifier. No layer may have its name, and there must be fewer than
    /// [`LIST_LIMIT`]. A refusal leaves the technology as it was, and the layer is dropped.
    pub fn add_layer(&mut self, layer: Layer) -> Result<LayerId, AllocError>
        requires new { find_layer self.old layer.name ≡ None }
        requires room { length self.old.layers < 1000000 }
        ensures ok { OnOk result (self.new ≡ with_layer layer self.old) }
        ensures id { IfOk result (λ id. id.0 ≡ length self.old.layers + 1) }
        ensures err { OnErr result (self.new ≡ self.old) }
    {
        let id = self.layers.push(layer)?;
        Ok(LayerId(id))
    }

    /// Puts a via last, and gives its identifier. No via may have its name, and there must be fewer than
    /// [`LIST_LIMIT`]. A refusal leaves the technology as it was, and the via is dropped.
    pub fn add_via(&mut self, via: TechVia) -> Result<ViaId, AllocError>
        requires new { find_via self.old via.name ≡ None }
        requires room { length self.old.vias < 1000000 }
        ensures ok { OnOk result (self.new ≡ with_via via self.old) }
        ensures id { IfOk result (λ id. id.0 ≡ length self.old.vias + 1) }
        ensures err { OnErr result (self.new ≡ self.old) }
    {
        let id = self.vias.push(via)?;
        Ok(ViaId(id))
    }

    /// Puts a site last, and gives its identifier. No site may have its name, and there must be fewer than
    /// [`LIST_LIMIT`]. A refusal leaves the technology as it was, and the site is dropped.
    pub fn add_site(&mut self, site: Site) -> Result<SiteId, AllocError>
        requires new { find_site self.old site.name ≡ None }
        requires room { length self.old.sites < 1000000 }
        ensures ok { OnOk result (self.new ≡ with_site site self.old) }
        ensures id { IfOk result (λ id. id.0 ≡ length self.old.sites + 1) }
        ensures err { OnErr result (self.new ≡ self.old) }
    {
        let id = self.sites.push(site)?;
        Ok(SiteId(id))
    }

    /// Keeps so many first layers, vias and sites, of which there must be at least so many. It takes no memory.
    pub fn cut(&mut self, layers: u32, vias: u32, sites: u32)
        requires layers { layers ≤ length self.old.layers }
        requires vias { vias ≤ length self.old.vias }
        requires sites { sites ≤ length self.old.sites }
        ensures { self.new ≡ record self.old {
          layers = take layers self.old.layers;
          vias = take vias self.old.vias;
          sites = take sites self.old.sites;
        } }
    {
        self.layers.cut(layers);
        self.vias.cut(vias);
        self.sites.cut(sites);
    }
}
