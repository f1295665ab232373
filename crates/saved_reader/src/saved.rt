use block_store::Tables;
use library::Master;
use odb_base::List;
use std::marker::Model;
use tech::{Layer, Site, TechVia};

/// What saved bytes spell of a technology: its units, and layers, vias and sites in the order of their identifiers.
/// Contracts see it as the technology that it would be. Whether names are distinct and layers are there isn't judged.
#[derive(Drop)]
pub struct SavedTech {
    /// Database units per micron, 0 for none.
    pub units: u32,
    pub layers: List<Layer>,
    pub vias: List<TechVia>,
    pub sites: List<Site>,
}

impl Model for SavedTech {
    ghost use Rattle.tech.specs.Technology.{Technology};

    ghost Value = { Technology };

    ghost view = { λ t. record { units = t.units; layers = t.layers; vias = t.vias; sites = t.sites } };
}

/// What saved bytes spell: a technology, the masters of a library in the order of their identifiers, and the tables
/// of a block. Each value is in its set, its limit and its rule; whether they fit together isn't judged.
#[derive(Drop)]
pub struct Saved {
    pub tech: SavedTech,
    pub library: List<Master>,
    pub tables: Tables,
}
