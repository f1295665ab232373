use library::Master;
use tech::{Layer, Site, TechVia};

/// A part of a technology or of a library that may be entered.
#[derive(Debug, Drop)]
pub enum TechPart {
    /// Database units per micron.
    Units(u32),
    Layer(Layer),
    Via(TechVia),
    Site(Site),
    Master(Master),
}
