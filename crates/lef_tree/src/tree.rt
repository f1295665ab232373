use crate::pins::LefPins;
use ld_forms::ShortText;
use odb_base::{Direction, LayerDirection, LayerType, List, Name, SiteClass, Text, Usage};

/// What a LEF text holds, and how much of it was passed over.
#[derive(Drop)]
pub struct LefTree {
    /// In the order of the text. Two of one sort may have one name.
    pub items: List<LefItem>,
    /// How many parts were passed over or left out. It stops at 2^64 - 1.
    pub passed: u64,
}

/// A layer, a via, a site or a macro, or the units of a `UNITS` section that states them.
#[derive(Drop)]
pub enum LefItem {
    /// Database units per micron, 1 to 100,000.
    Units(u32),
    Layer(LefLayer),
    Via(LefVia),
    Site(LefSite),
    Macro(LefMacro),
}

/// A layer (LEF/DEF 5.8 Language Reference, Layer). A distance is the decimal that states it, in microns, and
/// `None` where nothing does.
#[derive(Debug, Drop)]
pub struct LefLayer {
    pub name: Name,
    pub sort: LayerType,
    pub direction: LayerDirection,
    /// Where one pitch is stated, it is both.
    pub pitch_x: Option<ShortText>,
    pub pitch_y: Option<ShortText>,
    pub width: Option<ShortText>,
    /// Of the first `SPACING`.
    pub spacing: Option<ShortText>,
}

/// A via (LEF/DEF 5.8 Language Reference, Via).
#[derive(Debug, Drop)]
pub struct LefVia {
    pub name: Name,
    /// The header has `DEFAULT`.
    pub default: bool,
    /// In the order of the text.
    pub shapes: List<LefShape>,
}

/// A site (LEF/DEF 5.8 Language Reference, Site). A distance is the decimal that states it, in microns, and
/// `None` where nothing does.
#[derive(Debug, Drop)]
pub struct LefSite {
    pub name: Name,
    pub class: SiteClass,
    /// The sum of 1 for X, 2 for Y and 4 for R90.
    pub symmetry: u8,
    pub width: Option<ShortText>,
    pub height: Option<ShortText>,
}

/// A macro (LEF/DEF 5.8 Language Reference, Macro). A distance is the decimal that states it, in microns, and
/// `None` where nothing does.
#[derive(Drop)]
pub struct LefMacro {
    pub name: Name,
    /// The words of `CLASS` with one space between them, empty where nothing is said.
    pub class: Text,
    pub origin_x: Option<ShortText>,
    pub origin_y: Option<ShortText>,
    pub width: Option<ShortText>,
    pub height: Option<ShortText>,
    /// The sum of 1 for X, 2 for Y and 4 for R90.
    pub symmetry: u8,
    /// Of the first `SITE`.
    pub site: Option<Name>,
    /// The words of `FOREIGN` with one space between them, empty where nothing is said.
    pub foreign: Text,
    pub terminals: LefPins,
    /// The shapes of all `OBS`, in the order of the text.
    pub obstructions: List<LefShape>,
}

/// A pin of a macro (LEF/DEF 5.8 Language Reference, Macro Pin).
#[derive(Debug, Drop)]
pub struct LefPin {
    pub name: Name,
    pub direction: Direction,
    pub usage: Usage,
    /// The shapes of all `PORT`s, in the order of the text.
    pub shapes: List<LefShape>,
}

/// A rectangle on a layer.
#[derive(Debug, Drop)]
pub struct LefShape {
    pub layer: Name,
    pub rect: LefRect,
}

/// Two opposite corners, any of the four first, as the decimals that state them, in microns.
#[derive(Debug, Drop)]
pub struct LefRect {
    pub x1: ShortText,
    pub y1: ShortText,
    pub x2: ShortText,
    pub y2: ShortText,
}
