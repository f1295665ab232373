use crate::by_name::ByName;
use odb_base::{List, Name, Orient, Rect, RegionType, RowForm, Text, TrackAxis};

/// A row of sites (ROW). A row of one site without `DO` has 1 as `nx` and `ny`, and one without `STEP` 0 as `sx` and `sy`.
#[derive(Drop)]
pub struct DefRow {
    pub site: Name,
    pub x: i32,
    pub y: i32,
    pub orientation: Orient,
    pub form: RowForm,
    /// How many sites stand along x.
    pub nx: u32,
    /// How many sites stand along y.
    pub ny: u32,
    /// The step from site to site along x.
    pub sx: i32,
    /// The step from site to site along y.
    pub sy: i32,
    /// The values of its properties.
    pub props: ByName<Text>,
}

/// Tracks on which wires run (TRACKS).
#[derive(Debug, Drop)]
pub struct DefTrack {
    pub axis: TrackAxis,
    /// The coordinate of the first track.
    pub start: i32,
    pub count: u32,
    /// The distance from track to track, at least 1.
    pub step: i32,
    /// Layers in the order of the text.
    pub layers: List<Name>,
}

/// A region for the members of groups (REGIONS).
#[derive(Drop)]
pub struct DefRegion {
    pub sort: RegionType,
    /// At least one, in the order of the text.
    pub rects: List<Rect>,
    /// Its other options, word for word.
    pub kept: Text,
    /// The values of its properties.
    pub props: ByName<Text>,
}

/// A blockage (BLOCKAGES).
#[derive(Debug, Drop)]
pub struct DefBlockage {
    /// The layer that is blocked; none where placement is.
    pub layer: Option<Name>,
    /// At least one, in the order of the text.
    pub rects: List<Rect>,
    /// Its options, word for word.
    pub kept: Text,
}
