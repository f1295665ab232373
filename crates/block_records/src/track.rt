use odb_base::{List, TrackAxis};

/// Numbers of layers in the technology, from 1.
pub type Layers = List<u32>;

/// Tracks on which wires run.
#[derive(Debug, Drop)]
pub struct TrackRec {
    pub axis: TrackAxis,
    /// The coordinate of the first track.
    pub start: i32,
    pub count: u32,
    /// The distance from track to track, at least 1.
    pub step: i32,
    pub layers: Layers,
}
