//! What a DEF text holds (LEF/DEF 5.8 Language Reference, DEF Syntax): a header, definitions of properties, rows, tracks,
//! vias, regions, components, pins, blockages, nets and groups.
//!
//! A [`DefTree`] has the elements of the text with the names that they use: of masters, sites, layers and vias, and of each
//! other. Whether something has such a name isn't asked here. Elements with names stand in the order of their names, by
//! the values of their bytes, in [`ByName`]; tracks and blockages stand in the order of the text. All distances are in
//! database units.
//!
//! In the model [the one text of a tree](../specs/Text.antt) is that of [its lines](../specs/Lines.antt).
#![tactic(auto)]

pub mod by_name;
pub mod connections;
pub mod definitions;
pub mod floorplan;
pub mod nets;
pub mod pins;
pub mod placed;
pub mod tree;

pub use by_name::{ByName, Names};
pub use connections::{Connections, Terminals};
pub use definitions::{DefDefinition, DefDefinitions};
pub use floorplan::{DefBlockage, DefRegion, DefRow, DefTrack};
pub use nets::{DefNet, DefWire};
pub use pins::{DefBox, DefPin, DefPort};
pub use placed::{DefComponent, DefGroup};
pub use tree::DefTree;
