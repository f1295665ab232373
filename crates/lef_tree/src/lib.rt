//! The units, layers, vias, sites and macros of a LEF text (LEF/DEF 5.8 Language Reference, LEF Syntax).
//!
//! A [`LefTree`] has them in the order of the text, with the number of parts of the text that it lacks. Distances
//! stay the decimals that state them, since whether they are coordinates depends on the units.
//!
//! In the model each of these is its fields, and the pins of a macro are [the list of them](../specs/Pins.antt),
//! no two of which have one name.
//!
//! [`LefPins`] finds a name in a time that on average doesn't grow with the number of pins. A pin that is added
//! is moved, and the bytes of its name are copied once. Nothing here knows how any of it is spelled.
#![tactic(auto)]

pub mod pins;
pub mod tree;

pub use pins::LefPins;
pub use tree::{LefItem, LefLayer, LefMacro, LefPin, LefRect, LefShape, LefSite, LefTree, LefVia};
