//! The parts of a technology and of a library that a LEF text holds (LEF/DEF 5.8 Language Reference, LEF Syntax).
//!
//! [`parts_of`] goes over the items of a [`LefTree`](lef_tree::LefTree) in their order. Distances become numbers of
//! database units, and names of layers and sites the identifiers that these have once the parts before are entered.
//! An item whose name stands already is left out and counted. [The definition](../specs/Building.antt) says which
//! parts these are, or the first fault.
//!
//! The tree is only read; names and texts are copied into the parts. A name is looked up by its hash, so an item
//! takes a time, on average, in proportion to its own size, whatever the technology and the items before it have.
//! Each decimal is read once.
//!
//! Whether lists have room for the parts, and whether a via's name may be that of a via, is for whoever enters them.
#![tactic(auto)]

mod asked;
mod builder;
mod distances;
pub mod fault;
mod items;
mod known;
pub mod laws;
mod made;
mod names;
pub mod parts;
mod shapes;

pub use fault::BuildFault;
pub use laws::{what_is_left_out, what_parts_name};
pub use parts::{Parts, parts_of};
