//! Parts entered into a database: units, layers, vias, sites and masters, all of a list or none.
//!
//! [`add_parts`] judges each part with those before it entered and then enters it; at the first that can't be entered
//! it takes the others back, so that the database is as it was. [The definition](../specs/Adding.antt) is a fold over
//! the list.
//!
//! A part takes a time that grows with its own shapes and terminals alone. Taking parts back takes a step for each.
#![tactic(auto)]

pub mod adding;
pub mod fault;
mod judging;
mod standing;

pub use adding::{Added, add_parts};
pub use fault::PartFault;
