//! The technology of a design: how many database units a micron has, and its layers, vias and sites by identifier and
//! by name (LEF/DEF 5.8 Language Reference, LEF Syntax).
//!
//! A [`Tech`] keeps layers, vias and sites each in the order of their entry and numbers them from 1; no two of one
//! list have one name, and a list has at most [`LIST_LIMIT`]. Contracts see a technology as the record `Technology`
//! of its units and its three lists.
//!
//! Each list is one of named things: finding and entering hash the name and, on average, take a time that doesn't
//! grow with the list. [`Tech::cut`] takes a step for each thing that goes. Only entering takes memory: for a copy of
//! the name, and now and then for a larger table.
//!
//! A technology judges names and numbers of entries, and nothing else: whether sizes, layers and units are lawful is
//! for whoever enters them.
#![tactic(auto)]

pub mod layer;
pub mod site;
pub mod symmetry;
pub mod tech;
pub mod via;

pub use layer::Layer;
pub use site::Site;
pub use symmetry::Symmetry;
pub use tech::{LIST_LIMIT, Tech};
pub use via::TechVia;
