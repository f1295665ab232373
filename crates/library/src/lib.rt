//! The library of a design: the masters of its instances, by id and by name.
//!
//! A [`Master`] is what LEF calls a macro: its size, its terminals with their shapes, and its obstructions. A
//! [`Library`] keeps masters in the order of their entry and numbers them from 1; no two of them have one name,
//! and there are at most [`MASTER_LIMIT`]. Contracts see a library as the list of its masters.
//!
//! It is a list of named things: [`Library::find_master`] and [`Library::add_master`] hash the name and, on average,
//! take a time that doesn't grow with the number of masters. [`Library::cut`] takes a step for each master that goes.
//! [`Master::term_index`] compares the name with those of the terminals, from the first on. Only
//! [`Library::add_master`] takes memory: for a copy of the name, and now and then for a larger table.
//!
//! A library judges the names of its masters and their number, and nothing else: whether sizes, layers, sites and
//! terminals are lawful is for whoever enters a master.
#![tactic(auto)]

pub mod laws;
pub mod library;
pub mod master;
pub mod mterm;

pub use laws::masters_and_terminals;
pub use library::{Library, MASTER_LIMIT};
pub use master::Master;
pub use mterm::MTerm;
pub use odb_base::Shape;
