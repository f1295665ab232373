//! Blocks made from plain tables, judged for soundness.
//!
//! [`FromTables`] gives `Block::from_tables`: the block of a header and twelve tables of slots with their free
//! identifiers, where it is sound with a technology and a library. Where it isn't, [`TablesFault::Unsound`] names the
//! least place that isn't: the header, a table, or the record of an identifier. When each of these is sound is said
//! kind by kind, and [`soundness_by_parts`] that a block is sound exactly where all of them are.
//!
//! Names are counted in hash tables and terminals by their numbers, once for all records; so the time is, on average,
//! in proportion to the tables and to the terminals of the library's masters.
#![tactic(auto)]

mod caps;
mod check;
pub mod fault;
pub mod from_tables;
mod good;
mod headers;
mod holders;
mod instances;
mod judge;
pub mod laws;
mod names;
mod nets;
mod standing;
mod tally;
mod terminals;
mod values;

pub use caps::fits;
pub use fault::TablesFault;
pub use from_tables::FromTables;
pub use laws::soundness_by_parts;
