//! Lists of things that have names: read by identifier and by name.
//!
//! A [`NamedList`] keeps things in the order of their entry and numbers them from 1; no two of them have one name.
//! Contracts see the list of the things. [`NamedList::get`] reads the place of the identifier. [`NamedList::find`]
//! and [`NamedList::push`] hash the name and, on average, take a time that doesn't grow with the list.
//! [`NamedList::cut`] takes a step for each thing that goes. Only [`NamedList::push`] takes memory: for a copy of the
//! name, and now and then for a larger table.
//!
//! Nothing here knows what the things are: whether they are lawful is for whoever enters them.
#![tactic(auto)]

pub mod laws;
pub mod named;
pub mod named_list;

pub use laws::{ids_after_changes, ids_and_names};
pub use named::Named;
pub use named_list::NamedList;
