//! The saved bytes of a database: all of it but the cap, in one spelling.
//!
//! [`save`] writes a mark, the version, the technology, the library, the header and the twelve tables, each with
//! its slots and its free identifiers. Its contract is the definition `save_bytes`, which says of each record what
//! its fields are and in which order they stand. Databases that differ in the cap alone have the same bytes
//! ([`cap_is_unsaved`]), and the bytes of three databases are written out by hand ([`examples`]).
//!
//! A count has 32 bits. That each list and text of a database is short enough follows from the database being
//! sound, so no answer says otherwise: the only one besides the bytes is want of memory.
//!
//! Each record is one table of fields in the crate `saved_reader`, which reads it and writes it. This crate puts records
//! together, and proves of a sound database that its fields are such as may be written.
//!
//! [`load`] gives the database whose saved bytes are those that it is handed. The crate `saved_reader` reads what bytes
//! spell, `tech_parts` enters the technology and the masters, each where it is lawful, and `block_tables` judges whether
//! the tables are sound with them. That the bytes of a sound database are read as that database, and that no other bytes
//! are, are laws of this crate ([`saved_bytes_are_read`], [`read_bytes_are_saved`]). Bytes that no database has are
//! refused by a [`LoadFault`], whose place is within the bytes ([`fault_places_are_within`]), and there is one answer to
//! the same bytes and cap ([`loading_is_determined`], [`loading_has_an_answer`]).
//!
//! A save takes time for the slots and the bytes, and memory for the bytes alone. A load takes, on average, time for
//! the bytes and for the terminals of the library's masters, and for each master the square of the number of its
//! terminals; it takes memory for what was read.
#![tactic(auto)]

pub mod database;
mod design;
pub mod laws;
mod lists;
pub mod load_fault;
pub mod loading;
mod slots;
mod tables;
mod technology;

pub use database::save;
pub use laws::{
    cap_is_unsaved, examples, fault_places_are_within, loading_has_an_answer,
    loading_is_determined, read_bytes_are_saved, saved_bytes_are_read,
};
pub use load_fault::LoadFault;
pub use loading::load;
