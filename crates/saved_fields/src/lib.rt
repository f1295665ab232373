//! The fields of saved records: how each is read, and judged by its set, its limit and its rule alone, and how it is written.
//!
//! A `Format` is one table of fields: which values may be saved, their bytes, and how they are read. The formats of single
//! fields, of what is made of them, and of lists and tables stand in `specs`, and `proofs` has for each that its bytes and
//! its reading are each the way back of the other, and that a fault lies within the bytes. The calls for single fields and
//! for rectangles, placements and terminals are here ([`fields`], [`parts`]); records are put together in `saved_reader`.
//!
//! A field that isn't lawful is [`ReadFault::BadField`] at the place where it begins. The length of a text is judged before
//! its bytes are looked for. A rule over several fields of a rectangle or a placement is broken by the later of the fields
//! that disagree.
#![tactic(auto)]

pub mod fault;
pub mod fields;
pub mod parts;

pub use fault::ReadFault;
