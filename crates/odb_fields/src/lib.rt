//! Fields of the binary formats as bytes, and back: numbers of one, four and eight bytes, signed numbers of
//! four bytes, and texts.
//!
//! A number has its lowest byte first, and a signed one stands in two's complement. A text is the number of its
//! bytes, in four bytes, and then these. [`Put`] appends fields to a vector, whose bytes contracts see. [`Get`]
//! reads them from a slice, and is seen as the bytes of the slice and how many of them were read so far. Where the
//! input ends inside a field, the answer is [`Cut`], and nothing was read.
//!
//! What was put is read back, whatever follows it ([`written_fields`]), and what is read has no second spelling
//! ([`read_fields`]).
//!
//! A `Put` takes time for the bytes that it appends, and memory where the vector has no room for them. Each call
//! of a `Get` takes a constant number of steps and no memory: a text is lent and not copied.
//!
//! Which values are lawful is for each format to say, and so is what a list or a record is.
#![tactic(auto)]

pub mod get;
pub mod laws;
pub mod put;

pub use get::{Cut, Get};
pub use laws::{field_lengths, read_fields, written_fields};
pub use put::Put;
