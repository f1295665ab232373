//! The words of LEF and DEF texts with their lines, and decimals in database units.
//!
//! [`Words`] reads a text from any [`Source`](odb_outside::Source) and gives its words one after the other.
//! Space, tab, carriage return and line feed part words. A `#` as the first byte of a word opens a comment to
//! the end of its line, and a word that begins with `"` runs to the next `"`, over line ends too. In the model
//! a text is a list of bytes, [the words of it](../specs/Reading.antt) with their lines follow from the bytes
//! alone, and where the source tells its bytes, the words that are given are these, whatever the pieces.
//! [`to_units`] is the whole number of units that is nearest to a decimal.
//!
//! A text is read in pieces of 16 KiB into one buffer of 80 KiB. Each byte is looked at a fixed number of
//! times. A word is lent where it stands in the buffer, or given in memory of its own, which is one allocation. A
//! word has at most 65,535 bytes and a text fewer than 2^32.
//! Nothing here knows keywords, names or forms of statements.
#![tactic(auto)]

pub mod decimal;
mod input;
pub mod laws;
mod scan;
mod short_decimal;
mod window;
pub mod word;
pub mod words;

pub use decimal::{NumberFault, is_number, to_units};
pub use laws::{lines_are_counted, rounding_is_nearest, spaced_words_are_read};
pub use word::{Word, WordFault};
pub use words::{Room, Words};
