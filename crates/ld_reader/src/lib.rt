//! Reads the statements of a LEF or DEF text, whichever language it is in (LEF/DEF 5.8 Language References).
//!
//! A [`Language`] says what begins with a word, which places its statements have, and what a statement sets in what was
//! read so far. [`read_text`] takes the words of a text one after the other, each by its place and with no view of later
//! ones, until the language says that it is done, the text ends, or a word isn't taken. Where the language is strict such
//! a word is a fault; else its statement is passed over and counted, unless a number or a name is due and the word is
//! none.
//!
//! In the model [what is read of a text](../specs/Reading.antt) follows from its words and their lines alone by
//! [the rules of the language](../specs/Rules.antt), and where the source tells its bytes the answer is that one. Three
//! [laws](../specs/Laws.antt) hold of every language: words that fill the places of a statement set what it sets, words
//! that fill a front of them and then one that doesn't belong pass it over, and words that fill a front and then one that
//! is no number or name are that fault.
//!
//! A word is lent from where it was read, and only what is kept is copied. What was read so far changes in its place.
#![tactic(auto)]

pub mod due;
pub mod fault;
pub mod forms;
pub mod language;
pub mod laws;
pub mod reader;
pub mod text;

pub use due::Due;
pub use fault::{Stop, TextFault};
pub use language::{Begun, Language};
pub use laws::{statements_are_read, words_are_read_in_order};
pub use reader::Reader;
pub use text::read_text;
