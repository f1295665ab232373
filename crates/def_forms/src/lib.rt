//! The forms of DEF's statements (LEF/DEF 5.8 Language Reference, DEF Syntax), as tables, and the classes of words of which
//! they are made.
//!
//! [`Statement::places`] has the places of each statement, and [`judge`] says what a word is to a [`Class`]. An element of a
//! section is read as several statements: its name, and each of its options. Which of them a word begins depends on what
//! was read of the text so far, and isn't decided here.
//!
//! Nothing here takes memory.
#![tactic(auto)]

pub mod class;
pub mod flaw;
pub mod form;
pub mod keyword;
pub mod number;
pub mod quoted;
pub mod section;
pub mod word_set;

pub use class::{Class, judge};
pub use flaw::Flaw;
pub use form::Statement;
pub use keyword::Keyword;
pub use number::{coordinate, count, is_number, stated, track_step};
pub use quoted::{bus_of, divider_of};
pub use section::Section;
pub use word_set::{
    WordSet, axis_of, direction_of, orientation_of, owner_of, prop_type_of, region_type_of,
};
