//! The forms of LEF's statements (LEF/DEF 5.8 Language Reference, LEF Syntax), as tables, and the classes of words of
//! which they are made.
//!
//! [`Section::rows`] has the words by which something begins in a section, and [`Statement::places`] the places
//! of each statement behind its first word. [`judge`] says what a word is to a [`Class`]. So a statement that is to be
//! taken too is one more [`Statement`] with its row and its places.
//!
//! Which parts are passed over, and how far, is a choice of this project and no statement about the reference.
//! So are `GENERATED` and `TOPOFSTACKONLY` in the header of a via.
//!
//! A first word is compared with the words of one section, and a word with the class of its place alone. Nothing
//! here takes memory or knows what a statement says.
#![tactic(auto)]

pub mod class;
pub mod form;
pub mod keyword;
pub mod kind;
pub mod number;
pub mod symmetry;
pub mod word_set;

pub use class::{Class, judge};
pub use form::{Form, Section, Statement};
pub use keyword::Keyword;
pub use kind::LefKind;
pub use number::is_number;
pub use symmetry::Symmetry;
pub use word_set::{
    WordSet, direction_of, layer_direction_of, layer_type_of, site_class_of, symmetry_of,
};
