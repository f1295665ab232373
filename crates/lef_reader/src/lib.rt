//! What a LEF text holds (LEF/DEF 5.8 Language Reference, LEF Syntax): units, layers, vias, sites and macros.
//!
//! [`read_lef`] takes the words of a text one after the other, each by its place and with no view of later ones,
//! and gives a [`LefTree`], or the line and kind of the first word that its place doesn't take. What is taken
//! stands in the tables of `lef_forms`; any other part is passed over and counted. Distances stay the decimals
//! that state them, since whether they are coordinates depends on the units.
//!
//! In the model [the answer for a text](../specs/Reading.antt) follows from its words and their lines alone, by the rules
//! of LEF as a language of `ld_reader`, and where the source tells its bytes, the answer is that one. The laws say in the
//! words of the reference what is read of a statement or a section that is spelled out.
//!
//! A word takes a time that doesn't grow with what was read before. Only what the tree keeps is copied.
#![tactic(auto)]

pub mod fault;
pub mod laws;
pub mod lef;
mod needs;
pub mod so_far;

pub use fault::LefFault;
pub use laws::{
    layers_are_read, lef_statements_are_read, macros_are_read, other_statements_are_passed_over,
    sites_are_read, texts_are_read, texts_have_one_answer, vias_are_read,
};
pub use lef::read_lef;
pub use lef_forms::LefKind;
pub use lef_tree::{
    LefItem, LefLayer, LefMacro, LefPin, LefPins, LefRect, LefShape, LefSite, LefTree, LefVia,
};
pub use so_far::SoFar;
