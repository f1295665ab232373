//! Reads DEF texts (LEF/DEF 5.8 Language Reference, DEF Syntax) to trees.
//!
//! [`read_def`] takes the words of a text one after the other, each by its place and with no view of later ones, and gives a
//! [`DefRead`], or the line and kind of the first word that its place doesn't take. Outside sections a statement whose words
//! aren't of its form is passed over and counted; in sections such a word is a fault.
//!
//! In the model [the answer for a text](../specs/Reading.antt) follows from its words and their lines alone, by the rules of
//! DEF as a language of `ld_reader`, and where the source tells its bytes, the answer is that one.
#![tactic(auto)]

pub mod closing;
pub mod def;
pub mod fault;
pub mod header;
pub mod inside;
pub mod laws;
pub mod opening;
pub mod so_far;

pub use def::read_def;
pub use fault::{DefFault, DefKind, DefRead};
pub use inside::{Counted, Inside};
pub use laws::def_statements_are_read;
pub use so_far::SoFar;
