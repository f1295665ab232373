//! The forms of statements of LEF and DEF (LEF/DEF 5.8 Language References), over the classes of words that a language
//! has: its keywords, numbers, names, and sets of words.
//!
//! A [`Place`] of a form is taken by a word of a class, or left out. A part that is passed over has an [`Extent`], and
//! [`Passing`] says where the reading of it stands. The words of a statement that are kept are gathered in [`Kept`].
//!
//! In the model [which place a word takes](../specs/Places.antt), with no view of later words, and
//! [how far a part is passed over](../specs/Passing.antt) follow from what [`Judged`] says of the word, and
//! [words fill places](../specs/Filling.antt) as the references write a form. Whether a word that its place doesn't take
//! is a fault, or has its statement passed over, isn't decided here.
//!
//! Nothing here takes memory but [`Kept`], which keeps what it took for the next statement, and a [`ShortText`] that is
//! longer than most words.
#![tactic(auto)]

pub mod kept;
pub mod names;
pub mod passing;
pub mod place;
pub mod short_text;
pub mod worded;

pub use kept::Kept;
pub use names::{UNITS_LIMIT, is_name, is_via_name, per_micron_of, whole_number};
pub use passing::{Extent, Passed, Passing, StatementsSpot};
pub use place::{Fit, Judged, Place, is_semicolon};
pub use short_text::ShortText;
pub use worded::usage_of;
