//! The sections of a LEF text that are open, and what each statement sets in them.
//!
//! A [`Draft`] is the section that is open, with what was stated in it so far and with the macro or the pin around
//! it. [`Draft::set`] takes one more statement by the words that it keeps, or opens the section that the
//! statement begins. [`Draft::close`] gives what the end of the section makes of it: an item of the text, or
//! the section around it. Which word ends it, [`Draft::closes`] and [`Draft::ends_bare`] say.
//!
//! In the model both are [functions of what the section has](../specs/Drafts.antt), by
//! [what the words of a statement say](../specs/Values.antt): numbers and names by their places, two corners as a
//! rectangle, all words as one text, the symmetries that are among them, and [what they name](../specs/Worded.antt).
//! Where too few words are kept, there is no value. Of a want of memory nothing is said but that there is no draft then.
//!
//! A statement takes a time that doesn't grow with what the section has, and a pin that ends is found among the
//! pins of its macro by its name. What a section has changes in its place, and only what the tree keeps is copied.
#![tactic(auto)]

pub mod draft;
mod opening;
mod setting;
mod values;
mod worded;

pub use draft::{Closed, Draft};
