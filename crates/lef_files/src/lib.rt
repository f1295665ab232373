//! LEF files of a shelf, read word by word.
//!
//! [`read_lef_file`] gives what the text of a file holds, that there is no file of the name, or the line and kind of
//! the text's first fault. Where the shelf tells its files, its answer is [the one](../specs/Texts.antt) that the bytes
//! of the file have, and no file changes.
//!
//! A file is read in pieces of 16 KiB into one buffer of 80 KiB and is never held whole. What stands behind
//! `END LIBRARY` isn't looked at.
#![tactic(auto)]

mod file;
mod laws;
mod outcome;

pub use file::read_lef_file;
pub use laws::texts_have_outcomes;
pub use outcome::{LefFileFault, LefFileRead};
