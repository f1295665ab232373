//! Whole files of a shelf: their bytes are read to the end, or written from the front.
//!
//! [`read_file`] gives the bytes of a file of at most [`FILE_LIMIT`] bytes, and [`write_file`] gives a file its bytes. Where
//! the shelf tells its files, their contracts say which bytes these are, that no other file changes, and that after a
//! failure a file that was being written holds a prefix of its bytes or is as it was.
//!
//! Both move pieces of kilobytes. Reading takes memory for the bytes and for one piece, writing for none.
#![tactic(auto)]

mod fault;
mod reading;
mod writing;

pub use fault::FileFault;
pub use reading::{FILE_LIMIT, FileRead, read_file};
pub use writing::write_file;
