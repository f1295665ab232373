//! What the program meets of the outside: where its input comes from and where its output goes.
//!
//! A [`Source`] gives bytes and a [`Sink`] takes them, in pieces of any size. A [`Shelf`] has files by name, of which
//! one at most is in hand, to be read as a source or written as a sink. Each may tell contracts its bytes, and counts
//! its faults, so that a failure in an answer has a cause that can be named. The objects over memory tell their bytes
//! and fail at the calls that they are told to; those over real streams tell none.
#![tactic(auto)]

pub mod calls;
pub mod fault;
mod files;
pub mod memory_shelf;
pub mod memory_sink;
pub mod memory_source;
pub mod shelf;
pub mod shelf_sink;
pub mod shelf_source;
pub mod sink;
pub mod source;

pub use fault::{Failed, OpenFault, WriteFault};
pub use memory_shelf::MemoryShelf;
pub use memory_sink::MemorySink;
pub use memory_source::MemorySource;
pub use shelf::{Hand, Shelf};
pub use shelf_sink::ShelfSink;
pub use shelf_source::ShelfSource;
pub use sink::{Sink, write_all};
pub use source::Source;
