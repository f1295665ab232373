//! An index from names to objects, by hash chains that lie in the objects themselves.
//!
//! The cells that hold the names and the chains are kept by someone else, who says by [`ChainCells`] how they
//! are read and written; the index keeps the first object of each chain. In contracts a [`NameIndex`]
//! *stands* over its cells for a finite map from names to identifiers, and has a number `spare`: for how many
//! more names there is room.
//!
//! There are at least as many chains as names held, a power of two of them, and [`NameIndex::reserve`] doubles
//! them as names come, so a look-up compares the name with one or two others on average, whatever their
//! number. [`NameIndex::reserve`] reads and writes each chain when it makes more of them, and is the only
//! call that takes memory. Names are compared whole, so a look-up is right whatever their hashes are.
//!
//! The hash is the same in each run (FNV-1a). Whoever chooses names so that all have one hash makes one chain of
//! them: each call then reads as many names as are held. Nothing here is kept from an opponent.
#![tactic(auto)]

pub mod cells;
mod chain;
mod hash;
pub mod index;
pub mod laws;
mod rehash;

pub use cells::ChainCells;
pub use index::NameIndex;
pub use laws::read_off;
