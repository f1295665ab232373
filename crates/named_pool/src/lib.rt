//! A pool of objects with names, no two the same, in which an object is found by its name: one table of the
//! database and the index of its names.
//!
//! Contracts see a [`NamedPool`] as what they see of a [`slot_pool::SlotPool`]: its table, its cap and a number
//! `spare`. Neither the index nor the chains of names, which lie in the pool's own slots, are part of that. The
//! type keeps that each object is found by its name, so no two objects have one.
//!
//! [`NamedPool::reserve`] makes room in the slots and in the index, and `spare` is the lesser of the two. The
//! index has room for as many names as ids are free, at least, so whoever takes back a give or puts a record in
//! place of one that was given needs no memory.
//!
//! A move of the pool is followed or preceded by those of the index: [`NamedPool::take`] and
//! [`NamedPool::ungive`] tick at most twice, [`NamedPool::give`] and [`NamedPool::untake`] at most three times,
//! [`NamedPool::rename`] at most four times, [`NamedPool::set`] once.
//!
//! Of the time that these calls take beside their ticks no contract speaks. Each but `set` looks at the names
//! that share a bucket with the one that is sought, added or dropped. There are never fewer buckets than names,
//! so that is one or two on average for names that come as they do in designs. The hash of a name is the same in
//! each run and has no secret: whoever chooses the names so that all share a bucket makes each of these calls
//! read as many names as are held. No answer depends on that, and nothing here is kept from such an opponent.
#![tactic(auto)]

pub mod cells;
pub mod laws;
mod loading;
pub mod named;
pub mod pool;

pub use cells::{NameCell, NameCells};
pub use laws::names_and_finding;
pub use named::{Field, Named};
pub use pool::NamedPool;
