//! A pool of records in numbered slots, in which the ids of given records are taken again: one table of the
//! database.
//!
//! Contracts see a [`SlotPool`] as its table, its cap, a number `spare` and the number of its moves. The table is a list of slots, each
//! with a record or empty, and the list of the free ids, which are those of the empty slots, top first. Id k
//! names the k-th slot, from 1. A take uses the top free id, and adds a slot where no id is free. `spare` is a
//! number of takes for which there is memory.
//!
//! The slots lie in pages of 128. An empty slot has the id that stands next below its own in the free list, so that
//! list takes no memory of its own: the pool keeps its top and its length. [`SlotPool::page`] lends a page as it lies.
//!
//! A move (`take`, `give`, their ways back `untake` and `ungive`, `replace`, `change`) counts one tick, takes a
//! constant number of steps and no memory, and so does each call that reads, but `next_id`, which goes down the free
//! list. [`SlotPool::moved`] is the number of all moves. [`SlotPool::reserve`] alone takes memory: it makes the pages that
//! are due. A page never moves, and none is given back while the pool lives.
//!
//! A record keeps its id until it is given. The pool doesn't clone or compare records, and knows nothing
//! of what a record means.
#![tactic(auto)]

pub mod fault;
pub mod free_ids;
pub mod laws;
pub mod page;
pub mod pool;
pub mod slot;
mod slots;

pub use fault::PoolFault;
pub use free_ids::FreeIds;
pub use laws::{good_after_moves, good_tables, records_after_moves};
pub use page::Page;
pub use pool::{SlotPool, Taken};
pub use slot::Slot;
