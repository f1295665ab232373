//! The block of a design: its objects of twelve kinds, one table each, with the lists and names that join them.
//!
//! Contracts see a [`Block`] as a store: the block as a model, which is a header and twelve tables of slots with
//! their free identifiers; the cap on the slots of a table; and for how much there is room in memory. Where objects
//! of a kind have lists of others, a row is an *entry*, the record with its lists. Identifier k names the k-th slot
//! of its kind's table, from 1, and 0 names nothing.
//!
//! Each call is exact: one that writes says what becomes of the whole model, one that reads says what it answers of
//! it. [`Block::room`] and [`Block::room_in`] alone take memory, and where they have made room the calls that need it
//! can't fail. `take` and `give` with their ways back, the calls that set one field, and the reading of a record take
//! a constant number of steps, and so does [`Block::find`] on average: it compares a name with those that share its
//! hash's bucket, one or two. A list is a vector: to enter or to leave it moves the members that stand behind, and a
//! full one moves whole. [`Block::walk`], [`Block::ids`] and [`Block::free_ids`] take no memory.
//!
//! [`Block::with_tables`] makes a block of [`Tables`], plain vectors of slots and free identifiers. It judges nothing
//! but what it asks for: whether the block is sound is for the crate `block_tables`.
//!
//! Each block is consistent: tables are good, no two objects of a kind have one name, and each member of a list is
//! there, stands in it once and in no other list of its sort. The calls keep that, and ask for what it takes: that a
//! name is new, that an object that goes stands alone, and that a member enters from outside. They don't keep a list
//! and the field by which a member names the list's object in step: `link` changes the one and `set_net` the other.
//! That, and what a design means, is for the crates above.
#![tactic(auto)]

pub mod block;
pub mod database;
pub mod entry;
mod entry_fields;
mod every_kind;
pub mod fault;
pub mod fields;
pub mod free_ids;
pub mod ids;
pub mod laws;
pub mod list_of;
pub mod lists;
pub mod live;
mod members;
pub mod names;
pub mod next;
pub mod objects;
mod pools;
pub mod records;
pub mod tables;
pub mod values;
pub mod walk;

pub use block::{Block, SLOT_LIMIT};
pub use database::Database;
pub use entry::{BTermEntry, GroupEntry, InstEntry, NetEntry, RegionEntry, RowEntry};
pub use fault::RoomFault;
pub use free_ids::FreeIds;
pub use ids::Ids;
pub use laws::names_and_finding;
pub use list_of::ListOf;
pub use live::Live;
pub use next::NextIds;
pub use tables::{PlainTable, Tables};
pub use values::SITE_LIMIT;
pub use walk::Walk;
