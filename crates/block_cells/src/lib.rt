//! The pools of a block, one for each kind of objects, with lists that are linked through them: a cell has the object's
//! record, the first member of each of its lists, and a link where objects of the kind stand in lists.
//!
//! Contracts see the cells as they lie: twelve tables, the cap of their slots, and for how many new objects there is
//! room. A list is what its head and the links of its members say: [`Pools::head`] and [`Pools::set_head`] read and set
//! the one, and [`Pools::change_links`] changes the others by one member, given the list that the head stands for;
//! [`Pools::walk`] goes along them. That
//! the lists of all objects stand at once, and that no member is in two, is for the crate above.
//!
//! [`Pools::room`] and [`Pools::new`] alone take memory, and where there is room the calls that need it can't fail. Each
//! call but `room` takes a constant number of steps, on average where it looks for a name; a member that is put last in
//! a list takes a step for each that is there.
//!
//! The crate `block_store` has pools of its own, with lists in vectors, and doesn't stand on this one yet.
#![tactic(auto)]

mod cell_fields;
pub mod cells;
pub mod counts;
mod every_kind;
pub mod free_ids;
pub mod links;
pub mod list_of;
pub mod names;
pub mod objects;
pub mod pools;
pub mod records;
pub mod rooms;
pub mod setters;
pub mod walk;

pub use cells::{BTermCell, GroupCell, InstCell, NetCell, RegionCell, RowCell};
pub use free_ids::FreeIds;
pub use list_of::ListOf;
pub use pools::Pools;
pub use walk::Links;
