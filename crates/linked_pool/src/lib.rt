//! Pools of objects that are linked into lists: beside each object its slot has a link, the members next to it in the
//! list that it stands in.
//!
//! A pool knows its links and no list. Who keeps the heads of lists goes through the links by the calls of
//! [`link_list`], for which each pool here is a keeper of cells: an identifier with an object is a cell.
//! [`LinkedPool`] has objects without names, [`LinkedNames`] those with names. The objects of [`PairedPools`] are of two
//! kinds and stand in one sort of lists, where a member's number is twice its identifier, and one more for the second
//! kind.
//!
//! Contracts see each as the pool that it is, whose records have a link. To set a link is one move of the pool.
#![tactic(auto)]

pub mod changes;
pub mod linked;
pub mod names;
pub mod pairs;
pub mod pool;

pub use changes::{Change, change_list};
pub use linked::{LinkOf, Linked, Within};
pub use names::LinkedNames;
pub use pairs::PairedPools;
pub use pool::LinkedPool;
