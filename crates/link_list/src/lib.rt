//! Doubly linked lists of objects whose links lie in the objects themselves.
//!
//! The cells that hold the links are kept by someone else, who says by [`LinkCells`] how a link is read
//! and written; here a list is only a [`Head`], the identifier of its first member. In contracts a head
//! *stands* over its cells for a plain list of identifiers, in order and none of them twice. Many heads may
//! stand over the same cells for lists without a common member: a change of one list leaves the others.
//!
//! [`push_front`] and [`unlink`] read and write a fixed number of links, and so does [`insert_before`] a
//! member. Without one, [`insert_before`] reads the link of each member to find the last, since a head names
//! the first alone. No call takes memory.
//!
//! An object stands in one list for each link that it has: whoever keeps the cells sees to it that what is
//! put in is in no other list over them. Nothing here goes over a list for a caller; that is one read of
//! a link for each member.
#![tactic(auto)]

pub mod cells;
pub mod edits;
pub mod laws;
pub mod link;

pub use cells::LinkCells;
pub use edits::{insert_before, push_front, unlink};
pub use laws::{put_back, read_off};
pub use link::{Head, Link};
