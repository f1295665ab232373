//! Elementary steps of a block: whether one may be done, room for it, doing it and taking it back.
//!
//! [`can`] judges a step. [`make_room`] asks for the slots and the memory that it takes, and so names the table
//! that is full or finds that memory is short before anything changed. After both, [`apply`] does the step, takes
//! no memory and can't fail; it answers what the step moved out of the block. From that and the step's tag
//! [`unapply`] leads back to the very block before the step, with every list in its order and every free list.
//! [`room_back`] asks for the memory that it takes.
#![tactic(auto)]

pub mod doing;
pub mod judging;
mod masters;
mod memos;
pub mod room;
pub mod undoing;

pub use doing::apply;
pub use judging::{Misfit, can};
pub use room::{make_room, room_back};
pub use undoing::unapply;
