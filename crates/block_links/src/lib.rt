//! A block that lies in cells, with its lists linked through them.
//!
//! The crate `block_cells` keeps cells with heads and links, and `block_store` says what a block is: tables of entries,
//! each with its lists. Here it is said when the one stands for the other ([`laws`]), and that it then is the block that is
//! read off: each object with the lists that its heads lead to.
//!
//! A [`Block`] keeps cells that stand for a consistent block. Its calls have the clauses that those of `block_store` have,
//! and a list asks for no room: [`Block::link`] and [`Block::unlink`] take a constant number of steps and no memory,
//! however long the list is, and [`Block::walk`] goes along the links. No call of the program uses it yet: a block that is
//! made of plain tables is missing here.
#![tactic(auto)]

pub mod block;
pub mod fields;
pub mod laws;
pub mod lists;
pub mod live;
pub mod names;
pub mod next;
pub mod objects;
pub mod records;
pub mod rooms;
pub mod walk;

pub use block::Block;
pub use laws::cells_stand_for_one_block;
pub use live::Live;
pub use next::NextIds;
pub use walk::Walk;
