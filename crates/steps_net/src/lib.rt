//! What elementary steps do to instances, nets and terminals, and the ways back.
//!
//! A step changes a table, a list and a field together, and each call here makes one such change of a block, or
//! takes one back: instances come and go with their terminals ([`instances`]), objects of other kinds come by
//! themselves ([`objects`]), terminals are joined to nets and parted from them ([`joins`]), and instances get other
//! masters ([`swaps`]). Contracts say what becomes of the block as a value. Nothing here judges whether a step may be
//! done: each call asks for what it needs, and `block_steps` shows it.
//!
//! That a step leaves a sound block sound, and that its way back leads to the block before it, are laws over the
//! definitions of `specs`, step by step, in `proofs`.
#![tactic(auto)]

pub mod instances;
pub mod joins;
pub mod laws;
pub mod objects;
pub mod swaps;

pub use laws::swaps_keep_names;
