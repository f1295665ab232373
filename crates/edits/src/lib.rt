//! The plan of an edit: the elementary steps that it comes to, in the order in which they are done, or its one
//! refusal.
//!
//! [`plan`] reads the block and the library and changes nothing. Each edit is a chain of questions in the order of
//! its refusals: the first that fails is the refusal. Over a sound block the steps of a plan can be done one after
//! the other, and the tables have room for what they make, so whoever does them can fail for want of memory alone.
//!
//! A plan takes memory for its steps and for the names in them. Its time goes with what hangs on the object that it
//! destroys, with the slots of a table where a name is looked for, and with the product of the numbers of terminals
//! where two masters are compared.
#![tactic(auto)]

pub mod checks;
pub mod destroy;
pub mod laws;
pub mod make;
pub mod planning;
pub mod rows;
pub mod set;
pub mod swap;

pub use planning::plan;
