//! The words in which changes of a block are spoken of: edits, which a line or a watcher asks for; the
//! elementary steps that an edit comes to, which are the unit of the journal and of undo; tags and memos, by
//! which a step is taken back; and the refusals of edits.
//!
//! A [`Step`] is done or can't be done by the rules of its kind; it takes nothing else along. A [`Tag`] is a step
//! without what moves into the block, and a [`Memo`] is what the step moved out of it. A [`TechPart`] is what may be
//! entered into a technology or a library. Nothing here looks at a block.
#![tactic(auto)]

pub mod edit;
pub mod memo;
pub mod part;
pub mod refusal;
pub mod step;
pub mod tag;

pub use edit::{Edit, RowSites};
pub use memo::Memo;
pub use part::TechPart;
pub use refusal::Refusal;
pub use step::Step;
pub use tag::Tag;
