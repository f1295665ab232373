//! The replies to queries of a database: what has a name, which objects there are, which identifiers are free,
//! and what is joined to a net.
//!
//! [`report`] appends the whole accepted reply to a query. It takes time by the length of the reply; `find`
//! walks over the names of the kind.
#![tactic(auto)]

mod lines;
pub mod query;
pub mod replies;
pub mod text;

pub use query::{Query, ReportFault};
pub use replies::report;
