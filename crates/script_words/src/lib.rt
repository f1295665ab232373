//! The command of a line of the script: its words, the forms that they must have, and what they ask for.
//!
//! [`command`] is the top call. A line's first word names a verb ([`verb`]), and the verb has a line form: the words
//! behind it are taken one after another, each by its form ([`forms`]), up to the end of the line. Whether a command can be done is no question
//! here: names of edits are any words, identifiers may name nothing, and numbers may be outside the limits of
//! their fields. Only the lines of layers, sites and masters ask for lawful names, and those of sites and masters for
//! numbers that their fields hold; the lines on files ask for a name of a file.
//!
//! The work grows with the line. Only names, texts and names of files take memory, for a copy of their bytes, and the
//! line of a master for the list of its terminals.
#![tactic(auto)]

pub mod command_words;
mod edit_lines;
pub mod fault;
pub mod file_name;
pub mod forms;
mod master_line;
pub mod number;
mod query_lines;
pub mod request;
mod tech_lines;
pub mod verb;
pub mod words;

pub use command_words::Command;
pub use fault::LineFault;
pub use file_name::FileName;
pub use request::command;
