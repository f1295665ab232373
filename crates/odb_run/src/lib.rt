//! The database program, apart from the real streams: a script of lines is read, each line is answered, and
//! the whole is proved to be the copying machine.
//!
//! [`odb_main`] is the top call. Below it stand, from the script to the database: the run over the pieces of
//! the script (`run`, `top`), the command line (`options`), the answers and their replies (`answers`, with
//! `file_answers` and `lef_answers` for the lines on files, and `reply`), the session with its ECO (`session`), and the
//! steps that are done, noted and taken back (`steps`, `journal`). The words of a line, the plan of an edit, the
//! elementary steps, the parts that are entered, LEF files, the saved bytes and the reports are crates of their own.
//!
//! The work of a line grows with the line, that of `save`, `load` and `read_lef` with the database or the file, and
//! that of `eco_undo` with the steps of the ECO; the name of an object is looked for by a walk over the objects of its
//! kind.
#![tactic(auto)]

mod answers;
mod file_answers;
mod journal;
pub mod laws;
mod lef_answers;
mod options;
mod outcome;
mod reply;
mod run;
mod session;
mod status;
mod steps;
mod stop;
mod top;

pub use laws::{answers_are_determined, each_line_has_an_answer};
pub use status::Status;
pub use top::odb_main;
