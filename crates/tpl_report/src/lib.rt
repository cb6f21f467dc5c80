//! The run of a document, from its items to a writer; and all commands of the program.
//!
//! ## Choices
//!
//! - **Boxes are made inside the function that uses them**, since a function that hands out boxes hides what it
//!   reaches.
//! - **That N workers ran is stated by their seats.** The report of a run is one of the asker's seat and of the seats
//!   of the workers 1 to N, each with its own events; nobody else has any. A worker that did nothing leaves no trace
//!   in a text, so that each had a thread is tested and not proved.
#![tactic(auto)]

mod fault;
mod following;
mod requests;
mod running;
mod session;
mod telling;

pub use fault::RunFault;
pub use following::{Crew, Follow};
pub use running::{serve_run, serve_run_followed};
pub use telling::Telling;
pub use tpl_analyser::{Depth, Form};
pub use tpl_commands::{
    Answer, Ask, Exit, load, put_answer, put_out_of_memory, read_input, serve, serve_watched,
};
pub use tpl_journal::write_report;
pub use tpl_runtime::Watcher;
