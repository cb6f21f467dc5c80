//! A command's answers to many documents, each on a line of its own, from a reader to a writer.
//!
//! ## Choices
//!
//! - **Each line of an answer has its number and exit status before it**, rather than a line between answers: so an
//!   answer of two lines stays readable, and `grep` and `awk` find all bad ones. Nothing else is written around it.
//! - **A batch has as many lines as there are threads**, and each thread answers its share of them in place: no
//!   memory is taken for that, so no line is lost where memory runs out, and the answers are the same for each
//!   number. The price is that a batch waits for its slowest line.
//! - **A line for which memory runs out is answered as such**, as a document alone is; what is written then needs
//!   none.
//! - **With `--each` the threads go to lines, and none to the claims of one.** So no thread starts another, `--jobs`
//!   bounds them all, and a line costs the same for each number. No reasons are given: threads beside each other
//!   would say them in no order.
#![tactic(auto)]

mod ahead;
mod answering;
mod batch;
mod gathering;
mod line;
mod next;
mod serving;
mod slot;
mod writing;

pub use serving::serve_each;
pub use slot::MOST_JOBS;
