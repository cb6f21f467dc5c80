//! Readers and writers whose failed calls are counted, whole texts over them, and the texts of
//! journals and reports.
//!
//! ## Choices
//!
//! - **A failed read ends reading**, interrupted or not; a failed flush is a failed write.
//! - **A journal is written in pieces of whole lines**, gathered in a buffer of 4,096 bytes in the call itself, so
//!   that it takes no memory and the writer is called once a piece. **The audit stands in a crate of its own**: the
//!   text of journals stands on graphs alone, the audit on the longest chain of crates. It plays the events on the
//!   indexed machine, as `close` and the reasons do: both machines have the one contract of `Core`, so no clause
//!   depends on which it is, and a long journal costs less. That the two agree is tested besides, event by event
//!   (`tests/sessions`).
//! - **A text of names and numbers reads in one way only because names are spelled as names**: no space, no line
//!   break. A graph keeps this of its tasks' and tokens' names.
//! - **A report's labels are looked up, and one that the graph lacked would be written as nothing**: so the text
//!   needs no premise on them.
//! - **The text of a report is made from a view**: `tpl_journal::Report` has slices and counts of what a session
//!   gives back, and neither receipts nor items. So the text needs graphs and journals alone, and a report that the
//!   program writes is linked to its session's by one definition (`tpl_report`, `IsReport`).
#![tactic(auto)]

mod counting;
mod cut;
mod parts;
mod reading;
mod reading_lines;
mod report;
mod report_lines;
mod report_names;
mod seat;
mod text_law;
mod verb;
mod writing;
mod writing_lines;

pub use counting::Counting;
pub use reading::{BLOCK_BYTES, InputFault, read_limited};
pub use reading_lines::{JournalFault, read_journal};
pub use report::Report;
pub use report_lines::write_report;
pub use text_law::{fault_is_no_journal, spells_run, text_is_unambiguous};
pub use writing::{WriteFault, write_all, write_whole};
pub use writing_lines::write_journal;
