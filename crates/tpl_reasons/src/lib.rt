//! Why the program answers as it does, in words.
//!
//! ## Choices
//!
//! - **What the words take from a document is escaped once, at the end.** A name that a document has, and should not,
//!   may hold an escape sequence of a terminal, or a character that turns the direction in which a text is read. The
//!   parts of a reason are put together as they come, and the last call before standard error writes each such
//!   character as JSON escapes it. So one clause speaks of all reasons, and no part has to think of it.
//! - **A wrong shape keeps its value.** The error of each reader of a part lends the value whose shape is wrong
//!   (`tpl_json::Shape`), which costs next to nothing. An error that held the form that was expected made the reading
//!   of a good document twice as slow. Where the reading ends with a fault, whoever listens is shown the value that
//!   was read (`tpl_reader::Hear`), and what it says goes up with the fault, so that no text is read twice. There the
//!   reader of the refused part is asked once more, and says which value is wrong. The path is looked for in that
//!   part alone: it leads to the first value that looks like this one and stands where the table of forms doesn't
//!   allow it (`tpl_reasons/src/misread/form.rt`). To compare addresses would be shorter, but pointers into different
//!   blocks may not be compared in code that is proved. A path that errors gather on their way up would need two
//!   steps for each level of a body, from each of some ninety readers. The table promises nothing, since a clause on
//!   it would say it again. The place isn't proved, it is tested: `cases/test_misfits.py` changes two documents at
//!   each of their values, and `cases/explains.toml` has words that were worked out by hand.
#![tactic(auto)]

mod auditing;
mod checking;
mod crossing;
mod explaining;
mod journal;
mod leaves;
mod misread;
mod obstacle;
mod property;
mod reason;
mod refusal;
mod rules;
mod searching;
mod shown;
mod unread;
mod words;

pub use explaining::{Reasoned, explain};
pub use misread::{no_document_text, no_json_text, twice_text};
pub use obstacle::obstacle_words;
pub use reason::Reason;
pub use searching::tried_words;
pub use shown::said_name;
pub use words::{claim_words, input_words};
