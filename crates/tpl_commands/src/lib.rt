//! The commands that answer a document by a text, from a reader to a writer.
//!
//! ## Choices
//!
//! - **`analyse --whole` writes the members of an object in the order of the bytes of their names**, as compact JSON
//!   in one line: a JSON value keeps no other order. A document that would be longer with its certificate than what
//!   is read isn't written: `too long`, exit 1, since the document itself was read.
//! - **Which claim a search's answer names is part of what was found**, and follows from no definition: only the call
//!   that searched can say it. So the answer and its reason are both made from that one value
//!   (`tpl_commands::Finding`), and neither searches again.
#![tactic(auto)]

mod answer;
mod ask;
mod auditing;
mod certifying;
mod checking;
mod drawing;
mod exit;
mod finding;
mod listening;
mod loading;
mod proof;
mod recorded;
mod responding;
mod rules;
mod searching;
mod serving;
mod text;
mod unreadable;

pub use answer::{Answer, put, put_answer, put_out_of_memory};
pub use ask::Ask;
pub use auditing::{Audit, audit_answer};
pub use checking::{check_document, refused_answer};
pub use exit::Exit;
pub use finding::{Finding, Found, answer_of, find};
pub use listening::{Listen, Nobody};
pub use loading::{Loaded, load, load_watched};
pub use proof::{Proof, find_proof};
pub use recorded::{ended_of, times_of};
pub use responding::{Answered, Command, put_answered, read_input, respond, unread};
pub use rules::rules_of;
pub use searching::{Outcome, Searched};
pub use serving::{Asking, serve, serve_watched};
