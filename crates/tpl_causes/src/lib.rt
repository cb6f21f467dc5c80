//! How a run came to where a claim fails, in words: from there back, each event that made a later one possible or due.
//!
//! ## Choices
//!
//! - **That the causes explain the run is no promise.** Which event made another one possible or due is a matter of judgement,
//!   and a definition of it would only repeat the code. What is promised is that they are events of the run, in its order.
//!   Whether they explain it is tried on runs that were worked out by hand (`cases/reasons.toml`, `cases/verifies.toml`).
//! - **The words look back from the end of the run**, where it is known how each task has ended.
#![tactic(auto)]

mod cause;
mod history;
mod naming;
mod tale;
mod telling;

pub use cause::Cause;
pub use naming::{Named, name, name_of, token_name};
pub use tale::{add_causes, told};
pub use telling::causes_of;
