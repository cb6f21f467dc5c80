//! What may become of each task of a graph under what is assumed, and the rows that say so.
//!
//! ## Choices
//!
//! - **A leaf of the search is worked out from the branch above it.** A split assumes one more end. The pass begins
//!   at that task, and goes on only to tasks that look at one whose fate changed. What a WhenAll or WhenAny task
//!   waits for is a set of bits. No clause speaks of these sets: what the search gives is checked as before.
//! - **These rows are made in declared order, family by family.** A row looks at tasks that are declared before its
//!   own, a child's begin at its parent's, a parent's end at its attached children's, and at nothing else. So one
//!   pass over the tasks is enough, and nothing is repeated until it doesn't change. Only the task of an `observed`
//!   has a chain, since no other chain is looked at. Of equally short ones it is the one with the least task where
//!   they first differ, so that each reader has the same.
#![tactic(auto)]

mod bearing;
mod bits;
mod cancels;
mod chain;
mod followers;
mod goal;
mod least;
mod outline;
mod pass;
mod rows;
mod setting;
mod stages;
mod stuck;
mod ways;

pub use bearing::bearing_tasks;
pub use cancels::cancels_quiet;
pub use chain::has_chain;
pub use followers::Followers;
pub use least::{is_proved, least_rows, reached};
pub use outline::{Fate, NO_END, Outline};
pub use pass::{Beyond, outline_under};
pub use setting::Setting;
pub use stages::{Stage, stages_of};
