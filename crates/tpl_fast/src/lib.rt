//! Runs of a task graph at a cost per event that doesn't grow with the run.
//!
//! ## Choices
//!
//! - **The indexed machine holds a plain one and keeps beside it what that one would walk for.** After an event it
//!   recomputes what is due only for the event's task, the started child, those that wait for either, and the tasks
//!   whose own token is newly requested; it looks at the tokens only where an event requests one. It doesn't count
//!   what a task still waits for, but keeps how many leading entries of its list have ended. So a WhenAll task looks
//!   on from the first argument that hadn't ended, and a parent whose body is left, from the first attached child
//!   that hadn't: each is passed over once. A WhenAny task is marked once one of its arguments has ended. No clause
//!   speaks of this. No run reaches the bound of 69,664 events: the first task is never released, and a task that is
//!   closed had started a child, which isn't released either. The longest run has 68,639.
#![tactic(auto)]

mod bits;
mod fast;
mod links;
mod marks;
mod state;
mod tell;
mod tokens;

pub use fast::Fast;
pub use marks::task_of;
