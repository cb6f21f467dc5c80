//! Runs of a task graph, event by event.
//!
//! ## Choices
//!
//! - **Beside the events the plain machine keeps what reads one another along the list**: for each task what is left
//!   of its body with the outcome, whether it is started and how it ended; which tokens were requested themselves;
//!   and whose exceptions were observed. A reader that only walked would take exponential time. It walks for all
//!   else, so a step's time grows with the events so far.
//! - **Whether a task was settled at a begin is read from the whole run**: below a task that had ended by then, a
//!   child that wasn't started never is.
//! - **Exceptions are joined through a set beside the list.** The list has them in order, the set says in one step
//!   whether one is there. Both hold the same tasks, by an invariant.
#![tactic(auto)]

mod atoms;
mod gather;
mod machine;
mod marks;
mod rows;

pub use machine::Machine;
pub use tpl_run::{Core, Next, Refused, one_is_due};
