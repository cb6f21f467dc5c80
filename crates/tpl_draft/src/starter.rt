//! Who starts a task.

use tpl_model::TaskId;

/// Which start statements name a task.
#[derive(Clone, Copy)]
pub enum Starter {
    Nobody,
    /// One, in the body of this task.
    One(TaskId),
    Several,
}
