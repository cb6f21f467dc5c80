//! What makes a task ready, with the tasks that it waits for.

use tpl_model::TaskId;

/// What makes a task ready, with the tasks that it waits for (Task Parallel Library guide: tasks, child tasks,
/// continuations, `Task.WhenAll` and `Task.WhenAny`).
#[derive(Clone, Copy)]
pub enum Role<'g> {
    /// It is ready from the first.
    Root,
    /// Its parent starts it.
    Child,
    /// It continues an antecedent.
    Then(TaskId),
    /// It waits for all of these.
    All(&'g [TaskId]),
    /// It waits for one of these.
    Any(&'g [TaskId]),
}
