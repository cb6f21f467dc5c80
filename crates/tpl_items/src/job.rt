//! What a queue carries from one worker to another.

use crate::work_item::WorkItem;
use tpl_model::TaskId;

/// A task that may be run, with all that its body may call. A queue of jobs never looks into the
/// items, so they are a parameter: see [`WorkJob`].
#[derive(Drop)]
pub struct Job<I> {
    /// The task.
    pub task: TaskId,
    /// What the task's body may call.
    pub items: I,
}

/// The job of a task whose items are stamped by `K`: one item for each work statement of its body.
pub type WorkJob<K> = Job<Vec<WorkItem<K>>>;
