//! What is reported of a run.

use tpl_model::{Event, Label, Status, TaskId};

/// What is reported of a run: an entry for each task, the tasks whose own exception nobody observed, how many items
/// were called and how many returned, and the journal.
#[derive(Drop)]
pub struct Report<'a> {
    pub complete: bool,
    pub statuses: &'a [Status],
    pub labels: &'a [Option<Label>],
    pub carried: &'a [Vec<TaskId>],
    pub unseen: &'a [TaskId],
    pub called: usize,
    pub returned: usize,
    pub journal: &'a [Event],
}
