//! What an audit says.

use tpl_model::{Final, Status, TaskId};

/// A claim that doesn't hold.
#[derive(Clone, Copy, PartialEq, Eq, Debug)]
pub struct Failure {
    /// After how many events it doesn't; 0 is before the first.
    pub place: usize,
    /// Which one, counted from 1.
    pub claim: usize,
}

/// A task that ended otherwise than is said of it, or has not ended.
#[derive(Clone, Copy, PartialEq, Eq, Debug)]
pub struct OtherEnd {
    /// The task.
    pub task: TaskId,
    /// How it is said to have ended.
    pub said: Final,
    /// Where it stands after the last event.
    pub status: Status,
}

/// What an audit says of a list of events.
#[derive(Clone, Copy, PartialEq, Eq, Debug)]
pub enum Verdict {
    /// Each event is allowed after those before it.
    Run {
        /// Each task that is no child, and each started child, has ended.
        complete: bool,
        /// The first place at which a claim doesn't hold, and the least claim there.
        fails: Option<Failure>,
        /// The first task, in declared order, that has not ended as is said of it.
        other_end: Option<OtherEnd>,
    },
    /// An event isn't allowed after those before it.
    NotAllowed {
        /// The place of the first such event, counted from 1.
        place: usize,
    },
    /// The memory for the run was refused.
    Memory,
}
