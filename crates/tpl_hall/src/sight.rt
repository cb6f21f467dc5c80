//! What is reported of a run to a seat.

use tpl_model::{Status, TaskId, TokenId};

/// What was true of a run at a moment.
#[derive(Clone, Copy, PartialEq, Eq, Debug)]
pub enum Sight {
    /// The task stood here.
    At(TaskId, Status),
    /// The token was requested.
    Already(TokenId),
    /// The run was complete.
    Complete,
}

/// What a look at a task answers.
#[derive(Clone, Copy, PartialEq, Eq, Debug)]
pub enum Looked {
    /// Where the task stands, and how many events the run has.
    At { status: Status, place: u32 },
    /// The seat isn't of this session.
    Stray,
}

/// What the request of a token answers.
#[derive(Clone, Copy, PartialEq, Eq, Debug)]
pub enum Asked {
    /// It was requested by the event at this place.
    Place(u32),
    /// It was requested before.
    Already,
    /// The session is halted.
    Halted,
    /// The seat isn't of this session, or is a worker's.
    Stray,
}

/// How a worker's work came to its end.
#[derive(Clone, Copy, PartialEq, Eq, Debug)]
pub enum Ended {
    /// The run is complete.
    Complete,
    /// The session is halted.
    Halted,
    /// The seat isn't of this session, or is no worker's; or the worker's task went on without it.
    Stray,
}
