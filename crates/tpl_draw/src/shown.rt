//! What the nodes of tasks show.

use tpl_model::{Finals, Property, Status};

/// A claim that fails.
#[derive(Clone, Copy, PartialEq, Eq, Debug)]
pub struct Failing {
    /// Its number, from 1.
    pub claim: usize,
    /// What it says.
    pub says: Property,
}

/// A moment of a run.
#[derive(Drop)]
pub struct Moment {
    /// After how many events it is.
    pub place: usize,
    /// How each task stands then, in declared order.
    pub statuses: Vec<Status>,
    /// The claim that fails then, if one does.
    pub failing: Option<Failing>,
}

/// What the nodes of tasks show.
#[derive(Drop)]
pub enum Shown {
    /// How each task may end, in declared order; nothing past the end of the list.
    Endings(Vec<Finals>),
    /// How each task stands at a moment of a run.
    Run(Moment),
}
