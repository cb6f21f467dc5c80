//! What is traced.

use crate::moment::Moment;
use std::alloc::Global;
use tpl_graph::Graph;
use tpl_model::{Event, TaskId};

/// A run of a graph.
#[derive(Clone, Copy)]
pub(crate) struct Run<'r> {
    pub(crate) alloc: Global,
    pub(crate) graph: &'r Graph,
    pub(crate) events: &'r [Event],
}

/// A task in a run, and where the entries of an act of it stand in the trace.
#[derive(Clone, Copy)]
pub(crate) struct Turn<'r> {
    pub(crate) run: Run<'r>,
    pub(crate) task: TaskId,
    pub(crate) here: Moment,
}
