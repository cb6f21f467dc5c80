//! How much may still be played.

use crate::crew::has_task;
use tpl_fast::Fast;
use tpl_graph::Graph;
use tpl_machine::Core;
use tpl_model::{Act, TaskId};

/// Choosing who acts next costs as much as one event for this many of whom to choose.
const CHOSEN_FOR_ONE: u64 = 16;

/// Joining an argument costs one event more for this many exceptions that are carried.
const CARRIED_FOR_ONE: u64 = 16;

/// How many events may still be played. What is dear beside them counts as so many.
#[derive(Clone, Copy, PartialEq, Eq, Debug)]
pub(crate) struct Budget {
    left: u64,
    /// What opening a run of the graph costs.
    opening: u64,
}

/// What opening a run of the graph costs: as much as one event for each that it may have, and for each argument.
fn opening_of(graph: &Graph) -> u64 {
    let mut size = u64::from(graph.bound());
    for number in 0..graph.len() {
        size = size.saturating_add(graph.args(TaskId(number as u16)).len() as u64);
    }
    size
}

impl Budget {
    pub(crate) fn new(graph: &Graph, events: u64) -> Budget {
        Budget {
            left: events,
            opening: opening_of(graph),
        }
    }

    /// Another budget for runs of the same graph.
    pub(crate) fn of_same(self, events: u64) -> Budget {
        Budget {
            left: events,
            opening: self.opening,
        }
    }

    pub(crate) fn left(self) -> u64 {
        self.left
    }

    pub(crate) fn is_spent(self) -> bool {
        self.left == 0
    }

    fn spend(&mut self, events: u64) {
        self.left = self.left.saturating_sub(events);
    }

    /// A run is opened.
    pub(crate) fn open(&mut self) {
        self.spend(self.opening);
    }

    /// An act is tried. A WhenAll or WhenAny task that ends joins what each argument carries.
    pub(crate) fn play(&mut self, core: &Fast<'_>, act: Act) {
        self.spend(1);
        if let Act::Settle(task) = act {
            if has_task(core, task) {
                let joined = core.carried(task).len() as u64 / CARRIED_FOR_ONE + 1;
                self.spend((core.graph().args(task).len() as u64).saturating_mul(joined));
            }
        }
    }

    /// One of this many is chosen.
    pub(crate) fn choose(&mut self, count: usize) {
        self.spend(count as u64 / CHOSEN_FOR_ONE + 1);
    }
}
