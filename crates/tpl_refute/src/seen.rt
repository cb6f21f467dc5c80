//! What is seen in a few random runs of a graph.

use crate::budget::Budget;
use crate::dice::Dice;
use crate::plan::Plan;
use crate::walk::{Tables, stroll};
use std::alloc::{AllocError, Global};
use tpl_fast::Fast;
use tpl_graph::Graph;
use tpl_machine::Core;
use tpl_model::{Finals, Property, Status, TaskId};

/// How many of ten jobs fail in each of the runs (this program's own choice).
const FAILING: [u32; 6] = [0, 0, 10, 1, 3, 5];

/// How many events are played in all of them at most (this program's own limit).
const PLAYED_TO_SEE: u64 = 200_000;

/// What was seen of a task.
#[derive(Clone, Copy)]
struct Sight {
    /// It began.
    begun: bool,
    /// It ended in these ways.
    ends: Finals,
}

/// Nothing was seen.
const UNSEEN: Sight = Sight {
    begun: false,
    ends: Finals {
        ran: false,
        canceled: false,
        faulted: false,
    },
};

/// What was seen in a few random runs of a graph, in which nobody outside requests a token. It says which properties needn't be
/// searched a certificate of. No clause speaks of it.
#[derive(Drop)]
pub struct Seen {
    tasks: Vec<Sight>,
}

impl Seen {
    /// What is seen in a few random runs of the graph, the same ones each time. Out of memory is the only error.
    pub fn of_graph(alloc: Global, graph: &Graph) -> Result<Seen, AllocError> {
        let mut seen = Seen {
            tasks: vec![in alloc; UNSEEN; graph.len()]?,
        };
        let mut tables = Tables::new(alloc, graph)?;
        let mut dice = Dice::new(0, 0);
        let mut budget = Budget::new(graph, PLAYED_TO_SEE);
        for failing in FAILING {
            let plan = Plan::undisturbed(graph, &mut tables.weights, &mut dice, failing);
            let run = stroll(alloc, graph, &mut tables, &mut dice, &plan, &mut budget)?;
            seen.note(&run);
        }
        Ok(seen)
    }

    /// In one of the runs the property isn't true.
    pub fn denies(&self, body: Property) -> bool {
        match body {
            Property::Never(task) => self.sight(task).begun,
            Property::Final(task, ends) => {
                let seen = self.sight(task).ends;
                seen.ran && !ends.ran
                    || seen.canceled && !ends.canceled
                    || seen.faulted && !ends.faulted
            }
            _ => false,
        }
    }

    /// What was seen of the task.
    fn sight(&self, task: TaskId) -> Sight {
        match self.tasks.get(task.0 as usize) {
            Some(sight) => *sight,
            None => UNSEEN,
        }
    }

    /// Notes what the run shows.
    fn note(&mut self, core: &Fast<'_>) {
        for number in 0..core.graph().len() {
            let task = TaskId(number as u16);
            let mut sight = self.sight(task);
            if core.began(task).is_some() {
                sight.begun = true;
            }
            if let Status::Completed(end) = core.status(task) {
                sight.ends.insert(end);
            }
            if let Some(place) = self.tasks.get_mut(number) {
                *place = sight;
            }
        }
    }
}
