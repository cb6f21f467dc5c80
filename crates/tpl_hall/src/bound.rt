//! The worker on which a task has to begin.

ghost use Rattle.std.specs.Prelude.{◌≡◌, ◌&&◌, not, option_map};
ghost use Rattle.tpl_hall.specs.Prelude.{actor_at, worker_number};
ghost use Rattle.tpl_model.specs.Prelude.{bound_worker, execute_synchronously, is_task, kind, options, run_continuations_asynchronously, worker_of};

use crate::hall::Hall;
use tpl_machine::Core;
use tpl_model::{Actor, TaskId, Worker};

impl<'g, K: Drop> Hall<'g, K> {
    /// A continuation begins on the worker that ends its antecedent (`TaskContinuationOptions.ExecuteSynchronously`,
    /// `RunContinuationsAsynchronously`).
    fn is_synchronous(&self, task: TaskId, antecedent: TaskId) -> bool
        requires task { is_task self.now.core.graph task.0 }
        requires antecedent { is_task self.now.core.graph antecedent.0 }
        ensures { let g = self.now.core.graph in result ≡ (execute_synchronously (options g task.0)
            && not (run_continuations_asynchronously (options g task.0))
            && not (run_continuations_asynchronously (options g antecedent.0))) }
    {
        let graph = self.core.graph();
        let options = graph.options(task);
        options.execute_synchronously()
            && !options.run_continuations_asynchronously()
            && !graph.options(antecedent).run_continuations_asynchronously()
    }

    /// The worker that did the event at this place, counted from 1; none where it was done from outside, and at place 0.
    fn worker_at(&self, place: u32) -> Option<Worker>
        ensures { option_map worker_number result ≡ worker_of (actor_at self.now.journal.items
            place) }
    {
        if place == 0 {
            return None;
        }
        match self.journal.get(place as usize - 1)?.actor {
            Actor::Worker(worker) => Some(worker),
            Actor::Outside(_) => None,
        }
    }

    /// The worker on which a task has to begin, if it is bound to one: a continuation that is to run synchronously is
    /// bound to the worker that did the event which ended its antecedent.
    pub fn bound_to(&self, task: TaskId) -> Option<Worker>
        requires { is_task self.now.core.graph task.0 }
        ensures { let j = self.now.core in option_map worker_number result ≡ bound_worker j.graph
            j.inputs j.events task.0 (kind j.graph task.0) }
    {
        self.core.run_law();
        let antecedent = self.core.graph().antecedent(task)?;
        if !self.is_synchronous(task, antecedent) {
            return None;
        }
        self.worker_at(self.core.ended(antecedent)?)
    }
}
