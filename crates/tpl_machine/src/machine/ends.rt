//! What the ends of several tasks come to.

ghost use Rattle.std.specs.Prelude.{◌≡◌, map, option_map};
ghost use Rattle.tpl_draft.specs.Prelude.{task_number};
ghost use Rattle.tpl_model.specs.Prelude.{all_final, earlier, ending, first_ended, worse};

use crate::machine::Machine;
use tpl_model::{Final, TaskId};
use tpl_run::Readers;
use tpl_run::ends::has_ended;

/// The worse of how one task ended and how others did.
fn worse(first: Option<Final>, others: Final) -> Final
    ensures { result ≡ worse first others }
{
    match first {
        Some(Final::Faulted) => Final::Faulted,
        Some(Final::Canceled) => match others {
            Final::Faulted => Final::Faulted,
            _ => Final::Canceled,
        },
        _ => others,
    }
}

impl<'g> Machine<'g> {
    /// The worst of how the tasks ended.
    pub(crate) fn worst(&self, tasks: &[TaskId]) -> Final
        ensures { result ≡ all_final (map task_number tasks.now)
            (ending self.now.graph self.now.inputs self.now.events) }
    {
        let mut so_far = Final::RanToCompletion;
        for i in (0..tasks.len()).rev() {
            so_far = worse(self.final_of(tasks[i]), so_far);
        }
        so_far
    }

    /// The one that ended first, of this task and the first so far.
    fn earlier(&self, task: TaskId, best: Option<TaskId>) -> Option<TaskId>
        ensures { let e = ending self.now.graph self.now.inputs self.now.events in
            option_map task_number result ≡ earlier e task.0 (e task.0)
            (option_map task_number best) }
    {
        if !has_ended(self, task) {
            return best;
        }
        match best {
            None => Some(task),
            Some(other) => {
                if self.place_of(other) < self.place_of(task) {
                    Some(other)
                } else {
                    Some(task)
                }
            }
        }
    }

    /// The task that ended first; of those that ended before the first event, the earliest in the list.
    pub(crate) fn first_ended(&self, tasks: &[TaskId]) -> Option<TaskId>
        ensures { option_map task_number result ≡ first_ended (map task_number tasks.now)
            (ending self.now.graph self.now.inputs self.now.events) }
    {
        let mut best = None;
        for i in (0..tasks.len()).rev() {
            best = self.earlier(tasks[i], best);
        }
        best
    }
}
