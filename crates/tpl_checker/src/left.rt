//! The ends that are left to tasks.

ghost use Rattle.std.specs.Prelude.{◌≡◌, ◌<◌, ◌&&◌, ◌||◌, ℕ, not, nat_eq, true};
ghost use Rattle.tpl_checker.specs.Prelude.{left_by};
ghost use Rattle.tpl_model.specs.Prelude.{has};

use crate::rows::with_if;
use tpl_model::{Final, Finals, MOST_TASKS, TaskId, TaskSet};

/// The ends that are left to tasks, by the tasks that don't end so for each way to end; 384 bytes long.
#[derive(Drop)]
pub(crate) struct Left {
    not_ran: TaskSet,
    not_canceled: TaskSet,
    not_faulted: TaskSet,
}

impl Left {
    /// Each task may end in each way.
    pub(crate) fn all() -> Left
        ensures { (t : ℕ) (f : Final) → left_by result t f ≡ true }
    {
        Left {
            not_ran: TaskSet::empty(),
            not_canceled: TaskSet::empty(),
            not_faulted: TaskSet::empty(),
        }
    }

    /// A copy.
    pub(crate) fn copy(&self) -> Left
        ensures { result ≡ self.now }
    {
        Left {
            not_ran: self.not_ran.copy(),
            not_canceled: self.not_canceled.copy(),
            not_faulted: self.not_faulted.copy(),
        }
    }

    /// What is left where the task ends in no other than these ways too.
    pub(crate) fn keeping(&self, task: TaskId, ends: Finals) -> Left
        requires { task.0 < MOST_TASKS }
        ensures { (t : ℕ) (f : Final) → left_by result t f ≡ (left_by self.now t f
            && (not (nat_eq task.0 t) || has ends f)) }
    {
        Left {
            not_ran: with_if(self.not_ran.copy(), task, !ends.ran),
            not_canceled: with_if(self.not_canceled.copy(), task, !ends.canceled),
            not_faulted: with_if(self.not_faulted.copy(), task, !ends.faulted),
        }
    }

    /// The task may end in this way.
    pub(crate) fn leaves(&self, task: TaskId, status: Final) -> bool
        ensures { result ≡ left_by self.now task.0 status }
    {
        match status {
            Final::RanToCompletion => !self.not_ran.contains(task),
            Final::Canceled => !self.not_canceled.contains(task),
            Final::Faulted => !self.not_faulted.contains(task),
        }
    }
}
