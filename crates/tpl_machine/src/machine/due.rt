//! What is due, and whether the run is complete.

ghost use Rattle.std.specs.Prelude.{◌≡◌, ℕ, IfSome, IfNone};
ghost use Rattle.tpl_laws.specs.RunTests as laws;
ghost use Rattle.tpl_run.specs.Prelude.{IsFirstDue, NoneDue};

use crate::machine::Machine;
use tpl_model::{Act, TaskId};
use tpl_run::due::due_of;
use tpl_run::ends::is_done;

impl<'g> Machine<'g> {
    /// The allowed Release, Drop, Close or Settle of the least task that has one.
    pub(crate) fn first_due(&self) -> Option<Act>
        ensures some { IfSome result (λ act. IsFirstDue self.now.graph self.now.inputs
            self.now.events act) }
        ensures none { IfNone result ((t : ℕ) → NoneDue self.now.graph self.now.inputs
            self.now.events t) }
    {
        for i in 0..self.graph.len() {
            let found = due_of(self, TaskId(i as u16));
            if found.is_some() {
                return found;
            }
        }
        None
    }

    /// Each task has ended, or is a child that wasn't started.
    pub(crate) fn all_done(&self) -> bool
        ensures { result ≡ laws.is_complete self.now.graph self.now.inputs self.now.events }
    {
        let mut so_far = true;
        for i in 0..self.graph.len() {
            so_far = is_done(self, TaskId(i as u16)) && so_far;
        }
        so_far
    }
}
