//! What the next statement of a task tests.

ghost use Rattle.std.specs.Prelude.{◌≡◌, option_map};
ghost use Rattle.tpl_draft.specs.Prelude.{task_number};
ghost use Rattle.tpl_model.specs.Prelude.{ending, has_final, is_task, kind, requested, rest, subject, subject_in};
ghost use Rattle.tpl_run.specs.Prelude.{decision};

use crate::machine::Machine;
use tpl_graph::Kind;
use tpl_model::{Final, Stmt, TaskId};
use tpl_run::Readers;
use tpl_run::graphs::has_task;

impl<'g> Machine<'g> {
    /// The task whose exception and end a continuation reads.
    pub(crate) fn subject(&self, task: TaskId) -> Option<TaskId>
        requires { is_task self.now.graph task.0 }
        ensures { option_map task_number result ≡ subject self.now.graph self.now.inputs
            self.now.events task.0 }
    {
        let antecedent = self.graph.antecedent(task)?;
        if has_task(self, antecedent) && self.graph.kind(antecedent) == Kind::Any {
            self.winner_of(antecedent)
        } else {
            Some(antecedent)
        }
    }

    /// A continuation's subject has ended so.
    fn subject_ended(&self, task: TaskId, status: Final) -> bool
        requires { is_task self.now.graph task.0 }
        ensures { let e = ending self.now.graph self.now.inputs self.now.events in
            result ≡ has_final status e (subject_in self.now.graph (kind self.now.graph task.0) e) }
    {
        match self.subject(task) {
            None => false,
            Some(subject) => self.final_of(subject) == Some(status),
        }
    }

    /// What the task's next statement tests.
    pub(crate) fn decides(&self, task: TaskId) -> bool
        requires { is_task self.now.graph task.0 }
        ensures { let j = self.now in result ≡ decision j.graph j.inputs task.0
            (rest j.graph j.inputs j.events task.0).left (requested j.graph j.inputs j.events)
            (ending j.graph j.inputs j.events) }
    {
        match self.row(task).statement() {
            Some(Stmt::Check(token)) => self.asked(*token),
            Some(Stmt::If(input, _, _)) => self.inputs.get(*input),
            Some(Stmt::When(status, _, _)) => self.subject_ended(task, *status),
            _ => false,
        }
    }
}
