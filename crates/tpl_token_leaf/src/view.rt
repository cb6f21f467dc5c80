//! What is known of the runs of a leaf in which a body is read.

ghost use Rattle.std.specs.Prelude.{◌≡◌, filter, length, map};
ghost use Rattle.tpl_draft.specs.Prelude.{task_number};
ghost use Rattle.tpl_graph.specs.Prelude.{AreTasks};
ghost use Rattle.tpl_token_leaf.specs.Prelude.{IsLeaf, assumed_in, graph_of, rows_in};
ghost use Rattle.tpl_model.specs.Prelude.{has, is_task, kind, known, one_ends, plain, subject_left, token_view};

use crate::leaf::Leaf;
use tpl_checker::allowed;
use tpl_graph::Role;
use tpl_model::{Final, Finals, TaskId, View};

/// No way to end.
pub const NO_END: Finals = Finals {
    ran: false,
    canceled: false,
    faulted: false,
};

impl<'l> Leaf<'l> {
    /// What a task's body sees in the runs of the leaf.
    pub(crate) fn view(&self, task: TaskId) -> View
        requires leaf { IsLeaf self.now }
        requires task { is_task (graph_of self.now) task.0 }
        ensures { known result ≡ token_view (graph_of self.now) (assumed_in self.now)
            (rows_in self.now) task.0 }
    {
        let own = self.graph.own_token(task);
        self.assumed.view(own, self.subject(task))
    }

    /// How the subject of a continuation ends: its antecedent in the ways in which the options let the continuation run,
    /// or one of the arguments that may win an antecedent that is a WhenAny task.
    fn subject(&self, task: TaskId) -> Finals
        requires leaf { IsLeaf self.now }
        requires task { is_task (graph_of self.now) task.0 }
        ensures { (f : Final) → has result f ≡ subject_left (graph_of self.now)
            (assumed_in self.now) (rows_in self.now) task.0 (kind (graph_of self.now) task.0) f }
    {
        match self.graph.role(task) {
            Role::Then(antecedent) => match self.graph.role(antecedent) {
                Role::Any(args) => self.winner_ends(antecedent, args),
                _ => allowed(self.row(antecedent).ends(), self.graph.options(task)),
            },
            _ => NO_END,
        }
    }

    /// How one of the arguments ends that may win the WhenAny task.
    pub(crate) fn winner_ends(&self, task: TaskId, args: &[TaskId]) -> Finals
        requires leaf { IsLeaf self.now }
        requires args { AreTasks (length (graph_of self.now).tasks) args.now }
        ensures { (f : Final) → has result f ≡ one_ends (filter ((assumed_in self.now).wins task.0)
            (map task_number args.now)) (plain (rows_in self.now)) f }
    {
        let mut finals = NO_END;
        for arg in args {
            if self.may_win(task, *arg) {
                finals = finals.union(self.row(*arg).ends());
            }
        }
        finals
    }
}
