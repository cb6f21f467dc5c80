//! What is known of the runs of a leaf in which a body is read.

ghost use Rattle.std.specs.Prelude.{◌≡◌, length, map};
ghost use Rattle.tpl_checker.specs.Prelude.{assumed_of};
ghost use Rattle.tpl_draft.specs.Prelude.{task_number};
ghost use Rattle.tpl_graph.specs.Prelude.{AreTasks};
ghost use Rattle.tpl_laws.specs.Prelude.{faulted_view};
ghost use Rattle.tpl_model.specs.Prelude.{has, is_task, kind, known, one_ends, plain, subject_set, view};

use crate::assumptions::Assumptions;
use crate::rows::{allowed, row};
use tpl_graph::{Graph, Role};
use tpl_model::{Final, Finals, TaskId, View};
use tpl_trees::Row;

/// No way to end.
pub(crate) const NO_END: Finals = Finals {
    ran: false,
    canceled: false,
    faulted: false,
};

/// What a task's body sees in the runs of a leaf. How its subject may have ended is read off the rows.
pub(crate) fn view(graph: &Graph, assumed: &Assumptions, rows: &[Row], task: TaskId) -> View
    requires task { is_task graph.now.graph task.0 }
    requires rows { length (plain rows.now) ≡ length graph.now.graph.tasks }
    ensures { known result ≡ view graph.now.graph (assumed_of assumed.now) (plain rows.now) task.0 }
{
    View {
        inputs: assumed.inputs,
        quiet: assumed.quiet,
        own: graph.own_token(task),
        subject: subject(graph, rows, task),
        sure: assumed.sure,
    }
}

/// What a continuation sees whose subject is faulted.
pub(crate) fn faulted_view(graph: &Graph, assumed: &Assumptions, reader: TaskId) -> View
    requires { is_task graph.now.graph reader.0 }
    ensures { known result ≡ faulted_view graph.now.graph (assumed_of assumed.now) reader.0 }
{
    View {
        inputs: assumed.inputs,
        quiet: assumed.quiet,
        own: graph.own_token(reader),
        subject: Finals {
            ran: false,
            canceled: false,
            faulted: true,
        },
        sure: assumed.sure,
    }
}

/// How the subject of a continuation ends: its antecedent in the ways in which the options let the
/// continuation run, or one of the arguments of an antecedent that is a WhenAny task.
pub(crate) fn subject(graph: &Graph, rows: &[Row], task: TaskId) -> Finals
    requires task { is_task graph.now.graph task.0 }
    requires rows { length (plain rows.now) ≡ length graph.now.graph.tasks }
    ensures { (f : Final) → has result f ≡ subject_set graph.now.graph (plain rows.now) task.0
        (kind graph.now.graph task.0) f }
{
    match graph.role(task) {
        Role::Then(antecedent) => match graph.role(antecedent) {
            Role::Any(args) => ends_of_one(rows, args),
            _ => allowed(row(rows, antecedent).ends(), graph.options(task)),
        },
        _ => NO_END,
    }
}

/// How one of the tasks ends.
pub(crate) fn ends_of_one(rows: &[Row], tasks: &[TaskId]) -> Finals
    requires { AreTasks (length (plain rows.now)) tasks.now }
    ensures { (f : Final) → has result f ≡ one_ends (map task_number tasks.now) (plain rows.now) f }
{
    let mut finals = NO_END;
    for task in tasks {
        finals = finals.union(row(rows, *task).ends());
    }
    finals
}
