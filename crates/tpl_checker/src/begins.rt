//! A task that may begin has a row that runs (the rule K1).

ghost use Rattle.std.specs.Prelude.{◌≡◌, length};
ghost use Rattle.tpl_checker.specs.Prelude.{AreBodies};
ghost use Rattle.tpl_laws.specs.Prelude.{runs, runs_by};
ghost use Rattle.tpl_model.specs.Prelude.{Assumed, Child, Continues, is_task, options, plain};

use crate::bodies::Bodies;
use crate::parents::parent;
use crate::rows::{allowed, implies, row, some_end};
use tpl_graph::{Graph, Role};
use tpl_model::TaskId;
use tpl_trees::Row;

/// The row runs, if it is a root's, or its antecedent may end in a way that the options let the
/// continuation run after, or its parent may start it.
pub(crate) fn runs(graph: &Graph, rows: &[Row], bodies: &Bodies, task: TaskId) -> bool
    requires task { is_task graph.now.graph task.0 }
    requires rows { length (plain rows.now) ≡ length graph.now.graph.tasks }
    ensures { (l : Assumed) → AreBodies graph.now.graph l (plain rows.now) bodies.now
        → result ≡ runs graph.now.graph l (plain rows.now) task.0 }
{
    match graph.role(task) {
        Role::Root => row(rows, task).runs(),
        Role::Then(antecedent) => runs_after(graph, rows, task, antecedent),
        Role::Child => runs_if_started(graph, rows, bodies, task),
        Role::All(_) | Role::Any(_) => true,
    }
}

fn runs_after(graph: &Graph, rows: &[Row], task: TaskId, antecedent: TaskId) -> bool
    requires task { is_task graph.now.graph task.0 }
    requires antecedent { is_task graph.now.graph antecedent.0 }
    requires rows { length (plain rows.now) ≡ length graph.now.graph.tasks }
    ensures { (l : Assumed) → result ≡ runs_by graph.now.graph l (plain rows.now) task.0
        (Continues antecedent.0) }
{
    let ends = allowed(row(rows, antecedent).ends(), graph.options(task));
    implies(some_end(ends), row(rows, task).runs())
}

fn runs_if_started(graph: &Graph, rows: &[Row], bodies: &Bodies, task: TaskId) -> bool
    requires task { is_task graph.now.graph task.0 }
    requires rows { length (plain rows.now) ≡ length graph.now.graph.tasks }
    ensures { (l : Assumed) → AreBodies graph.now.graph l (plain rows.now) bodies.now
        → result ≡ runs_by graph.now.graph l (plain rows.now) task.0 Child }
{
    match parent(graph, task) {
        None => true,
        Some(parent) => {
            let starts = bodies.started.contains(task);
            let runs = row(rows, task).runs();
            implies(row(rows, parent).runs(), implies(starts, runs))
        }
    }
}
