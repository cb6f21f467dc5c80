//! What a row has before its task is settled when the task begins (the rule K3).

ghost use Rattle.std.specs.Prelude.{◌≡◌, length};
ghost use Rattle.tpl_laws.specs.Prelude.{all_in, before, before_by};
ghost use Rattle.tpl_model.specs.Prelude.{Child, is_task, kind, plain, row};

use crate::parents::parent;
use crate::rows::{before_of, implies, row, settled_after, within};
use tpl_graph::{Graph, Role};
use tpl_model::{TaskId, TaskSet};
use tpl_trees::Row;

/// What stands before a task whose row runs may be taken as settled when it begins.
pub(crate) fn before(graph: &Graph, rows: &[Row], task: TaskId) -> bool
    requires task { is_task graph.now.graph task.0 }
    requires rows { length (plain rows.now) ≡ length graph.now.graph.tasks }
    ensures { result ≡ before graph.now.graph (plain rows.now) task.0 }
{
    implies(row(rows, task).runs(), is_settled(graph, rows, task))
}

/// Before a root there is nothing, before a continuation its antecedent and what is past it, and
/// before a child what is before its parent.
fn is_settled(graph: &Graph, rows: &[Row], task: TaskId) -> bool
    requires task { is_task graph.now.graph task.0 }
    requires rows { length (plain rows.now) ≡ length graph.now.graph.tasks }
    ensures { result ≡ all_in (before_by graph.now.graph (plain rows.now) task.0
        (kind graph.now.graph task.0)) (row (plain rows.now) task.0).before }
{
    graph.valid_law();
    let before = before_of(rows, task);
    match graph.role(task) {
        Role::Root => within(before, &TaskSet::empty()),
        Role::Child => is_before_parent(graph, rows, task),
        Role::Then(antecedent) => within(before, &settled_after(rows, antecedent)),
        Role::All(_) => true,
        Role::Any(_) => true,
    }
}

fn is_before_parent(graph: &Graph, rows: &[Row], task: TaskId) -> bool
    requires task { is_task graph.now.graph task.0 }
    requires rows { length (plain rows.now) ≡ length graph.now.graph.tasks }
    ensures { result ≡ all_in (before_by graph.now.graph (plain rows.now) task.0 Child)
        (row (plain rows.now) task.0).before }
{
    match parent(graph, task) {
        None => true,
        Some(parent) => within(before_of(rows, task), before_of(rows, parent)),
    }
}
