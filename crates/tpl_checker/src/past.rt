//! What a row has past its task is settled when the task has ended (the rules K4 and K5).

ghost use Rattle.std.specs.Prelude.{◌≡◌, ◌&&◌, ◌||◌, ◌<◌, ◌≤◌, ℕ, length, nat_eq, map};
ghost use Rattle.tpl_checker.specs.Prelude.{AreBelow, assumed_of};
ghost use Rattle.tpl_draft.specs.Prelude.{task_number};
ghost use Rattle.tpl_graph.specs.Prelude.{AreTasks};
ghost use Rattle.tpl_laws.specs.Prelude.{all_in, past, past_by};
ghost use Rattle.tpl_model.specs.Prelude.{Assumed, Child, Continues, is_task, may_end_early, mem, plain, row, some_in};

use crate::assumptions::Assumptions;
use crate::below::Below;
use crate::parents::parent;
use crate::rows::{before_of, past_of, row, settled_after, within};
use tpl_graph::{Graph, Role};
use tpl_model::{MOST_TASKS, TaskId, TaskSet};
use tpl_trees::Row;

/// Whether each member of a row's `past` may be taken as settled when the task has ended. Where the
/// task has a body that goes for what is below it, since a parent ends after its attached children.
pub(crate) fn past(
    graph: &Graph,
    assumed: &Assumptions,
    below: &Below,
    rows: &[Row],
    task: TaskId,
) -> bool
    requires task { is_task graph.now.graph task.0 }
    requires rows { length (plain rows.now) ≡ length graph.now.graph.tasks }
    requires below { AreBelow graph.now.graph below.now }
    ensures { result ≡ past graph.now.graph (assumed_of assumed.now) (plain rows.now) task.0 }
{
    graph.valid_law();
    let past = past_of(rows, task);
    match graph.role(task) {
        Role::Root => within(past, below.of(task)),
        Role::Child => is_past_child(graph, below, rows, task),
        Role::Then(antecedent) => {
            is_past_continuation(graph, assumed, below, rows, task, antecedent)
        }
        Role::All(args) => within(past, &settled_after_some(rows, args)),
        Role::Any(args) => within(past, &settled_after_each(rows, args, past)),
    }
}

/// Past a child is also what is before its parent.
fn is_past_child(graph: &Graph, below: &Below, rows: &[Row], task: TaskId) -> bool
    requires task { is_task graph.now.graph task.0 }
    requires rows { length (plain rows.now) ≡ length graph.now.graph.tasks }
    requires below { AreBelow graph.now.graph below.now }
    ensures { (l : Assumed) → result ≡ all_in (past_by graph.now.graph l (plain rows.now) task.0
        Child) (row (plain rows.now) task.0).past }
{
    graph.valid_law();
    match parent(graph, task) {
        None => true,
        Some(parent) => {
            let before = before_of(rows, parent);
            within(past_of(rows, task), &before.union(below.of(task)))
        }
    }
}

/// Past a continuation is also its antecedent and what is past it, unless it may be canceled while
/// its antecedent runs.
fn is_past_continuation(
    graph: &Graph,
    assumed: &Assumptions,
    below: &Below,
    rows: &[Row],
    task: TaskId,
    antecedent: TaskId,
) -> bool
    requires task { is_task graph.now.graph task.0 }
    requires antecedent { is_task graph.now.graph antecedent.0 }
    requires rows { length (plain rows.now) ≡ length graph.now.graph.tasks }
    requires below { AreBelow graph.now.graph below.now }
    ensures { result ≡ all_in (past_by graph.now.graph (assumed_of assumed.now) (plain rows.now)
        task.0 (Continues antecedent.0)) (row (plain rows.now) task.0).past }
{
    graph.valid_law();
    let past = past_of(rows, task);
    if may_end_early(graph, assumed, rows, task) {
        return within(past, below.of(task));
    }
    within(past, &settled_after(rows, antecedent).union(below.of(task)))
}

/// A continuation that may be canceled while its antecedent runs.
fn may_end_early(graph: &Graph, assumed: &Assumptions, rows: &[Row], task: TaskId) -> bool
    requires task { is_task graph.now.graph task.0 }
    requires rows { length (plain rows.now) ≡ length graph.now.graph.tasks }
    ensures { result ≡ may_end_early graph.now.graph (assumed_of assumed.now) (plain rows.now)
        task.0 }
{
    let loud = assumed.is_loud(graph, task);
    let lazy = graph.options(task).lazy_cancellation();
    let canceled = row(rows, task).ends().canceled;
    loud && !lazy && canceled
}

/// The tasks, and what is past one of them: WhenAll ends after each.
fn settled_after_some(rows: &[Row], tasks: &[TaskId]) -> TaskSet
    requires tasks { AreTasks (length (plain rows.now)) tasks.now }
    requires limit { length (plain rows.now) ≤ MOST_TASKS }
    ensures { (x : ℕ) → mem x result ≡ some_in (λ y. nat_eq x y
        || mem x (row (plain rows.now) y).past) (map task_number tasks.now) }
{
    let mut settled = TaskSet::empty();
    for task in tasks {
        settled = settled.union(&settled_after(rows, *task));
    }
    settled
}

/// Of the set, those that are settled after each of the tasks, since WhenAny may end after any one of them.
fn settled_after_each(rows: &[Row], tasks: &[TaskId], set: &TaskSet) -> TaskSet
    requires tasks { AreTasks (length (plain rows.now)) tasks.now }
    requires limit { length (plain rows.now) ≤ MOST_TASKS }
    ensures { (x : ℕ) → mem x result ≡ (mem x set.now && all_in (λ y. nat_eq x y
        || mem x (row (plain rows.now) y).past) (map task_number tasks.now)) }
{
    let mut settled = set.copy();
    for task in tasks {
        settled = settled.intersection(&settled_after(rows, *task));
    }
    settled
}
