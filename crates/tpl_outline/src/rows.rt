//! The rows of a leaf: the greatest `before` and `past` that the rules K3 to K5 permit.

ghost use Rattle.std.specs.Prelude.{◌≡◌, length, IfOk};
ghost use Rattle.tpl_model.specs.Prelude.{is_task};

use crate::followers::Followers;
use crate::outline::Outline;
use std::alloc::{AllocError, Global};
use tpl_checker::{Assumptions, Below, parent, some_end};
use tpl_graph::{Graph, Role};
use tpl_model::{MOST_TASKS, RuleSet, TaskId, TaskSet};
use tpl_trees::{PlainRow, Row};

/// What the rows of a leaf are made of.
#[derive(Clone, Copy)]
pub(crate) struct Parts<'s> {
    pub(crate) graph: &'s Graph,
    pub(crate) below: &'s Below,
    pub(crate) followers: &'s Followers,
    pub(crate) assumed: &'s Assumptions,
    pub(crate) outline: &'s Outline,
    pub(crate) rules: RuleSet,
}

/// A row for each task. The chain is that of the observed task, if there is one; no other task has
/// one.
pub(crate) fn rows(
    alloc: Global,
    parts: Parts<'_>,
    observed: Option<TaskId>,
    chain: &[TaskId],
) -> Result<Vec<Row>, AllocError>
    ensures { IfOk result (λ rows. length rows.items
        ≡ length parts.entry.graph.now.graph.tasks) }
{
    let mut rows = Vec::new(alloc);
    for task in 0..parts.graph.len() {
        let task = TaskId(task as u16);
        let row = row(alloc, parts, &rows, task, chain_of(task, observed, chain))?;
        rows.push(row)?;
    }
    Ok(rows)
}

/// The chain of the task.
fn chain_of<'c>(task: TaskId, observed: Option<TaskId>, chain: &'c [TaskId]) -> &'c [TaskId] {
    match observed {
        Some(observed) if observed == task => chain,
        _ => &[],
    }
}

/// The row of a task, behind those of the tasks that are declared before it.
fn row(
    alloc: Global,
    parts: Parts<'_>,
    rows: &[Row],
    task: TaskId,
    chain: &[TaskId],
) -> Result<Row, AllocError>
    requires { is_task parts.graph.now.graph task.0 }
{
    let fate = parts.outline.fate(task);
    let before = if fate.runs {
        before(parts.graph, rows, task)
    } else {
        TaskSet::empty()
    };
    let past = past(parts, rows, task);
    let chain = chain.to_vec(alloc)?;
    let row = PlainRow::new(fate.ends, fate.runs, before, past, chain);
    Ok(Row::without_tokens(row))
}

/// What is settled when a task begins: nothing before a root, before a continuation its antecedent
/// and what is past it, before a child what is before its parent.
fn before(graph: &Graph, rows: &[Row], task: TaskId) -> TaskSet
    requires { is_task graph.now.graph task.0 }
{
    graph.valid_law();
    match graph.role(task) {
        Role::Then(antecedent) => settled_after(rows, antecedent),
        Role::Child => before_parent(graph, rows, task),
        _ => TaskSet::empty(),
    }
}

/// What is settled when a task has ended: for all with a body what is below it; for a child what is
/// before its parent; and for a continuation that isn't canceled early its antecedent, with what is
/// past it.
fn past(parts: Parts<'_>, rows: &[Row], task: TaskId) -> TaskSet
    requires { is_task parts.graph.now.graph task.0 }
{
    parts.graph.valid_law();
    let below = parts.below.of(task);
    match parts.graph.role(task) {
        Role::Root => below.copy(),
        Role::Child => before_parent(parts.graph, rows, task).union(below),
        Role::Then(antecedent) => {
            if may_end_early(parts, task) {
                below.copy()
            } else {
                settled_after(rows, antecedent).union(below)
            }
        }
        Role::All(args) => settled_after_some(rows, args),
        Role::Any(args) => settled_after_each(parts, rows, args),
    }
}

/// A continuation that may be canceled while its antecedent runs.
pub(crate) fn may_end_early(parts: Parts<'_>, task: TaskId) -> bool
    requires { is_task parts.graph.now.graph task.0 }
{
    parts.outline.fate(task).ends.canceled
        && parts.assumed.is_loud(parts.graph, task)
        && !parts.graph.options(task).lazy_cancellation()
}

fn before_parent(graph: &Graph, rows: &[Row], task: TaskId) -> TaskSet
    requires { is_task graph.now.graph task.0 }
{
    match parent(graph, task) {
        None => TaskSet::empty(),
        Some(parent) => match rows.get(parent.0 as usize) {
            None => TaskSet::empty(),
            Some(row) => row.row().before().copy(),
        },
    }
}

/// The task and what is past it.
fn settled_after(rows: &[Row], task: TaskId) -> TaskSet {
    let mut settled = match rows.get(task.0 as usize) {
        None => TaskSet::empty(),
        Some(row) => row.row().past().copy(),
    };
    if task.0 < MOST_TASKS {
        settled.insert(task);
    }
    settled
}

/// The tasks, and what is past one of them.
fn settled_after_some(rows: &[Row], tasks: &[TaskId]) -> TaskSet {
    let mut settled = TaskSet::empty();
    for task in tasks {
        settled = settled.union(&settled_after(rows, *task));
    }
    settled
}

/// What is settled after each of the tasks that may win; nothing if there is none.
fn settled_after_each(parts: Parts<'_>, rows: &[Row], tasks: &[TaskId]) -> TaskSet {
    let mut settled = TaskSet::empty();
    let mut is_first = true;
    for task in tasks {
        if may_win(parts, *task) {
            let after = settled_after(rows, *task);
            settled = if is_first {
                after
            } else {
                settled.intersection(&after)
            };
            is_first = false;
        }
    }
    settled
}

/// A task may end first of those for which a WhenAny task waits: by the rules with tokens one that can't end can't.
fn may_win(parts: Parts<'_>, task: TaskId) -> bool {
    parts.rules == RuleSet::WithoutTokens || some_end(parts.outline.fate(task).ends)
}
