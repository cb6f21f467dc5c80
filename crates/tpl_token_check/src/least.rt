//! The least rows of a leaf: its tasks run and end only as they have to, and say all that may be said of begins and ends.

ghost use Rattle.std.specs.Prelude.{◌≡◌, IfOk};
ghost use Rattle.tpl_laws.specs.Prelude.{begin_step, end_step, family_step, is_attached_to, least_rows, parent_of};
ghost use Rattle.tpl_model.specs.Prelude.{is_task};
ghost use Rattle.tpl_token_check.specs.Prelude.{AreRows, IsCase, MayStep, assumed_by, begun_below, ended_below, graph_by};

use crate::begun::begun_row;
use crate::case::Case;
use crate::ended::ended_row;
use crate::rows::Rows;
use std::alloc::{AllocError, Global};
use tpl_checker::{has_attached, is_member, parent};
use tpl_graph::Graph;
use tpl_model::TaskId;

/// The least rows, family by family in declared order: a task that is attached to no other, and all tasks below it.
pub(crate) fn least_rows(alloc: Global, case: &Case<'_>) -> Result<Rows, AllocError>
    requires { IsCase case.now }
    ensures { IfOk result (AreRows (graph_by case.now)
        (least_rows (graph_by case.now) (assumed_by case.now) case.now.property)) }
{
    case.graph.valid_law();
    let mut rows = Rows::blank(alloc, case.graph)?;
    for number in 0..case.graph.len() {
        let task = TaskId(number as u16);
        if !is_attached(case.graph, task) {
            family(alloc, case, &mut rows, task)?;
        }
    }
    Ok(rows)
}

/// The task is attached to its parent.
fn is_attached(graph: &Graph, task: TaskId) -> bool
    requires { is_task graph.now.graph task.0 }
    ensures { result ≡ is_attached_to graph.now.graph task.0 (parent_of graph.now.graph task.0) }
{
    match parent(graph, task) {
        None => false,
        Some(parent) => is_member(task, graph.attached(parent)),
    }
}

/// Works out the rows of a task and of all tasks below it: parents begin before their children, and end after them.
fn family(alloc: Global, case: &Case<'_>, rows: &mut Rows, task: TaskId) -> Result<(), AllocError>
    requires { MayStep case.now task.0 rows.old }
    ensures { IfOk result (λ u. AreRows (graph_by case.now)
        (family_step (graph_by case.now) (assumed_by case.now) case.now.property task.0
        rows.old.rows.items) rows.new) }
{
    begin(alloc, case, rows, task);
    below(alloc, case, rows, task)?;
    end(alloc, case, rows, task)
}

/// The tasks below one begin and end.
fn below(alloc: Global, case: &Case<'_>, rows: &mut Rows, task: TaskId) -> Result<(), AllocError>
    requires { MayStep case.now task.0 rows.old }
    ensures { IfOk result (λ u. AreRows (graph_by case.now) (ended_below case.now task.0
        (begun_below case.now task.0 rows.old.rows.items)) rows.new) }
{
    if !has_attached(case.graph, task) {
        return Ok(());
    }
    begin_below(alloc, case, rows, task);
    end_below(alloc, case, rows, task)
}

/// The tasks below one begin.
fn begin_below(alloc: Global, case: &Case<'_>, rows: &mut Rows, task: TaskId)
    requires { MayStep case.now task.0 rows.old }
    ensures { AreRows (graph_by case.now) (begun_below case.now task.0 rows.old.rows.items)
        rows.new }
{
    case.graph.valid_law();
    let below = case.below.of(task);
    for number in 0..case.graph.len() {
        let child = TaskId(number as u16);
        if below.contains(child) {
            begin(alloc, case, rows, child);
        }
    }
}

/// The tasks below one end.
fn end_below(
    alloc: Global,
    case: &Case<'_>,
    rows: &mut Rows,
    task: TaskId,
) -> Result<(), AllocError>
    requires { MayStep case.now task.0 rows.old }
    ensures { IfOk result (λ u. AreRows (graph_by case.now)
        (ended_below case.now task.0 rows.old.rows.items) rows.new) }
{
    case.graph.valid_law();
    let below = case.below.of(task);
    for number in (0..case.graph.len()).rev() {
        let child = TaskId(number as u16);
        if below.contains(child) {
            end(alloc, case, rows, child)?;
        }
    }
    Ok(())
}

/// The task begins.
fn begin(alloc: Global, case: &Case<'_>, rows: &mut Rows, task: TaskId)
    requires { MayStep case.now task.0 rows.old }
    ensures { AreRows (graph_by case.now)
        (begin_step (graph_by case.now) (assumed_by case.now) task.0 rows.old.rows.items) rows.new }
{
    let row = begun_row(alloc, &case.leaf(rows), &case.all, task);
    rows.put(task, row);
}

/// The task ends.
fn end(alloc: Global, case: &Case<'_>, rows: &mut Rows, task: TaskId) -> Result<(), AllocError>
    requires { MayStep case.now task.0 rows.old }
    ensures { IfOk result (λ u. AreRows (graph_by case.now)
        (end_step (graph_by case.now) (assumed_by case.now) case.now.property task.0
        rows.old.rows.items) rows.new) }
{
    let row = ended_row(alloc, &case.leaf(rows), &case.all, case.property, task)?;
    rows.put(task, row);
    Ok(())
}
