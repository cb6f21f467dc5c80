//! What a closed leaf proves.

ghost use Rattle.std.specs.Prelude.{◌≡◌, ◌&&◌, not, false, length};
ghost use Rattle.tpl_checker.specs.Prelude.{AreBodies, assumed_of};
ghost use Rattle.tpl_graph.specs.Prelude.{TasksOf};
ghost use Rattle.tpl_laws.specs.Prelude.{each_end, implies, none_complete, proves};
ghost use Rattle.tpl_model.specs.Prelude.{Assumed, begins_itself, has, is_task, kind, may_end, plain, to_end};
ghost use Rattle.tpl_model.specs.declared.claim.Property.TheVariants.{Observed, Runs};

use crate::assumptions::Assumptions;
use crate::bodies::Bodies;
use crate::rows::{implies, may_end, row};
use tpl_graph::{Graph, Kind};
use tpl_model::{Finals, Property, TaskId};
use tpl_trees::Row;

/// The rows of a closed leaf prove the claim's property.
pub(crate) fn proves(
    graph: &Graph,
    assumed: &Assumptions,
    rows: &[Row],
    bodies: &Bodies,
    property: Property,
) -> bool
    requires tasks { TasksOf graph.now.graph property }
    requires rows { length (plain rows.now) ≡ length graph.now.graph.tasks }
    requires bodies { AreBodies graph.now.graph (assumed_of assumed.now) (plain rows.now)
        bodies.now }
    ensures { result ≡ proves graph.now.graph (assumed_of assumed.now) (plain rows.now) property }
{
    match property {
        Property::Final(task, ends) => ends_only_in(row(rows, task).ends(), ends),
        Property::After(first, second) => {
            let runs = row(rows, second).runs();
            !runs || row(rows, second).before().contains(first)
        }
        Property::Observed(task) => is_observed(graph, assumed, rows, bodies, task),
        Property::Never(task) => !row(rows, task).runs(),
        Property::Excludes(first, second) => {
            let first_runs = row(rows, first).runs();
            !first_runs || !row(rows, second).runs()
        }
        Property::Runs(task) => runs(graph, rows, task),
    }
}

/// Each of the ways to end is one of those allowed.
pub fn ends_only_in(ends: Finals, allowed: Finals) -> bool
    ensures { result ≡ each_end (λ f. implies (has ends f) (has allowed f)) }
{
    let ran = implies(ends.ran, allowed.ran);
    let canceled = implies(ends.canceled, allowed.canceled);
    let faulted = implies(ends.faulted, allowed.faulted);
    ran && canceled && faulted
}

/// The task's exception has a chain to a reader, or its body can't throw one.
fn is_observed(
    graph: &Graph,
    assumed: &Assumptions,
    rows: &[Row],
    bodies: &Bodies,
    task: TaskId,
) -> bool
    requires task { is_task graph.now.graph task.0 }
    requires rows { length (plain rows.now) ≡ length graph.now.graph.tasks }
    requires bodies { AreBodies graph.now.graph (assumed_of assumed.now) (plain rows.now)
        bodies.now }
    ensures { result ≡ proves graph.now.graph (assumed_of assumed.now) (plain rows.now) (Observed
        task) }
{
    let has_chain = !row(rows, task).chain().is_empty();
    let faulted = row(rows, task).ends().faulted;
    let runs = row(rows, task).runs();
    let throws = bodies.thrown.contains(task);
    has_chain || !faulted || !runs || !throws
}

/// The task has begun in each complete run: it is a root or a continuation that isn't canceled, or no
/// run is complete.
fn runs(graph: &Graph, rows: &[Row], task: TaskId) -> bool
    requires task { is_task graph.now.graph task.0 }
    requires rows { length (plain rows.now) ≡ length graph.now.graph.tasks }
    ensures { (l : Assumed) → result ≡ proves graph.now.graph l (plain rows.now) (Runs task) }
{
    let canceled = row(rows, task).ends().canceled;
    begins_itself(graph, task) && !canceled || none_complete(graph, rows)
}

/// The task is a root or a continuation.
pub fn begins_itself(graph: &Graph, task: TaskId) -> bool
    requires { is_task graph.now.graph task.0 }
    ensures { result ≡ begins_itself (kind graph.now.graph task.0) }
{
    match graph.kind(task) {
        Kind::Root | Kind::Then => true,
        Kind::Child | Kind::All | Kind::Any => false,
    }
}

/// No run is complete: a task that is no child can't end.
fn none_complete(graph: &Graph, rows: &[Row]) -> bool
    requires { length (plain rows.now) ≡ length graph.now.graph.tasks }
    ensures { result ≡ none_complete graph.now.graph (plain rows.now) }
{
    graph.valid_law();
    for number in 0..graph.len() {
        let task = TaskId(number as u16);
        if is_stuck(graph, rows, task) {
            return true;
        }
    }
    false
}

/// The task is no child and can't end.
fn is_stuck(graph: &Graph, rows: &[Row], task: TaskId) -> bool
    requires task { is_task graph.now.graph task.0 }
    requires rows { length (plain rows.now) ≡ length graph.now.graph.tasks }
    ensures { result ≡ (to_end (kind graph.now.graph task.0) false && not (may_end (plain rows.now)
        task.0)) }
{
    has_to_end(graph, task) && !may_end(rows, task)
}

/// Each complete run has an end of the task: it is no child.
pub fn has_to_end(graph: &Graph, task: TaskId) -> bool
    requires { is_task graph.now.graph task.0 }
    ensures { result ≡ to_end (kind graph.now.graph task.0) false }
{
    match graph.kind(task) {
        Kind::Child => false,
        _ => true,
    }
}
