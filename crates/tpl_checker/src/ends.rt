//! A row has each way in which its task may end (the rule K2).

ghost use Rattle.std.specs.Prelude.{◌≡◌, ◌&&◌, ◌||◌, ℕ, length, map, not};
ghost use Rattle.tpl_checker.specs.Prelude.{AreBodies, assumed_of};
ghost use Rattle.tpl_draft.specs.Prelude.{task_number};
ghost use Rattle.tpl_graph.specs.Prelude.{AreTasks};
ghost use Rattle.tpl_laws.specs.Prelude.{all_may_end, body_may_end, ends, implies, may_be_canceled, may_end_as};
ghost use Rattle.tpl_model.specs.Prelude.{Assumed, Child, Continues, Root, TaskGraph, WhenAny, attached, body, end_left, has, is_final, is_task, kind, mem, plain, reaches, row, some_in, view};
ghost use Rattle.tpl_model.specs.declared.finals.Final.TheVariants as finals;

use crate::all_ends::AllEnds;
use crate::assumptions::Assumptions;
use crate::bodies::Bodies;
use crate::rows::{excluded, implies, row, some_end};
use crate::view::{NO_END, ends_of_one};
use tpl_graph::{Graph, Role};
use tpl_model::{Final, Finals, TaskId, TaskSet};
use tpl_trees::Row;

/// Each way in which the task may end stands in its row, but for those that the leaf leaves out.
pub(crate) fn ends(
    graph: &Graph,
    assumed: &Assumptions,
    rows: &[Row],
    bodies: &Bodies,
    task: TaskId,
) -> bool
    requires task { is_task graph.now.graph task.0 }
    requires rows { length (plain rows.now) ≡ length graph.now.graph.tasks }
    ensures { AreBodies graph.now.graph (assumed_of assumed.now) (plain rows.now) bodies.now
        → result ≡ ends graph.now.graph (assumed_of assumed.now) (plain rows.now) task.0 }
{
    let found = may_end(graph, assumed, rows, bodies, task);
    let listed = row(rows, task).ends();
    is_listed(assumed, task, found, listed, Final::RanToCompletion)
        && is_listed(assumed, task, found, listed, Final::Canceled)
        && is_listed(assumed, task, found, listed, Final::Faulted)
}

fn is_listed(
    assumed: &Assumptions,
    task: TaskId,
    found: Finals,
    listed: Finals,
    status: Final,
) -> bool
    ensures { result ≡ implies (end_left (assumed_of assumed.now) task.0 status)
        (implies (has found status) (has listed status)) }
{
    let is_found = found.contains(status);
    implies(
        assumed.may_end(task, status),
        implies(is_found, listed.contains(status)),
    )
}

/// How the task may end.
fn may_end(
    graph: &Graph,
    assumed: &Assumptions,
    rows: &[Row],
    bodies: &Bodies,
    task: TaskId,
) -> Finals
    requires task { is_task graph.now.graph task.0 }
    requires rows { length (plain rows.now) ≡ length graph.now.graph.tasks }
    ensures { AreBodies graph.now.graph (assumed_of assumed.now) (plain rows.now) bodies.now
        → (f : Final) → has result f ≡ may_end_as graph.now.graph (assumed_of assumed.now)
        (plain rows.now) task.0 (kind graph.now.graph task.0) f }
{
    match graph.role(task) {
        Role::Root => ready_ends(graph, assumed, rows, bodies, task),
        Role::Child => ready_ends(graph, assumed, rows, bodies, task),
        Role::Then(antecedent) => { continued_ends(graph, assumed, rows, bodies, task, antecedent) }
        Role::All(args) => all_end(rows, args),
        Role::Any(args) => any_ends(rows, args),
    }
}

/// A root or a started child ends as its body does, or it is canceled before its body begins.
fn ready_ends(
    graph: &Graph,
    assumed: &Assumptions,
    rows: &[Row],
    bodies: &Bodies,
    task: TaskId,
) -> Finals
    requires task { is_task graph.now.graph task.0 }
    requires rows { length (plain rows.now) ≡ length graph.now.graph.tasks }
    ensures root { AreBodies graph.now.graph (assumed_of assumed.now) (plain rows.now) bodies.now
        → (f : Final) → has result f ≡ may_end_as graph.now.graph (assumed_of assumed.now)
        (plain rows.now) task.0 Root f }
    ensures child { AreBodies graph.now.graph (assumed_of assumed.now) (plain rows.now) bodies.now
        → (f : Final) → has result f ≡ may_end_as graph.now.graph (assumed_of assumed.now)
        (plain rows.now) task.0 Child f }
{
    let ends = body_ends(graph, rows, bodies, task);
    let runs = row(rows, task).runs();
    let loud = assumed.is_loud(graph, task);
    with_canceled(ends, runs && loud)
}

/// A continuation ends as its body does, or it is canceled without it.
fn continued_ends(
    graph: &Graph,
    assumed: &Assumptions,
    rows: &[Row],
    bodies: &Bodies,
    task: TaskId,
    antecedent: TaskId,
) -> Finals
    requires task { is_task graph.now.graph task.0 }
    requires antecedent { is_task graph.now.graph antecedent.0 }
    requires rows { length (plain rows.now) ≡ length graph.now.graph.tasks }
    ensures { AreBodies graph.now.graph (assumed_of assumed.now) (plain rows.now) bodies.now
        → (f : Final) → has result f ≡ may_end_as graph.now.graph (assumed_of assumed.now)
        (plain rows.now) task.0 (Continues antecedent.0) f }
{
    let ends = body_ends(graph, rows, bodies, task);
    with_canceled(
        ends,
        may_be_canceled(graph, assumed, rows, task, antecedent),
    )
}

fn with_canceled(ends: Finals, canceled: bool) -> Finals
    ensures { (f : Final) → has result f ≡ (has ends f || (is_final f finals.Canceled
        && canceled)) }
{
    Finals {
        ran: ends.ran,
        canceled: ends.canceled || canceled,
        faulted: ends.faulted,
    }
}

/// A continuation may be canceled without its body: where its token is requested (if it is lazy, only
/// after its antecedent has ended), or where the options exclude how the antecedent ends.
fn may_be_canceled(
    graph: &Graph,
    assumed: &Assumptions,
    rows: &[Row],
    task: TaskId,
    antecedent: TaskId,
) -> bool
    requires task { is_task graph.now.graph task.0 }
    requires antecedent { is_task graph.now.graph antecedent.0 }
    requires rows { length (plain rows.now) ≡ length graph.now.graph.tasks }
    ensures { result ≡ may_be_canceled graph.now.graph (assumed_of assumed.now) (plain rows.now)
        task.0 antecedent.0 }
{
    let options = graph.options(task);
    let ends = row(rows, antecedent).ends();
    let loud = assumed.is_loud(graph, task);
    let by_token = canceled_by_token(loud, options.lazy_cancellation(), some_end(ends));
    by_token || some_end(excluded(ends, options))
}

/// A token that may be requested cancels at once, or once the antecedent has ended.
fn canceled_by_token(loud: bool, lazy: bool, may_be_final: bool) -> bool
    ensures { result ≡ ((loud && not lazy) || (loud && may_be_final)) }
{
    loud && (!lazy || may_be_final)
}

/// How the body of a task whose row runs may end it.
fn body_ends(graph: &Graph, rows: &[Row], bodies: &Bodies, task: TaskId) -> Finals
    requires task { is_task graph.now.graph task.0 }
    requires rows { length (plain rows.now) ≡ length graph.now.graph.tasks }
    ensures { (l : Assumed) → AreBodies graph.now.graph l (plain rows.now) bodies.now
        → (f : Final) → has result f ≡ ((row (plain rows.now) task.0).runs
        && body_may_end graph.now.graph l (plain rows.now) task.0 f) }
{
    if !row(rows, task).runs() {
        return NO_END;
    }
    let child_faults = child_may_fault(graph, rows, bodies, task);
    let thrown = bodies.thrown.contains(task);
    Finals {
        ran: bodies.returned.contains(task),
        canceled: bodies.acknowledged.contains(task),
        faulted: thrown || child_faults,
    }
}

/// An attached child may be started and end Faulted: its parent takes over its exceptions.
fn child_may_fault(graph: &Graph, rows: &[Row], bodies: &Bodies, task: TaskId) -> bool
    requires task { is_task graph.now.graph task.0 }
    requires rows { length (plain rows.now) ≡ length graph.now.graph.tasks }
    ensures { (l : Assumed) → AreBodies graph.now.graph l (plain rows.now) bodies.now
        → result ≡ some_in (λ c. reaches c (view graph.now.graph l (plain rows.now) task.0)
        (body graph.now.graph task.0) && has (row (plain rows.now) c).ends finals.Faulted)
        (attached graph.now.graph task.0) }
{
    graph.valid_law();
    some_faults(rows, &bodies.started, graph.attached(task))
}

/// One of the tasks is in the set and may end Faulted.
fn some_faults(rows: &[Row], started: &TaskSet, tasks: &[TaskId]) -> bool
    requires { AreTasks (length (plain rows.now)) tasks.now }
    ensures { result ≡ some_in (λ c. mem c started.now && has (row (plain rows.now) c).ends
        finals.Faulted) (map task_number tasks.now) }
{
    for task in tasks {
        if started.contains(*task) && row(rows, *task).ends().faulted {
            return true;
        }
    }
    false
}

/// How a WhenAll task may end: Faulted if one argument is, else Canceled if one is, else
/// RanToCompletion.
fn all_end(rows: &[Row], args: &[TaskId]) -> Finals
    requires { AreTasks (length (plain rows.now)) args.now }
    ensures { (f : Final) → has result f ≡ all_may_end (plain rows.now) (map task_number args.now)
        f }
{
    let mut found = AllEnds::none();
    for arg in args {
        found = found.with(row(rows, *arg).ends());
    }
    found.ends()
}

/// A WhenAny task ends RanToCompletion, once one argument has ended.
fn any_ends(rows: &[Row], args: &[TaskId]) -> Finals
    requires { AreTasks (length (plain rows.now)) args.now }
    ensures { (g : TaskGraph) (l : Assumed) (t : ℕ) (f : Final) → has result f
        ≡ may_end_as g l (plain rows.now) t (WhenAny (map task_number args.now)) f }
{
    Finals {
        ran: some_end(ends_of_one(rows, args)),
        canceled: false,
        faulted: false,
    }
}
