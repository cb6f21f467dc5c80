//! The chain of a row leads to a continuation that reads its task's exception (the rule K6).

ghost use Rattle.std.specs.Prelude.{◌≡◌, IsTrue, length, map};
ghost use Rattle.tpl_checker.specs.Prelude.{assumed_of};
ghost use Rattle.tpl_draft.specs.Prelude.{task_number};
ghost use Rattle.tpl_graph.specs.Prelude.{AreTasks};
ghost use Rattle.tpl_laws.specs.Prelude.{chain, chain_by, continues, faulted_view, has_tasks, is_argument, reads, takes_over};
ghost use Rattle.tpl_model.specs.Prelude.{attached, body, is_task, kind, must_observe, plain, row};

use crate::assumptions::Assumptions;
use crate::rows::{is_member, row};
use crate::view::faulted_view;
use tpl_graph::{Graph, Role};
use tpl_model::{Final, TaskId};
use tpl_trees::Row;

/// The chain of the row of the task, if it has one, leads to a reader.
pub(crate) fn chain(graph: &Graph, assumed: &Assumptions, rows: &[Row], task: TaskId) -> bool
    requires task { is_task graph.now.graph task.0 }
    requires rows { length (plain rows.now) ≡ length graph.now.graph.tasks }
    requires ids { IsTrue (has_tasks graph.now.graph (row (plain rows.now) task.0).chain) }
    ensures { result ≡ chain graph.now.graph (assumed_of assumed.now) (plain rows.now) task.0 }
{
    leads_to_reader(graph, assumed, task, row(rows, task).chain())
}

/// Each task of the chain takes over what the one before it carries, and the last one reads it.
fn leads_to_reader(graph: &Graph, assumed: &Assumptions, task: TaskId, chain: &[TaskId]) -> bool
    requires task { is_task graph.now.graph task.0 }
    requires tasks { AreTasks (length graph.now.graph.tasks) chain.now }
    ensures { result ≡ chain_by graph.now.graph (assumed_of assumed.now) task.0
        (map task_number chain.now) }
{
    let mut carrier = task;
    for at in 0..chain.len() {
        let next = chain[at];
        if at + 1 == chain.len() {
            return reads(graph, assumed, next, carrier);
        }
        if !takes_over(graph, next, carrier) {
            return false;
        }
        carrier = next;
    }
    true
}

/// The reader continues the task after each way to end that is Faulted, isn't canceled before, and
/// observes the exception on each path.
pub fn reads(graph: &Graph, assumed: &Assumptions, reader: TaskId, task: TaskId) -> bool
    requires { is_task graph.now.graph reader.0 }
    ensures { result ≡ reads graph.now.graph (assumed_of assumed.now) reader.0 task.0 }
{
    continues(graph, reader, task)
        && graph.options(reader).allows(Final::Faulted)
        && !assumed.is_loud(graph, reader)
        && observes(graph, assumed, reader)
}

fn continues(graph: &Graph, reader: TaskId, task: TaskId) -> bool
    requires { is_task graph.now.graph reader.0 }
    ensures { result ≡ continues task.0 (kind graph.now.graph reader.0) }
{
    match graph.role(reader) {
        Role::Then(antecedent) => antecedent.0 == task.0,
        _ => false,
    }
}

/// Each path of the reader's body passes an `observe`, where its antecedent is faulted.
pub fn observes(graph: &Graph, assumed: &Assumptions, reader: TaskId) -> bool
    requires { is_task graph.now.graph reader.0 }
    ensures { result ≡ must_observe (faulted_view graph.now.graph (assumed_of assumed.now) reader.0)
        (body graph.now.graph reader.0) }
{
    tpl_model::must_observe_is_right();
    tpl_model::must_observe(graph.body(reader), &faulted_view(graph, assumed, reader))
}

/// The task takes over what the other carries: it is the parent of an attached child, or waits for
/// an argument as WhenAll.
pub fn takes_over(graph: &Graph, task: TaskId, other: TaskId) -> bool
    requires { is_task graph.now.graph task.0 }
    ensures { result ≡ takes_over graph.now.graph task.0 other.0 }
{
    is_member(other, graph.attached(task)) || is_argument(graph, task, other)
}

fn is_argument(graph: &Graph, task: TaskId, other: TaskId) -> bool
    requires { is_task graph.now.graph task.0 }
    ensures { result ≡ is_argument other.0 (kind graph.now.graph task.0) }
{
    match graph.role(task) {
        Role::All(args) => is_member(other, args),
        _ => false,
    }
}
