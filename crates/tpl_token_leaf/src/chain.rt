//! The chain of a row leads to a continuation that reads its task's exception (the rule K6).

ghost use Rattle.std.specs.Prelude.{◌≡◌, ◌||◌, IsTrue, filter, length, map, nat_eq};
ghost use Rattle.tpl_draft.specs.Prelude.{task_number};
ghost use Rattle.tpl_graph.specs.Prelude.{AreTasks};
ghost use Rattle.tpl_laws.specs.Prelude.{all_in, has_tasks, is_won_by, reads, reads_winner, token_chain};
ghost use Rattle.tpl_token_leaf.specs.Prelude.{IsLeaf, assumed_in, graph_of, rows_in};
ghost use Rattle.tpl_model.specs.Prelude.{WhenAny, is_task, kind, kind_left, plain, row};

use crate::leaf::Leaf;
use crate::truths::both;
use tpl_checker::{implies, is_member, observes, reads, takes_over};
use tpl_graph::Role;
use tpl_model::{Final, TaskId};

/// The chain of the row of the task, if it has one, leads to a reader.
pub(crate) fn chain(leaf: &Leaf<'_>, task: TaskId) -> bool
    requires leaf { IsLeaf leaf.now }
    requires task { is_task (graph_of leaf.now) task.0 }
    requires ids { IsTrue (has_tasks (graph_of leaf.now)
        (row (plain (rows_in leaf.now)) task.0).chain) }
    ensures { result ≡ token_chain (graph_of leaf.now) (assumed_in leaf.now) task.0
        (row (plain (rows_in leaf.now)) task.0).chain }
{
    leads_to_reader(leaf, task, leaf.row(task).chain())
}

/// Each task of the chain takes over what the one before it carries, and the last one reads it, itself or behind a WhenAny
/// task that the one before it alone may win.
fn leads_to_reader(leaf: &Leaf<'_>, task: TaskId, chain: &[TaskId]) -> bool
    requires { AreTasks (length (graph_of leaf.now).tasks) chain.now }
    ensures { result ≡ token_chain (graph_of leaf.now) (assumed_in leaf.now) task.0
        (map task_number chain.now) }
{
    let mut carrier = task;
    for at in 0..chain.len() {
        let next = chain[at];
        if at + 1 == chain.len() {
            return reads_from(leaf, next, carrier);
        }
        if !takes_over(leaf.graph, next, carrier) {
            return false;
        }
        carrier = next;
    }
    true
}

/// The reader reads the task's exception, itself or behind a WhenAny task.
pub fn reads_from(leaf: &Leaf<'_>, reader: TaskId, task: TaskId) -> bool
    requires { is_task (graph_of leaf.now) reader.0 }
    ensures { result ≡ (reads (graph_of leaf.now) (assumed_in leaf.now).assumed reader.0 task.0
        || reads_winner (graph_of leaf.now) (assumed_in leaf.now) reader.0 task.0
        (kind (graph_of leaf.now) reader.0)) }
{
    reads(leaf.graph, leaf.assumed, reader, task) || reads_winner(leaf, reader, task)
}

/// The reader continues a WhenAny task that this task alone may win, isn't canceled before, and observes the exception on
/// each path.
fn reads_winner(leaf: &Leaf<'_>, reader: TaskId, task: TaskId) -> bool
    requires { is_task (graph_of leaf.now) reader.0 }
    ensures { result ≡ reads_winner (graph_of leaf.now) (assumed_in leaf.now) reader.0 task.0
        (kind (graph_of leaf.now) reader.0) }
{
    match leaf.graph.role(reader) {
        Role::Then(antecedent) => {
            is_won_by(leaf, antecedent, task)
                && leaf.graph.options(reader).allows(Final::RanToCompletion)
                && !leaf.assumed.is_loud(leaf.graph, reader)
                && observes(leaf.graph, leaf.assumed, reader)
        }
        _ => false,
    }
}

/// The argument alone may win the task.
pub fn is_won_by(leaf: &Leaf<'_>, task: TaskId, argument: TaskId) -> bool
    requires { is_task (graph_of leaf.now) task.0 }
    ensures { result ≡ is_won_by (kind_left (graph_of leaf.now) (assumed_in leaf.now) task.0)
        argument.0 }
{
    match leaf.graph.role(task) {
        Role::Any(args) => is_only_winner(leaf, task, args, argument),
        _ => false,
    }
}

/// Of the arguments of the task this one alone may win.
fn is_only_winner(leaf: &Leaf<'_>, task: TaskId, args: &[TaskId], argument: TaskId) -> bool
    ensures { result ≡ is_won_by (WhenAny (filter ((assumed_in leaf.now).wins task.0)
        (map task_number args.now))) argument.0 }
{
    let is_one = is_member(argument, args);
    let wins = leaf.may_win(task, argument);
    let alone = wins_alone(leaf, task, args, argument);
    both(both(is_one, wins), alone)
}

/// No argument but this one may win the task.
fn wins_alone(leaf: &Leaf<'_>, task: TaskId, args: &[TaskId], argument: TaskId) -> bool
    ensures { result ≡ all_in (λ x. nat_eq x argument.0) (filter ((assumed_in leaf.now).wins task.0)
        (map task_number args.now)) }
{
    for arg in args {
        if !implies(leaf.may_win(task, *arg), arg.0 == argument.0) {
            return false;
        }
    }
    true
}
