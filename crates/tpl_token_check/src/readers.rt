//! Tasks whose exceptions are read, and tasks whose exceptions are taken over.

ghost use Rattle.std.specs.Prelude.{◌≡◌, ◌<◌, ◌&&◌, ℕ, length, map, nat_eq, not, zero};
ghost use Rattle.tpl_draft.specs.Prelude.{task_number};
ghost use Rattle.tpl_graph.specs.Prelude.{AreTasks};
ghost use Rattle.tpl_laws.specs.Prelude.{faulted_view, is_read_after, is_reader, is_won_by, some_below, takes_over};
ghost use Rattle.tpl_token_leaf.specs.Prelude.{assumed_in, graph_of};
ghost use Rattle.tpl_model.specs.Prelude.{Continues, WhenAny, body, is_loud, is_task, kind, kind_left, mem, must_observe};

use tpl_checker::observes;
use tpl_graph::Role;
use tpl_model::{Final, MOST_TASKS, TaskId, TaskSet};
use tpl_token_leaf::{Leaf, both, is_won_by, task_set};

/// The tasks whose exception some task reads, itself or behind a WhenAny task.
pub(crate) fn read_tasks(leaf: &Leaf<'_>) -> TaskSet
    ensures { (y : ℕ) → mem y result ≡ is_read_after (graph_of leaf.now) (assumed_in leaf.now) zero
        y }
{
    leaf.graph.valid_law();
    let mut read = TaskSet::empty();
    for number in 0..leaf.graph.len() {
        read = read.union(&read_by(leaf, TaskId(number as u16)));
    }
    read
}

/// The tasks whose exception this one reads.
fn read_by(leaf: &Leaf<'_>, reader: TaskId) -> TaskSet
    requires { is_task (graph_of leaf.now) reader.0 }
    ensures { (y : ℕ) → mem y result ≡ is_reader (graph_of leaf.now) (assumed_in leaf.now) y
        reader.0 }
{
    match leaf.graph.role(reader) {
        Role::Then(antecedent) => read_after(leaf, reader, antecedent),
        Role::Root => TaskSet::empty(),
        Role::Child => TaskSet::empty(),
        Role::All(_) => TaskSet::empty(),
        Role::Any(_) => TaskSet::empty(),
    }
}

/// The same of a continuation: its antecedent, or the one argument that may win that.
fn read_after(leaf: &Leaf<'_>, reader: TaskId, antecedent: TaskId) -> TaskSet
    requires reader { is_task (graph_of leaf.now) reader.0 }
    requires antecedent { is_task (graph_of leaf.now) antecedent.0 }
    requires kind { Continues antecedent.0 ≡ kind (graph_of leaf.now) reader.0 }
    ensures { (y : ℕ) → mem y result ≡ is_reader (graph_of leaf.now) (assumed_in leaf.now) y
        reader.0 }
{
    leaf.graph.valid_law();
    let options = leaf.graph.options(reader);
    let reads = reads_it(leaf, reader);
    let itself = one_if(both(options.allows(Final::Faulted), reads), antecedent);
    let after_winner = both(options.allows(Final::RanToCompletion), reads);
    itself.union(&all_if(after_winner, &sole_winner(leaf, antecedent)))
}

/// The continuation isn't canceled before it begins, and observes the exception on each path.
fn reads_it(leaf: &Leaf<'_>, reader: TaskId) -> bool
    requires { is_task (graph_of leaf.now) reader.0 }
    ensures { result ≡ (not (is_loud (graph_of leaf.now) (assumed_in leaf.now).assumed reader.0)
        && must_observe
        (faulted_view (graph_of leaf.now) (assumed_in leaf.now).assumed reader.0)
        (body (graph_of leaf.now) reader.0)) }
{
    !leaf.assumed.is_loud(leaf.graph, reader) && observes(leaf.graph, leaf.assumed, reader)
}

/// The one argument that may win a task, if it is a WhenAny task that has one.
fn sole_winner(leaf: &Leaf<'_>, task: TaskId) -> TaskSet
    requires { is_task (graph_of leaf.now) task.0 }
    ensures { (y : ℕ) → mem y result ≡ is_won_by
        (kind_left (graph_of leaf.now) (assumed_in leaf.now) task.0) y }
{
    match leaf.graph.role(task) {
        Role::Any(args) => sole_winner_of(leaf, task, args),
        Role::Root => TaskSet::empty(),
        Role::Child => TaskSet::empty(),
        Role::Then(_) => TaskSet::empty(),
        Role::All(_) => TaskSet::empty(),
    }
}

/// The one of these arguments that may win the task.
fn sole_winner_of(leaf: &Leaf<'_>, task: TaskId, args: &[TaskId]) -> TaskSet
    requires task { is_task (graph_of leaf.now) task.0 }
    requires args { AreTasks (length (graph_of leaf.now).tasks) args.now }
    requires kind { WhenAny (map task_number args.now) ≡ kind (graph_of leaf.now) task.0 }
    ensures { (y : ℕ) → mem y result ≡ is_won_by
        (kind_left (graph_of leaf.now) (assumed_in leaf.now) task.0) y }
{
    leaf.graph.valid_law();
    let mut winner = TaskSet::empty();
    for arg in args {
        if is_won_by(leaf, task, *arg) {
            winner.insert(*arg);
        }
    }
    winner
}

/// The task, if the test holds.
fn one_if(test: bool, task: TaskId) -> TaskSet
    requires { task.0 < MOST_TASKS }
    ensures { (y : ℕ) → mem y result ≡ (test && nat_eq y task.0) }
{
    let mut set = TaskSet::empty();
    if test {
        set.insert(task);
    }
    set
}

/// The tasks, if the test holds.
fn all_if(test: bool, tasks: &TaskSet) -> TaskSet
    ensures { (y : ℕ) → mem y result ≡ (test && mem y tasks.now) }
{
    if test { tasks.copy() } else { TaskSet::empty() }
}

/// The tasks whose exceptions these tasks take over.
pub(crate) fn taken_over(leaf: &Leaf<'_>, takers: &TaskSet) -> TaskSet
    ensures { (y : ℕ) → mem y result ≡ some_below
        (λ x. takes_over (graph_of leaf.now) x y && mem x takers.now)
        (length (graph_of leaf.now).tasks) }
{
    leaf.graph.valid_law();
    let mut taken = TaskSet::empty();
    for number in 0..leaf.graph.len() {
        let taker = TaskId(number as u16);
        if takers.contains(taker) {
            taken = taken.union(&taken_by(leaf, taker));
        }
    }
    taken
}

/// The tasks whose exceptions this one takes over: its attached children, and as WhenAll its arguments.
fn taken_by(leaf: &Leaf<'_>, taker: TaskId) -> TaskSet
    requires { is_task (graph_of leaf.now) taker.0 }
    ensures { (y : ℕ) → mem y result ≡ takes_over (graph_of leaf.now) taker.0 y }
{
    leaf.graph.valid_law();
    let attached = leaf.attached(taker);
    match leaf.graph.role(taker) {
        Role::All(args) => attached.union(&task_set(args)),
        Role::Root => attached,
        Role::Child => attached,
        Role::Then(_) => attached,
        Role::Any(_) => attached,
    }
}
