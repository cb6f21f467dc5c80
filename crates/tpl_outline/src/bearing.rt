//! The tasks that bear on a property.

ghost use Rattle.std.specs.Prelude.{◌≡◌, ℕ, ◌<◌, true};
ghost use Rattle.tpl_model.specs.Prelude.{is_task, mem, names};

use crate::stuck::may_be_stuck;
use tpl_checker::{Assumptions, parent};
use tpl_graph::{Graph, Role};
use tpl_model::{MOST_TASKS, Property, RuleSet, TaskId, TaskSet};

/// The tasks that bear on a property by the rules where this is assumed: those of which it speaks, what these wait
/// for, their parents and their attached children, and what bears on these in turn; and where the
/// property is also proved if no run is complete, likewise those that may never end by what is
/// assumed. How any other task ends changes nothing of what is proved of them; of that no clause speaks.
pub fn bearing_tasks(
    graph: &Graph,
    property: Property,
    assumed: &Assumptions,
    rules: RuleSet,
) -> TaskSet
    ensures { (x : ℕ) → x < MOST_TASKS → names property x ≡ true → mem x result ≡ true }
{
    let mut bearing = with_stuck(graph, named(property), property, assumed, rules);
    for _ in 0..MOST_TASKS {
        let wider = widened(graph, &bearing);
        if wider.same(&bearing) {
            return bearing;
        }
        bearing = wider;
    }
    bearing
}

/// The tasks of which the property speaks.
fn named(property: Property) -> TaskSet
    ensures { (x : ℕ) → x < MOST_TASKS → names property x ≡ true → mem x result ≡ true }
{
    let mut tasks = TaskSet::empty();
    for number in 0..MOST_TASKS {
        let task = TaskId(number);
        if property.names(task) {
            tasks = with(tasks, task);
        }
    }
    tasks
}

/// Adds the tasks that may never end by what is assumed, if by the rules the property is also proved where no
/// run is complete.
fn with_stuck(
    graph: &Graph,
    tasks: TaskSet,
    property: Property,
    assumed: &Assumptions,
    rules: RuleSet,
) -> TaskSet
    ensures { (x : ℕ) → mem x tasks ≡ true → mem x result ≡ true }
{
    let mut tasks = tasks;
    if !rests_on_ends(property, rules) {
        return tasks;
    }
    for task in 0..graph.len() {
        let task = TaskId(task as u16);
        if may_be_stuck(graph, assumed, task) {
            tasks = with(tasks, task);
        }
    }
    tasks
}

/// By the rules the property is also proved where no run is complete.
fn rests_on_ends(property: Property, rules: RuleSet) -> bool {
    match property {
        Property::Observed(_) => rules == RuleSet::WithTokens,
        Property::Runs(_) => true,
        _ => false,
    }
}

/// The tasks, with those that bear on them directly; most of these are declared before them.
fn widened(graph: &Graph, tasks: &TaskSet) -> TaskSet
    ensures { (x : ℕ) → mem x tasks.now ≡ true → mem x result ≡ true }
{
    let mut wider = tasks.copy();
    for task in (0..graph.len()).rev() {
        let task = TaskId(task as u16);
        if wider.contains(task) {
            wider = with_causes(graph, wider, task);
        }
    }
    wider
}

/// Adds the tasks that bear on the task directly.
fn with_causes(graph: &Graph, tasks: TaskSet, task: TaskId) -> TaskSet
    requires { is_task graph.now.graph task.0 }
    ensures { (x : ℕ) → mem x tasks ≡ true → mem x result ≡ true }
{
    let tasks = with_all(tasks, graph.attached(task));
    match graph.role(task) {
        Role::Root => tasks,
        Role::Then(antecedent) => with(tasks, antecedent),
        Role::Child => match parent(graph, task) {
            None => tasks,
            Some(parent) => with(tasks, parent),
        },
        Role::All(args) | Role::Any(args) => with_all(tasks, args),
    }
}

fn with_all(tasks: TaskSet, others: &[TaskId]) -> TaskSet
    ensures { (x : ℕ) → mem x tasks ≡ true → mem x result ≡ true }
{
    let mut tasks = tasks;
    for task in others {
        tasks = with(tasks, *task);
    }
    tasks
}

fn with(tasks: TaskSet, task: TaskId) -> TaskSet
    ensures kept { (x : ℕ) → mem x tasks ≡ true → mem x result ≡ true }
    ensures added { task.0 < MOST_TASKS → mem task.0 result ≡ true }
{
    let mut tasks = tasks;
    if task.0 < MOST_TASKS {
        tasks.insert(task);
    }
    tasks
}
