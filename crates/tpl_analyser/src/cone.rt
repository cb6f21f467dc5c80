//! The tasks and inputs that bear on a property.

ghost use Rattle.tpl_model.specs.Prelude.{is_task};

use crate::asked::asks_for;
use crate::split::Split;
use crate::splits::Splits;
use tpl_checker::{Assumptions, all_tasks};
use tpl_graph::{Graph, Role};
use tpl_model::{InputId, Property, RuleSet, TaskId, TaskSet};
use tpl_outline::{Beyond, bearing_tasks};

/// What bears on a property.
#[derive(Drop)]
pub(crate) struct Cone {
    /// The tasks that are looked at: what bears on the property, and what that depends on.
    pub(crate) tasks: TaskSet,
    splits: Splits,
}

impl Cone {
    /// What bears on the property where this is assumed: tasks, how these end, and the inputs for which their bodies ask.
    /// Who reads the exception of an observed task may ask for any input. By the rules with tokens the end of a task also says how
    /// the tasks ended for which it waits, and who won a WhenAny task bears on the property where that task does.
    pub(crate) fn of(
        graph: &Graph,
        property: Property,
        assumed: &Assumptions,
        rules: RuleSet,
        splits: &[Split],
    ) -> Cone {
        let tasks = bearing_tasks(graph, property, assumed, rules);
        match rules {
            RuleSet::WithoutTokens => {
                let splits = bearing_splits(graph, property, &tasks, splits);
                Cone { tasks, splits }
            }
            RuleSet::WithTokens => {
                let bearing = with_followers(graph, tasks);
                let splits = bearing_splits(graph, property, &bearing, splits);
                let tasks = all_tasks(graph);
                Cone { tasks, splits }
            }
        }
    }

    /// What may be assumed on the branches of splits that bear on the property.
    pub(crate) fn beyond(&self) -> Beyond {
        if self.splits.has_inputs() {
            Beyond::All
        } else {
            Beyond::Ends
        }
    }

    /// The split bears on the property.
    pub(crate) fn bears(&self, split: Split) -> bool {
        self.splits.contains(split)
    }
}

/// The splits that bear on a property on which these tasks bear.
fn bearing_splits(graph: &Graph, property: Property, tasks: &TaskSet, splits: &[Split]) -> Splits {
    let mut bearing = Splits::none();
    for split in splits {
        if bears(graph, property, tasks, *split) {
            bearing.insert(*split);
        }
    }
    bearing
}

/// The tasks, with those that wait for one of them, and those that wait for one of these in turn: each is declared behind
/// what it waits for.
fn with_followers(graph: &Graph, tasks: TaskSet) -> TaskSet {
    let mut tasks = tasks;
    for task in 0..graph.len() {
        let task = TaskId(task as u16);
        if follows(graph, &tasks, task) {
            tasks.insert(task);
        }
    }
    tasks
}

/// The task waits for one of these.
fn follows(graph: &Graph, tasks: &TaskSet, task: TaskId) -> bool
    requires { is_task graph.now.graph task.0 }
{
    match graph.role(task) {
        Role::Then(antecedent) => tasks.contains(antecedent),
        Role::All(args) => args.iter().any(|arg| tasks.contains(*arg)),
        Role::Root | Role::Child | Role::Any(_) => false,
    }
}

/// Whether a split bears on a property on which these tasks bear.
fn bears(graph: &Graph, property: Property, tasks: &TaskSet, split: Split) -> bool {
    match (split, property) {
        (Split::End(task), _) => tasks.contains(task),
        (Split::Winner(win), _) => tasks.contains(win.task),
        (Split::Input(_), Property::Observed(_)) => true,
        (Split::Input(input), _) => one_asks_for(graph, tasks, input),
    }
}

/// One of the tasks asks for the input.
fn one_asks_for(graph: &Graph, tasks: &TaskSet, input: InputId) -> bool {
    for task in 0..graph.len() {
        let task = TaskId(task as u16);
        if tasks.contains(task) && asks_for(graph.body(task).body(), input) {
            return true;
        }
    }
    false
}
