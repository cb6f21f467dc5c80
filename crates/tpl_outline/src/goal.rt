//! Whether the least rows of a leaf prove a claim's property.

ghost use Rattle.tpl_model.specs.Prelude.{is_task};
ghost use Rattle.tpl_outline.specs.Prelude.{IsAnswer};

use crate::bits::Bits;
use crate::rows::{Parts, may_end_early};
use tpl_checker::{parent, some_end};
use tpl_graph::Role;
use tpl_model::{Property, RuleSet, TaskId, TaskSet};

/// Whether the least rows prove the property, on which these tasks bear, where an observed task has
/// a chain or not.
pub(crate) fn is_reached(
    parts: Parts<'_>,
    property: Property,
    tasks: &TaskSet,
    has_chain: bool,
) -> bool
    ensures { IsAnswer property parts.entry.outline.now result }
{
    match property {
        Property::Final(task, ends) => parts.outline.fate(task).ends.is_subset(&ends),
        Property::After(first, second) => {
            !parts.outline.fate(second).runs || is_before(parts, tasks, first, second)
        }
        Property::Observed(task) => {
            let fate = parts.outline.fate(task);
            let throws = fate.runs && fate.ends.faulted && fate.verdicts.thrown;
            has_chain
                || !throws
                || parts.rules == RuleSet::WithTokens && none_complete(parts, tasks)
        }
        Property::Never(task) => !parts.outline.fate(task).runs,
        Property::Excludes(first, second) => {
            !parts.outline.fate(first).runs || !parts.outline.fate(second).runs
        }
        Property::Runs(task) => {
            begins_itself(parts, task) && !parts.outline.fate(task).ends.canceled
                || none_complete(parts, tasks)
        }
    }
}

/// The task is a root or a continuation.
fn begins_itself(parts: Parts<'_>, task: TaskId) -> bool {
    if task.0 as usize >= parts.graph.len() {
        return false;
    }
    match parts.graph.role(task) {
        Role::Root | Role::Then(_) => true,
        _ => false,
    }
}

/// No run is complete: one of these tasks is no child and can't end.
fn none_complete(parts: Parts<'_>, tasks: &TaskSet) -> bool {
    for task in 0..parts.graph.len() {
        let task = TaskId(task as u16);
        if tasks.contains(task) && is_stuck(parts, task) {
            return true;
        }
    }
    false
}

/// The task is no child and can't end.
fn is_stuck(parts: Parts<'_>, task: TaskId) -> bool
    requires { is_task parts.graph.now.graph task.0 }
{
    match parts.graph.role(task) {
        Role::Child => false,
        _ => !some_end(parts.outline.fate(task).ends),
    }
}

/// The tasks before which one task is settled, and those after which it is: itself, and the tasks past
/// which it is settled.
#[derive(Clone, Copy)]
struct Places {
    before: Bits,
    after: Bits,
}

/// The first task is settled when the second begins.
fn is_before(parts: Parts<'_>, tasks: &TaskSet, first: TaskId, second: TaskId) -> bool {
    let mut places = Places {
        before: Bits::none(),
        after: Bits::none(),
    };
    places.after.insert(first);
    for task in 0..parts.graph.len() {
        let task = TaskId(task as u16);
        if tasks.contains(task) {
            places.add(parts, first, task);
        }
    }
    places.before.has(second)
}

impl Places {
    /// Says of one more task whether the first is settled before it and past it.
    fn add(&mut self, parts: Parts<'_>, first: TaskId, task: TaskId)
        requires { is_task parts.graph.now.graph task.0 }
    {
        if self.is_before(parts, task) {
            self.before.insert(task);
        }
        if self.is_past(parts, first, task) {
            self.after.insert(task);
        }
    }

    fn is_before(&self, parts: Parts<'_>, task: TaskId) -> bool
        requires { is_task parts.graph.now.graph task.0 }
    {
        match parts.graph.role(task) {
            Role::Then(antecedent) => {
                parts.outline.fate(task).runs && self.after.has(antecedent)
            }
            Role::Child => parts.outline.fate(task).runs && self.is_before_parent(parts, task),
            _ => false,
        }
    }

    fn is_past(&self, parts: Parts<'_>, first: TaskId, task: TaskId) -> bool
        requires { is_task parts.graph.now.graph task.0 }
    {
        parts.graph.valid_law();
        let is_below = parts.below.of(task).contains(first);
        match parts.graph.role(task) {
            Role::Root => is_below,
            Role::Child => is_below || self.is_before_parent(parts, task),
            Role::Then(antecedent) => {
                is_below || !may_end_early(parts, task) && self.after.has(antecedent)
            }
            Role::All(_) => parts.followers.args(task).meets(&self.after),
            Role::Any(_) => self.is_past_any(parts, task),
        }
    }

    /// The first task is settled after each of those for which a WhenAny task waits; by the rules with tokens
    /// after each of those that may end.
    fn is_past_any(&self, parts: Parts<'_>, task: TaskId) -> bool {
        let args = parts.followers.args(task);
        let winners = match parts.rules {
            RuleSet::WithoutTokens => *args,
            RuleSet::WithTokens => parts.outline.ending(args),
        };
        winners.meets(&self.after) && winners.is_within(&self.after)
    }

    fn is_before_parent(&self, parts: Parts<'_>, task: TaskId) -> bool
        requires { is_task parts.graph.now.graph task.0 }
    {
        match parent(parts.graph, task) {
            None => false,
            Some(parent) => self.before.has(parent),
        }
    }
}
