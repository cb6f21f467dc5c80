//! The attached children of each task, theirs, and so on.

ghost use Rattle.std.specs.Prelude.{◌≡◌, ◌<◌, ℕ, false, slice_index_or, []};
ghost use Rattle.tpl_checker.specs.Prelude.{AreBelow};
ghost use Rattle.tpl_laws.specs.Prelude.{below_by, is_below, parent_of};
ghost use Rattle.tpl_model.specs.Prelude.{is_task, mem};

use crate::parents::parent;
use crate::rows::{is_member, with_if};
use std::array;
use tpl_graph::Graph;
use tpl_model::{MOST_TASKS, TaskId, TaskSet};

/// The tasks below each task of a graph: its attached children, theirs, and so on. It is 128
/// kilobytes long, and made once for all leaves.
#[derive(Drop)]
pub struct Below {
    sets: [TaskSet; MOST_TASKS as usize],
}

impl Below {
    /// The tasks below each task of the graph.
    pub fn of_graph(graph: &Graph) -> Below
        ensures { AreBelow graph.now.graph result }
    {
        graph.valid_law();
        tpl_laws::below_is_right();
        let mut sets = no_sets();
        for task in 0..graph.len() {
            sets[task] = tasks_below(graph, TaskId(task as u16));
        }
        Below { sets }
    }

    /// The tasks below one.
    pub fn of(&self, task: TaskId) -> &TaskSet
        requires { task.0 < MOST_TASKS }
        ensures { result.now ≡ slice_index_or self.now.sets task.0 [] }
    {
        &self.sets[task.0 as usize]
    }
}

fn no_sets() -> [TaskSet; MOST_TASKS as usize]
    ensures { (t : ℕ) → slice_index_or result t [] ≡ [] }
{
    array::from_fn(|_| TaskSet::empty())
}

/// The tasks below one, found in one pass: a child is declared after its parent.
fn tasks_below(graph: &Graph, task: TaskId) -> TaskSet
    ensures { (x : ℕ) → mem x result ≡ is_below graph.now.graph task.0 x }
{
    graph.valid_law();
    tpl_laws::below_in_one_pass();
    tpl_laws::below_is_right();
    tpl_laws::parent_is_right();
    let mut found = TaskSet::empty();
    if has_attached(graph, task) {
        for child in 0..graph.len() {
            let child = TaskId(child as u16);
            let attached = is_attached_below(graph, task, child, &found);
            found = with_if(found, child, attached);
        }
    }
    found
}

/// The task is one of the graph, to which a child is attached.
pub fn has_attached(graph: &Graph, task: TaskId) -> bool
    ensures { result ≡ false → (x : ℕ) → is_below graph.now.graph task.0 x ≡ false }
{
    graph.valid_law();
    tpl_laws::below_is_right();
    (task.0 as usize) < graph.len() && !graph.attached(task).is_empty()
}

/// The child is attached to the task, or to one of those found below it.
fn is_attached_below(graph: &Graph, task: TaskId, child: TaskId, found: &TaskSet) -> bool
    requires { is_task graph.now.graph child.0 }
    ensures { result ≡ below_by graph.now.graph task.0 child.0 (parent_of graph.now.graph child.0)
        (λ p. mem p found.now) }
{
    match parent(graph, child) {
        None => false,
        Some(parent) => {
            is_member(child, graph.attached(parent))
                && (parent.0 == task.0 || found.contains(parent))
        }
    }
}
