//! What the paths of a body know in the runs of a leaf.

ghost use Rattle.std.specs.Prelude.{◌≡◌, ℕ, length, map, is_some};
ghost use Rattle.tpl_draft.specs.Prelude.{task_number};
ghost use Rattle.tpl_graph.specs.Prelude.{AreTasks};
ghost use Rattle.tpl_token_leaf.specs.Prelude.{IsLeaf, assumed_in, graph_of, rows_in};
ghost use Rattle.tpl_model.specs.Prelude.{asked_of, at_throw, attached, body, is_task, known, known_at_end, known_at_start, mem, reading, token_view};
ghost use Rattle.tpl_paths.specs.Prelude.{AgreeBelow, reading_of, told};

use crate::leaf::Leaf;
use tpl_model::{Final, MOST_TASKS, TaskId, TaskSet, View};
use tpl_paths::{Knowledge, Reading};

/// The tasks as a set.
pub fn task_set(tasks: &[TaskId]) -> TaskSet
    requires { AreTasks MOST_TASKS tasks.now }
    ensures { (x : ℕ) → mem x result ≡ mem x (map task_number tasks.now) }
{
    let mut set = TaskSet::empty();
    for task in tasks {
        set.insert(*task);
    }
    set
}

impl<'l> Leaf<'l> {
    /// The attached children of a task.
    pub fn attached(&self, task: TaskId) -> TaskSet
        requires { is_task (graph_of self.now) task.0 }
        ensures { (x : ℕ) → mem x result ≡ mem x (attached (graph_of self.now) task.0) }
    {
        self.graph.valid_law();
        task_set(self.graph.attached(task))
    }

    /// How the body of a task is read of which this is seen, and which has these attached children.
    fn reading<'r>(&'r self, task: TaskId, view: &'r View, children: &'r TaskSet) -> Reading<'r>
        requires leaf { IsLeaf self.now }
        requires view { known view.now ≡ token_view (graph_of self.now) (assumed_in self.now)
            (rows_in self.now) task.0 }
        requires children { (x : ℕ) → mem x children.now
            ≡ mem x (attached (graph_of self.now) task.0) }
        ensures { AgreeBelow (length (graph_of self.now).tokens) (reading_of result)
            (reading (graph_of self.now) (assumed_in self.now) (rows_in self.now) task.0) }
    {
        self.graph.valid_law();
        Reading {
            view,
            linked: self.linked,
            attached: children,
            ends: self.ends,
        }
    }

    /// What the paths of a task's body have in common that end the task so.
    pub(crate) fn known_at_end(&self, task: TaskId, status: Final) -> Option<Knowledge>
        requires leaf { IsLeaf self.now }
        requires task { is_task (graph_of self.now) task.0 }
        ensures { told result ≡ known_at_end (graph_of self.now) (assumed_in self.now)
            (rows_in self.now) task.0 status }
    {
        self.graph.valid_law();
        tpl_paths::readings_agree();
        let view = self.view(task);
        let children = self.attached(task);
        let reading = self.reading(task, &view, &children);
        tpl_paths::known_at_end(status, self.graph.body(task), &reading, self.asked(task))
    }

    /// What the paths of a task's body have in common where they start the child.
    pub(crate) fn known_at_start(&self, task: TaskId, child: TaskId) -> Option<Knowledge>
        requires leaf { IsLeaf self.now }
        requires task { is_task (graph_of self.now) task.0 }
        ensures { told result ≡ known_at_start (graph_of self.now) (assumed_in self.now)
            (rows_in self.now) task.0 child.0 }
    {
        self.graph.valid_law();
        tpl_paths::readings_agree();
        let view = self.view(task);
        let children = self.attached(task);
        let reading = self.reading(task, &view, &children);
        tpl_paths::known_at_start(child, self.graph.body(task), &reading, self.asked(task))
    }

    /// Some path of a task's body ends with an exception.
    pub(crate) fn throws(&self, task: TaskId) -> bool
        requires leaf { IsLeaf self.now }
        requires task { is_task (graph_of self.now) task.0 }
        ensures { result ≡ is_some (at_throw (reading (graph_of self.now) (assumed_in self.now)
            (rows_in self.now) task.0) (asked_of (rows_in self.now) task.0)
            (body (graph_of self.now) task.0)) }
    {
        self.graph.valid_law();
        tpl_paths::readings_agree();
        let view = self.view(task);
        let children = self.attached(task);
        let reading = self.reading(task, &view, &children);
        tpl_paths::known_at_throw(self.graph.body(task), &reading, self.asked(task)).is_some()
    }
}
