//! The order in which a leaf's rows are made.

ghost use Rattle.std.specs.Prelude.{◌≡◌, [], OnOk, IfOk, All};
ghost use Rattle.tpl_model.specs.Prelude.{is_task};
ghost use Rattle.tpl_outline.specs.Prelude.{IsStageOf, task_of};

use std::alloc::{AllocError, Global};
use tpl_checker::Below;
use tpl_graph::Graph;
use tpl_model::{TaskId, TaskSet};

/// A step in the making of a leaf's rows.
#[derive(Clone, Copy)]
pub enum Stage {
    /// Finds whether the task may begin.
    Begin(TaskId),
    /// Finds how the task may end.
    End(TaskId),
}

impl Stage {
    /// The task whose stage it is.
    pub(crate) fn task(self) -> TaskId
        ensures { result.0 ≡ task_of self }
    {
        match self {
            Stage::Begin(task) => task,
            Stage::End(task) => task,
        }
    }
}

/// The stages of all tasks, each after those on which it depends: a task begins after its parent
/// and after the end of what it waits for, and ends after its attached children.
pub fn stages_of(alloc: Global, graph: &Graph, below: &Below) -> Result<Vec<Stage>, AllocError>
    ensures { IfOk result (λ v. All (IsStageOf graph.now.graph) v.items) }
{
    let attached = attached(graph, below);
    let mut stages = Vec::new(alloc);
    for task in 0..graph.len() {
        let task = TaskId(task as u16);
        if !attached.contains(task) {
            push_family(&mut stages, graph, task, below)?;
        }
    }
    Ok(stages)
}

/// The tasks that are below another.
fn attached(graph: &Graph, below: &Below) -> TaskSet {
    let mut attached = TaskSet::empty();
    for task in 0..graph.len() {
        attached = attached.union(below.of(TaskId(task as u16)));
    }
    attached
}

/// Adds the stages of a task and of those below it, which are declared behind it.
fn push_family(
    stages: &mut Vec<Stage>,
    graph: &Graph,
    task: TaskId,
    below: &Below,
) -> Result<(), AllocError>
    requires task { is_task graph.now.graph task.0 }
    requires stages { All (IsStageOf graph.now.graph) stages.old.items }
    ensures { OnOk result (All (IsStageOf graph.now.graph) stages.new.items) }
{
    graph.valid_law();
    let family = below.of(task);
    stages.push(Stage::Begin(task))?;
    if !graph.attached(task).is_empty() {
        push_begins(stages, graph, family)?;
        push_ends(stages, graph, family)?;
    }
    stages.push(Stage::End(task))?;
    Ok(())
}

/// The beginnings of the tasks, parents first.
fn push_begins(stages: &mut Vec<Stage>, graph: &Graph, tasks: &TaskSet) -> Result<(), AllocError>
    requires { All (IsStageOf graph.now.graph) stages.old.items }
    ensures { OnOk result (All (IsStageOf graph.now.graph) stages.new.items) }
{
    for task in 0..graph.len() {
        let task = TaskId(task as u16);
        if tasks.contains(task) {
            stages.push(Stage::Begin(task))?;
        }
    }
    Ok(())
}

/// The ends of the tasks, children first.
fn push_ends(stages: &mut Vec<Stage>, graph: &Graph, tasks: &TaskSet) -> Result<(), AllocError>
    requires { All (IsStageOf graph.now.graph) stages.old.items }
    ensures { OnOk result (All (IsStageOf graph.now.graph) stages.new.items) }
{
    for task in (0..graph.len()).rev() {
        let task = TaskId(task as u16);
        if tasks.contains(task) {
            stages.push(Stage::End(task))?;
        }
    }
    Ok(())
}
