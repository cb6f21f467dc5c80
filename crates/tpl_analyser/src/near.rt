//! The splits on how the tasks end that are near to those of which a property speaks.

ghost use Rattle.std.specs.Prelude.{IfOk, All};
ghost use Rattle.tpl_analyser.specs.Prelude.{IsSplitOf};
ghost use Rattle.tpl_model.specs.Prelude.{is_task};

use crate::split::Split;
use std::alloc::{AllocError, Global};
use tpl_checker::parent;
use tpl_graph::{Graph, Role};
use tpl_model::{MOST_TASKS, Property, TaskId, TaskSet};

/// Of so many tasks it is looked up what is next to them (this program's own limit).
const MOST_NEAR: usize = 16;

/// Tasks, the nearest first, each once.
#[derive(Drop)]
struct Near {
    tasks: Vec<TaskId>,
    seen: TaskSet,
}

impl Near {
    /// Adds the task, if it isn't there.
    fn add(&mut self, task: TaskId) -> Result<(), AllocError> {
        if task.0 < MOST_TASKS && !self.seen.contains(task) {
            self.seen.insert(task);
            self.tasks.push(task)?;
        }
        Ok(())
    }

    fn add_all(&mut self, tasks: &[TaskId]) -> Result<(), AllocError> {
        for task in tasks {
            self.add(*task)?;
        }
        Ok(())
    }

    /// Adds what is next to the task: what it waits for, its parent, and its attached children.
    fn add_next(&mut self, graph: &Graph, task: TaskId) -> Result<(), AllocError>
        requires { is_task graph.now.graph task.0 }
    {
        match graph.role(task) {
            Role::Root => {}
            Role::Then(antecedent) => self.add(antecedent)?,
            Role::Child => {
                if let Some(parent) = parent(graph, task) {
                    self.add(parent)?;
                }
            }
            Role::All(args) | Role::Any(args) => self.add_all(args)?,
        }
        self.add_all(graph.attached(task))
    }

    /// The same of the task at this place, if there is one.
    fn add_next_at(&mut self, graph: &Graph, at: usize) -> Result<(), AllocError> {
        let task = match self.tasks.get(at) {
            Some(task) => *task,
            None => return Ok(()),
        };
        if (task.0 as usize) < graph.len() {
            self.add_next(graph, task)?;
        }
        Ok(())
    }
}

/// The tasks of which the property speaks, those that are next to these, and so on.
fn near_tasks(alloc: Global, graph: &Graph, property: Property) -> Result<Vec<TaskId>, AllocError> {
    let mut near = Near {
        tasks: Vec::new(alloc),
        seen: TaskSet::empty(),
    };
    for task in property.tasks() {
        if let Some(task) = task {
            near.add(task)?;
        }
    }
    for at in 0..MOST_NEAR {
        near.add_next_at(graph, at)?;
    }
    let Near { tasks, .. } = near;
    Ok(tasks)
}

/// Splits on how the tasks end that are near to those of which the property speaks, the nearest first.
pub(crate) fn near_splits(
    alloc: Global,
    graph: &Graph,
    property: Property,
) -> Result<Vec<Split>, AllocError>
    ensures { IfOk result (λ v. All (IsSplitOf graph.now.graph) v.items) }
{
    let tasks = near_tasks(alloc, graph, property)?;
    let mut splits = Vec::new(alloc);
    for task in &tasks {
        let task = *task;
        if (task.0 as usize) < graph.len() {
            splits.push(Split::End(task))?;
        }
    }
    Ok(splits)
}
