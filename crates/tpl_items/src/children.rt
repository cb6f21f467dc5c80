//! The children that a task may start.

ghost use Rattle.std.specs.Prelude.{◌≡◌, ◌+◌, ◌<◌, [], replicate, length, map, slice_index_or, IfOk, OnOk};
ghost use Rattle.tpl_draft.specs.Prelude.{task_number};
ghost use Rattle.tpl_items.specs.Prelude.{AreChildren, AreChildrenBelow};
ghost use Rattle.tpl_model.specs.Prelude.{is_task};

use std::alloc::{AllocError, Global};
use std::marker::Model;
use tpl_graph::Graph;
use tpl_model::TaskId;

/// By task, the children that its body may start. Contracts see their numbers.
#[derive(Drop)]
pub struct Children {
    lists: Vec<Vec<TaskId>>,
}

impl Model for Children {
    ghost use Rattle.std.specs.Prelude.{ℕ, List, map};
    ghost use Rattle.tpl_draft.specs.Ids.{task_number};

    ghost Value = { List (List ℕ) };

    ghost view = { λ c. map (λ l. map task_number l.items) c.lists.items };
}

/// A list for each task of the graph, each of them empty.
fn empty_lists(alloc: Global, graph: &Graph) -> Result<Vec<Vec<TaskId>>, AllocError>
    ensures { IfOk result (λ v. map (λ l. map task_number l.items) v.items ≡ replicate (length
        graph.now.graph.tasks) []) }
{
    let mut lists = Vec::with_capacity(alloc, graph.len())?;
    for task in 0..graph.len() {
        lists.push(Vec::new(alloc))?;
    }
    Ok(lists)
}

/// Adds a child to the list of the task that starts it, if one does.
fn add_child(graph: &Graph, lists: &mut Vec<Vec<TaskId>>, number: u16) -> Result<(), AllocError>
    requires task { is_task graph.now.graph number }
    requires lists { AreChildrenBelow graph.now.graph number (map (λ l. map task_number l.items)
        lists.old.items) }
    ensures { OnOk result (AreChildrenBelow graph.now.graph (number + 1) (map (λ l. map task_number
        l.items) lists.new.items)) }
{
    graph.valid_law();
    let Some(parent) = graph.parent_of(TaskId(number)) else {
        return Ok(());
    };
    lists[parent.0 as usize].push(TaskId(number))?;
    Ok(())
}

impl Children {
    /// The children of each task of the graph. There may be no memory.
    pub fn open(alloc: Global, graph: &Graph) -> Result<Children, AllocError>
        ensures { IfOk result (λ c. AreChildren graph.now.graph c) }
    {
        let mut lists = empty_lists(alloc, graph)?;
        for number in 0..graph.len() {
            add_child(graph, &mut lists, number as u16)?;
        }
        Ok(Children { lists })
    }

    /// The children of a task, in the order of their numbers; none where there is no such task.
    pub fn of(&self, task: TaskId) -> &[TaskId]
        ensures { map task_number result.now ≡ slice_index_or self.now task.0 [] }
    {
        match self.lists.get(task.0 as usize) {
            Some(list) => list.as_slice(),
            None => &[],
        }
    }
}
