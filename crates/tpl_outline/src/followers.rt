//! Which tasks look at each task.

ghost use Rattle.tpl_model.specs.Prelude.{is_task};

use crate::bits::Bits;
use std::alloc::{AllocError, Global};
use tpl_checker::parent;
use tpl_graph::{Graph, Role};
use tpl_model::TaskId;

/// The tasks that look at each task of a graph, and those that it waits for. They are found once for
/// all leaves.
#[derive(Drop)]
pub struct Followers {
    /// The continuations of each task, in the order in which they are declared.
    continuations: Vec<Vec<TaskId>>,
    /// The tasks that the body of each task may start, in that order.
    children: Vec<Vec<TaskId>>,
    /// Who takes over the exceptions that each task carries: a WhenAll task that waits for it, or its parent.
    takers: Vec<Bits>,
    /// The arguments of each WhenAll or WhenAny task.
    args: Vec<Bits>,
    /// Whose fate depends on how each task ends: who waits for it, its parent, its continuations and
    /// those of a WhenAny task that waits for it.
    watchers: Vec<Bits>,
    /// The set of no task.
    none: Bits,
}

/// An empty list for each task.
fn empty_lists(alloc: Global, count: usize) -> Result<Vec<Vec<TaskId>>, AllocError> {
    let mut lists = Vec::with_capacity(alloc, count)?;
    for _task in 0..count {
        lists.push(Vec::new(alloc))?;
    }
    Ok(lists)
}

/// An empty set for each task.
fn empty_sets(alloc: Global, count: usize) -> Result<Vec<Bits>, AllocError> {
    let mut sets = Vec::with_capacity(alloc, count)?;
    for _task in 0..count {
        sets.push(Bits::none())?;
    }
    Ok(sets)
}

/// Adds the task to the list of the other.
fn push_to(lists: &mut Vec<Vec<TaskId>>, other: TaskId, task: TaskId) -> Result<(), AllocError> {
    if let Some(list) = lists.get_mut(other.0 as usize) {
        list.push(task)?;
    }
    Ok(())
}

/// Adds the task to the set of each of the others.
fn insert_to(sets: &mut Vec<Bits>, others: &[TaskId], task: TaskId) {
    for other in others {
        if let Some(set) = sets.get_mut(other.0 as usize) {
            set.insert(task);
        }
    }
}

/// The list of the task.
fn list_of(lists: &[Vec<TaskId>], task: TaskId) -> &[TaskId] {
    match lists.get(task.0 as usize) {
        None => &[],
        Some(list) => list.as_slice(),
    }
}

impl Followers {
    /// The tasks that look at each task of the graph.
    pub fn of_graph(alloc: Global, graph: &Graph) -> Result<Followers, AllocError> {
        let count = graph.len();
        let mut followers = Followers {
            continuations: empty_lists(alloc, count)?,
            children: empty_lists(alloc, count)?,
            takers: empty_sets(alloc, count)?,
            args: empty_sets(alloc, count)?,
            watchers: empty_sets(alloc, count)?,
            none: Bits::none(),
        };
        for task in 0..count {
            followers.add(graph, TaskId(task as u16))?;
        }
        Ok(followers)
    }

    /// Adds the task to those at which it looks.
    fn add(&mut self, graph: &Graph, task: TaskId) -> Result<(), AllocError>
        requires { is_task graph.now.graph task.0 }
    {
        match graph.role(task) {
            Role::Root => {}
            Role::Child => {
                if let Some(parent) = parent(graph, task) {
                    push_to(&mut self.children, parent, task)?;
                }
            }
            Role::Then(antecedent) => {
                push_to(&mut self.continuations, antecedent, task)?;
                insert_to(&mut self.watchers, &[antecedent], task);
                insert_to(&mut self.watchers, raced(graph, antecedent), task);
            }
            Role::All(args) => {
                insert_to(&mut self.takers, args, task);
                self.wait(args, task);
            }
            Role::Any(args) => self.wait(args, task),
        }
        insert_to(&mut self.takers, graph.attached(task), task);
        insert_to(&mut self.watchers, graph.attached(task), task);
        Ok(())
    }

    /// The task waits for these.
    fn wait(&mut self, args: &[TaskId], task: TaskId) {
        if let Some(set) = self.args.get_mut(task.0 as usize) {
            set.insert_all(args);
        }
        insert_to(&mut self.watchers, args, task);
    }

    /// The continuations of the task.
    pub(crate) fn continuations(&self, task: TaskId) -> &[TaskId] {
        list_of(&self.continuations, task)
    }

    /// The tasks that the body of the task may start.
    pub(crate) fn children(&self, task: TaskId) -> &[TaskId] {
        list_of(&self.children, task)
    }

    /// Who takes over the exceptions that the task carries.
    pub(crate) fn takers(&self, task: TaskId) -> &Bits {
        self.set_in(&self.takers, task)
    }

    /// The arguments of a WhenAll or WhenAny task.
    pub(crate) fn args(&self, task: TaskId) -> &Bits {
        self.set_in(&self.args, task)
    }

    /// Whose fate depends on how the task ends.
    pub(crate) fn watchers(&self, task: TaskId) -> &Bits {
        self.set_in(&self.watchers, task)
    }

    /// The set of the task among these.
    fn set_in<'s>(&'s self, sets: &'s [Bits], task: TaskId) -> &'s Bits {
        match sets.get(task.0 as usize) {
            None => &self.none,
            Some(set) => set,
        }
    }
}

/// The arguments of a WhenAny task.
fn raced(graph: &Graph, task: TaskId) -> &[TaskId]
    requires { is_task graph.now.graph task.0 }
{
    match graph.role(task) {
        Role::Any(args) => args,
        _ => &[],
    }
}
