//! The chain of the least rows: the shortest one, and of those the first.

ghost use Rattle.std.specs.Prelude.{◌≡◌, ◌&&◌, IfOk, length, map, option_map};
ghost use Rattle.tpl_draft.specs.Prelude.{task_number};
ghost use Rattle.tpl_laws.specs.Prelude.{chain_after, chain_for, is_reader, least_from, shortest_chain, takes_over};
ghost use Rattle.tpl_token_leaf.specs.Prelude.{assumed_in, graph_of};
ghost use Rattle.tpl_model.specs.Prelude.{is_task, mem};
ghost use Rattle.tpl_token_check.specs.Prelude.{AreLevels, observes_it};

use crate::readers::{read_tasks, taken_over};
use std::alloc::{AllocError, Global};
use tpl_checker::takes_over;
use tpl_model::{MOST_IN_CHAIN, Property, TaskId, TaskSet};
use tpl_token_leaf::{Leaf, reads_from};

/// The chain of a task: only the task has one whose exception is to be observed.
pub(crate) fn chain_for(
    alloc: Global,
    leaf: &Leaf<'_>,
    property: Property,
    task: TaskId,
) -> Result<Vec<TaskId>, AllocError>
    ensures { IfOk result (λ v. map task_number v.items ≡ chain_for (graph_of leaf.now)
        (assumed_in leaf.now) property task.0) }
{
    if is_observed(property, task) {
        shortest_chain(alloc, leaf, task)
    } else {
        Ok(Vec::new(alloc))
    }
}

/// It is the exception of this task that is to be observed.
fn is_observed(property: Property, task: TaskId) -> bool
    ensures { result ≡ observes_it property task.0 }
{
    match property {
        Property::Observed(observed) => observed.0 == task.0,
        _ => false,
    }
}

/// The chain after the least number of tasks, one after another, that take the exception over before it is read: none,
/// if it isn't read after any number that the limits allow.
fn shortest_chain(alloc: Global, leaf: &Leaf<'_>, task: TaskId) -> Result<Vec<TaskId>, AllocError>
    ensures { IfOk result (λ v. map task_number v.items ≡ shortest_chain (graph_of leaf.now)
        (assumed_in leaf.now) task.0) }
{
    let mut levels = Vec::new(alloc);
    let mut level = read_tasks(leaf);
    for _ in 0..MOST_IN_CHAIN {
        if level.contains(task) {
            return chain_down(alloc, leaf, levels.as_slice(), task);
        }
        let next = taken_over(leaf, &level);
        levels.push(level)?;
        level = next;
    }
    Ok(Vec::new(alloc))
}

/// The chain with a task for each of these levels, from the last one down, and the reader: at each place the least task
/// that will do.
fn chain_down(
    alloc: Global,
    leaf: &Leaf<'_>,
    levels: &[TaskSet],
    task: TaskId,
) -> Result<Vec<TaskId>, AllocError>
    requires { AreLevels (graph_of leaf.now) (assumed_in leaf.now) levels.now }
    ensures { IfOk result (λ v. map task_number v.items ≡ chain_after (graph_of leaf.now)
        (assumed_in leaf.now) (length levels.now) task.0) }
{
    let mut chain = Vec::new(alloc);
    let mut carrier = task;
    for at in (0..levels.len()).rev() {
        let Some(taker) = first_taker(leaf, &levels[at], carrier) else {
            return Ok(chain);
        };
        chain.push(taker)?;
        carrier = taker;
    }
    match first_reader(leaf, carrier) {
        None => Ok(chain),
        Some(reader) => {
            chain.push(reader)?;
            Ok(chain)
        }
    }
}

/// The first of these tasks that takes over what the task carries.
fn first_taker(leaf: &Leaf<'_>, takers: &TaskSet, task: TaskId) -> Option<TaskId>
    ensures { option_map task_number result ≡ least_from
        (λ x. takes_over (graph_of leaf.now) x task.0 && mem x takers.now) 0
        (length (graph_of leaf.now).tasks) }
{
    leaf.graph.valid_law();
    for number in 0..leaf.graph.len() {
        let taker = TaskId(number as u16);
        if takes_from(leaf, takers, taker, task) {
            return Some(taker);
        }
    }
    None
}

/// The taker is one of these tasks, and takes over what the task carries.
fn takes_from(leaf: &Leaf<'_>, takers: &TaskSet, taker: TaskId, task: TaskId) -> bool
    requires { is_task (graph_of leaf.now) taker.0 }
    ensures { result ≡ (takes_over (graph_of leaf.now) taker.0 task.0 && mem taker.0 takers.now) }
{
    takes_over(leaf.graph, taker, task) && takers.contains(taker)
}

/// The first task that reads the exception of this one.
fn first_reader(leaf: &Leaf<'_>, task: TaskId) -> Option<TaskId>
    ensures { option_map task_number result ≡ least_from
        (is_reader (graph_of leaf.now) (assumed_in leaf.now) task.0) 0
        (length (graph_of leaf.now).tasks) }
{
    leaf.graph.valid_law();
    for number in 0..leaf.graph.len() {
        let reader = TaskId(number as u16);
        if reads_from(leaf, reader, task) {
            return Some(reader);
        }
    }
    None
}
