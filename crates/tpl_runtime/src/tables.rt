//! What is reported of each task when a session is closed.

ghost use Rattle.std.specs.Prelude.{◌≡◌, length, map, reverse, IfOk};
ghost use Rattle.tpl_draft.specs.Prelude.{task_number};
ghost use Rattle.tpl_machine.specs.Prelude.{named};
ghost use Rattle.tpl_model.specs.Prelude.{carried, is_task, label, status};
ghost use Rattle.tpl_runtime.specs.Prelude.{IsTold, each_below, is_unseen, those_below, told_of};

use std::alloc::{AllocError, Global};
use tpl_fast::Fast;
use tpl_graph::Graph;
use tpl_hall::Hall;
use tpl_machine::Core;
use tpl_model::{Inputs, Label, Status, TaskId};

/// Where each task stands.
fn statuses(alloc: Global, core: &Fast<'_>) -> Result<Vec<Status>, AllocError>
    ensures { IfOk result (λ v. v.items ≡ each_below (status core.now.graph core.now.inputs
        core.now.events) (length core.now.graph.tasks)) }
{
    let mut list = Vec::with_capacity(alloc, core.graph().len())?;
    for task in 0..core.graph().len() {
        list.push(core.status(TaskId(task as u16)))?;
    }
    Ok(list)
}

/// What each task's own body threw.
fn labels(alloc: Global, core: &Fast<'_>) -> Result<Vec<Option<Label>>, AllocError>
    ensures { IfOk result (λ v. v.items ≡ each_below (label core.now.graph core.now.inputs
        core.now.events) (length core.now.graph.tasks)) }
{
    let mut list = Vec::with_capacity(alloc, core.graph().len())?;
    for task in 0..core.graph().len() {
        list.push(core.label(TaskId(task as u16)))?;
    }
    Ok(list)
}

/// Whose exceptions a task carries.
fn carried_of(alloc: Global, core: &Fast<'_>, task: TaskId) -> Result<Vec<TaskId>, AllocError>
    requires { is_task core.now.graph task.0 }
    ensures { IfOk result (λ v. map task_number v.items ≡ carried core.now.graph core.now.inputs
        core.now.events task.0) }
{
    let atoms = core.carried(task);
    let mut list = Vec::with_capacity(alloc, atoms.len())?;
    for atom in atoms {
        list.push(*atom)?;
    }
    Ok(list)
}

/// Whose exceptions each task carries.
fn carried(alloc: Global, core: &Fast<'_>) -> Result<Vec<Vec<TaskId>>, AllocError>
    ensures { IfOk result (λ v. map (λ c. map task_number c.items) v.items ≡ each_below (carried
        core.now.graph core.now.inputs core.now.events) (length core.now.graph.tasks)) }
{
    let mut list = Vec::with_capacity(alloc, core.graph().len())?;
    for task in 0..core.graph().len() {
        list.push(carried_of(alloc, core, TaskId(task as u16))?)?;
    }
    Ok(list)
}

/// The tasks whose exception nobody has observed.
fn unseen(alloc: Global, core: &Fast<'_>) -> Result<Vec<TaskId>, AllocError>
    ensures { IfOk result (λ v. map task_number v.items ≡ those_below (is_unseen core.now.graph
        core.now.inputs core.now.events) (length core.now.graph.tasks)) }
{
    let mut list = Vec::with_capacity(alloc, core.graph().len())?;
    for number in 0..core.graph().len() {
        let task = TaskId(number as u16);
        if core.label(task).is_some() && !core.seen(task) {
            list.push(task)?;
        }
    }
    Ok(list)
}

/// What is reported of each task.
#[derive(Drop)]
pub struct Told {
    pub statuses: Vec<Status>,
    pub labels: Vec<Option<Label>>,
    pub carried: Vec<Vec<TaskId>>,
    pub unseen: Vec<TaskId>,
    pub complete: bool,
}

/// What is reported of each task of this graph.
pub fn tables<K: Drop>(
    alloc: Global,
    hall: &Hall<'_, K>,
    graph: &Graph,
    inputs: &Inputs,
) -> Result<Told, AllocError>
    requires graph { named hall.now.core ≡ graph.now }
    requires inputs { hall.now.core.inputs ≡ inputs.now }
    ensures { IfOk result (λ t. IsTold graph.now.graph inputs.now (reverse
        hall.now.journal.items) (told_of t)) }
{
    let core = hall.core();
    Ok(Told {
        statuses: statuses(alloc, core)?,
        labels: labels(alloc, core)?,
        carried: carried(alloc, core)?,
        unseen: unseen(alloc, core)?,
        complete: core.complete(),
    })
}
