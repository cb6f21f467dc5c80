//! Which tasks an event of another task, or the request of a token, may concern.

ghost use Rattle.std.specs.Prelude.{◌≡◌, ℕ, ◌<◌, true, Some, OnOk, IfOk, length, map};
ghost use Rattle.tpl_draft.specs.Prelude.{antecedent_of, task_number};
ghost use Rattle.tpl_fast.specs.Due.{is_told, waits, AreTold, Keep};
ghost use Rattle.tpl_model.specs.Prelude.{is_task, kind, mem};
ghost use Rattle.tpl_model.specs.Graph as spec;

use std::alloc::{AllocError, Global};
use tpl_graph::Graph;
use tpl_model::{MOST_TOKENS, TaskId, TokenId};

/// For each task the tasks that wait for it, and for each token the tasks whose own it is.
#[derive(Drop)]
pub(crate) struct Links {
    waiters: Vec<Vec<TaskId>>,
    owners: Vec<Vec<TaskId>>,
}

/// This many empty lists.
fn empty(alloc: Global, count: usize) -> Result<Vec<Vec<TaskId>>, AllocError>
    ensures { IfOk result (λ lists. length lists.items ≡ count) }
{
    let mut lists = Vec::with_capacity(alloc, count)?;
    for _ in 0..count {
        lists.push_reserved(Vec::new(alloc));
    }
    Ok(lists)
}

/// Puts the task into a list, if there is one of this number.
fn tell(lists: &mut Vec<Vec<TaskId>>, at: usize, task: TaskId) -> Result<(), AllocError>
    ensures count { OnOk result (length lists.new.items ≡ length lists.old.items) }
    ensures told { OnOk result (at < length lists.old.items
        → is_told lists.new.items at task.0 ≡ true) }
    ensures kept { OnOk result (Keep lists.old.items lists.new.items) }
{
    if at < lists.len() {
        let list = &mut lists[at];
        list.push(task)?;
    }
    Ok(())
}

/// Puts the task into the list of each of the others.
fn tell_each(
    lists: &mut Vec<Vec<TaskId>>,
    others: &[TaskId],
    task: TaskId,
) -> Result<(), AllocError>
    ensures count { OnOk result (length lists.new.items ≡ length lists.old.items) }
    ensures told { OnOk result ((x : ℕ) → mem x (map task_number others.now) ≡ true
        → x < length lists.old.items → is_told lists.new.items x task.0 ≡ true) }
    ensures kept { OnOk result (Keep lists.old.items lists.new.items) }
{
    for other in others {
        tell(lists, other.0 as usize, task)?;
    }
    Ok(())
}

/// Puts a task into the list of the one that it continues.
fn tell_antecedent(
    lists: &mut Vec<Vec<TaskId>>,
    graph: &Graph,
    task: TaskId,
) -> Result<(), AllocError>
    requires { is_task graph.now.graph task.0 }
    ensures count { OnOk result (length lists.new.items ≡ length lists.old.items) }
    ensures told { OnOk result ((a : ℕ) → antecedent_of (kind graph.now.graph task.0) ≡ Some a
        → a < length lists.old.items → is_told lists.new.items a task.0 ≡ true) }
    ensures kept { OnOk result (Keep lists.old.items lists.new.items) }
{
    match graph.antecedent(task) {
        None => Ok(()),
        Some(antecedent) => tell(lists, antecedent.0 as usize, task),
    }
}

/// Puts a task into the list of each task that it waits for: its antecedent, its arguments and its attached children.
fn tell_task(lists: &mut Vec<Vec<TaskId>>, graph: &Graph, task: TaskId) -> Result<(), AllocError>
    requires { is_task graph.now.graph task.0 }
    ensures count { OnOk result (length lists.new.items ≡ length lists.old.items) }
    ensures told { OnOk result ((x : ℕ) → x < length lists.old.items
        → waits graph.now.graph task.0 x ≡ true → is_told lists.new.items x task.0 ≡ true) }
    ensures kept { OnOk result (Keep lists.old.items lists.new.items) }
{
    tell_antecedent(lists, graph, task)?;
    tell_each(lists, graph.args(task), task)?;
    tell_each(lists, graph.attached(task), task)?;
    Ok(())
}

/// For each task the tasks that wait for it.
fn waiters(alloc: Global, graph: &Graph) -> Result<Vec<Vec<TaskId>>, AllocError>
    ensures { IfOk result (λ lists. (t x : ℕ) → is_task graph.now.graph t
        → is_task graph.now.graph x → waits graph.now.graph t x ≡ true
        → is_told lists.items x t ≡ true) }
{
    let mut lists = empty(alloc, graph.len())?;
    for i in 0..graph.len() {
        tell_task(&mut lists, graph, TaskId(i as u16))?;
    }
    Ok(lists)
}

/// Puts a task into the list of its own token.
fn tell_owner(lists: &mut Vec<Vec<TaskId>>, graph: &Graph, task: TaskId) -> Result<(), AllocError>
    requires task { is_task graph.now.graph task.0 }
    requires count { length lists.old.items ≡ MOST_TOKENS }
    ensures count { OnOk result (length lists.new.items ≡ length lists.old.items) }
    ensures told { OnOk result ((k : ℕ) → (spec.task graph.now.graph task.0).token ≡ Some k
        → is_told lists.new.items k task.0 ≡ true) }
    ensures kept { OnOk result (Keep lists.old.items lists.new.items) }
{
    graph.valid_law();
    match graph.own_token(task) {
        None => Ok(()),
        Some(token) => tell(lists, token.0 as usize, task),
    }
}

/// For each token the tasks whose own it is.
fn owners(alloc: Global, graph: &Graph) -> Result<Vec<Vec<TaskId>>, AllocError>
    ensures { IfOk result (λ lists. (t k : ℕ) → is_task graph.now.graph t
        → (spec.task graph.now.graph t).token ≡ Some k → is_told lists.items k t ≡ true) }
{
    let mut lists = empty(alloc, MOST_TOKENS)?;
    for i in 0..graph.len() {
        tell_owner(&mut lists, graph, TaskId(i as u16))?;
    }
    Ok(lists)
}

/// The list of this number; nobody, where there is none.
fn list_at(lists: &Vec<Vec<TaskId>>, at: usize) -> &[TaskId]
    ensures { (t : ℕ) → mem t (map task_number result.now) ≡ is_told lists.now.items at t }
{
    match lists.get(at) {
        None => &[],
        Some(list) => list.as_slice(),
    }
}

impl Links {
    /// The links of a graph.
    pub fn new(alloc: Global, graph: &Graph) -> Result<Links, AllocError>
        ensures { IfOk result (λ l. AreTold graph.now.graph l.waiters.items l.owners.items) }
    {
        let waiters = waiters(alloc, graph)?;
        let owners = owners(alloc, graph)?;
        Ok(Links { waiters, owners })
    }

    /// The tasks that wait for a task.
    pub fn waiters(&self, task: TaskId) -> &[TaskId]
        ensures { (t : ℕ) → mem t (map task_number result.now)
            ≡ is_told self.now.waiters.items task.0 t }
    {
        list_at(&self.waiters, task.0 as usize)
    }

    /// The tasks whose own token this is.
    pub fn owners(&self, token: TokenId) -> &[TaskId]
        ensures { (t : ℕ) → mem t (map task_number result.now)
            ≡ is_told self.now.owners.items token.0 t }
    {
        list_at(&self.owners, token.0 as usize)
    }
}
