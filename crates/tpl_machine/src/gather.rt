//! The exceptions that a task takes over from others.

ghost use Rattle.std.specs.Prelude.{◌≡◌, ℕ, ◌<◌, ◌≤◌, ◌||◌, true, map, Some, vec_capacity, if◌then◌else◌};
ghost use Rattle.tpl_draft.specs.Prelude.{task_number};
ghost use Rattle.tpl_machine.specs.Prelude.{IsBeside};
ghost use Rattle.tpl_model.specs.Prelude.{carried_in, gathered, joined, mem, those_started};
ghost use Rattle.tpl_run.specs.Prelude.{AreAtoms, HaveRoom, ending_in};

use crate::atoms::join;
use tpl_model::{MOST_TASKS, TaskId, TaskSet};
use tpl_run::row::Row;

/// Adds what one task carries.
fn gather_one(list: &mut Vec<TaskId>, members: &mut TaskSet, rows: &[Row], task: TaskId)
    requires rooms { HaveRoom rows.now (vec_capacity list.old) }
    requires members { IsBeside members.old list.old }
    ensures items { map task_number list.new.items ≡ joined (map task_number list.old.items)
        (carried_in (ending_in rows.now task.0)) }
    ensures members { IsBeside members.new list.new }
    ensures capacity { vec_capacity list.new ≡ vec_capacity list.old }
{
    if let Some(row) = rows.get(task.0 as usize) {
        join(list, members, row.carried());
    }
}

/// Adds what each of the tasks carries, in their order.
pub fn gather(list: &mut Vec<TaskId>, rows: &[Row], tasks: &[TaskId])
    requires rooms { HaveRoom rows.now (vec_capacity list.old) }
    requires atoms { AreAtoms (vec_capacity list.old) (map task_number list.old.items) }
    requires limit { vec_capacity list.old ≤ MOST_TASKS }
    ensures items { map task_number list.new.items ≡ gathered (map task_number list.old.items)
        (map task_number tasks.now) (ending_in rows.now) }
    ensures atoms { AreAtoms (vec_capacity list.old) (map task_number list.new.items) }
    ensures capacity { vec_capacity list.new ≡ vec_capacity list.old }
{
    let mut members = members_of(list.as_slice());
    for task in tasks {
        gather_one(list, &mut members, rows, *task);
    }
}

/// Adds what one child carries, if it was started.
fn gather_child(
    list: &mut Vec<TaskId>,
    members: &mut TaskSet,
    rows: &[Row],
    started: &TaskSet,
    child: TaskId,
)
    requires rooms { HaveRoom rows.now (vec_capacity list.old) }
    requires members { IsBeside members.old list.old }
    ensures items { let xs = map task_number list.old.items in
        map task_number list.new.items ≡ (if mem child.0 started.now
        then joined xs (carried_in (ending_in rows.now child.0)) else xs) }
    ensures members { IsBeside members.new list.new }
    ensures capacity { vec_capacity list.new ≡ vec_capacity list.old }
{
    if started.contains(child) {
        gather_one(list, members, rows, child);
    }
}

/// Adds what each of the children that were started carries, in their order.
pub fn gather_started(list: &mut Vec<TaskId>, rows: &[Row], started: &TaskSet, children: &[TaskId])
    requires rooms { HaveRoom rows.now (vec_capacity list.old) }
    requires atoms { AreAtoms (vec_capacity list.old) (map task_number list.old.items) }
    requires limit { vec_capacity list.old ≤ MOST_TASKS }
    ensures items { map task_number list.new.items ≡ gathered (map task_number list.old.items)
        (those_started (map task_number children.now) (λ c. mem c started.now))
        (ending_in rows.now) }
    ensures atoms { AreAtoms (vec_capacity list.old) (map task_number list.new.items) }
    ensures capacity { vec_capacity list.new ≡ vec_capacity list.old }
{
    let mut members = members_of(list.as_slice());
    for child in children {
        gather_child(list, &mut members, rows, started, *child);
    }
}

/// The set of these tasks.
fn members_of(tasks: &[TaskId]) -> TaskSet
    requires { (x : ℕ) → mem x (map task_number tasks.now) ≡ true → x < MOST_TASKS }
    ensures { (x : ℕ) → mem x result ≡ mem x (map task_number tasks.now) }
{
    let mut members = TaskSet::empty();
    add_all(&mut members, tasks);
    members
}

/// Makes each of the tasks a member.
pub fn add_all(set: &mut TaskSet, tasks: &[TaskId])
    requires { (x : ℕ) → mem x (map task_number tasks.now) ≡ true → x < MOST_TASKS }
    ensures { (x : ℕ) → mem x set.new ≡ (mem x (map task_number tasks.now) || mem x set.old) }
{
    for task in tasks {
        set.insert(*task);
    }
}
