//! The rows of a leaf, and the tasks that a graph relates to one.

ghost use Rattle.std.specs.Prelude.{◌≡◌, ℕ, ◌<◌, ◌≤◌, ◌&&◌, ◌||◌, length, nat_eq, Bool, map, not};
ghost use Rattle.tpl_draft.specs.Prelude.{task_number};
ghost use Rattle.tpl_laws.specs.Prelude.{all_in, implies, some_end};
ghost use Rattle.tpl_model.specs.Prelude.{allows, has, may_end, mem, plain, row};

use tpl_model::{Final, Finals, MOST_TASKS, Options, TaskId, TaskSet};
use tpl_trees::{PlainRow, Row};

/// The row of a task.
pub(crate) fn row(rows: &[Row], task: TaskId) -> &PlainRow
    requires { task.0 < length (plain rows.now) }
    ensures { result.now ≡ row (plain rows.now) task.0 }
{
    rows[task.0 as usize].row()
}

/// What is settled when a task begins, by its row.
pub(crate) fn before_of(rows: &[Row], task: TaskId) -> &TaskSet
    requires { task.0 < length (plain rows.now) }
    ensures { result.now ≡ (row (plain rows.now) task.0).before }
{
    row(rows, task).before()
}

/// What is settled when it has ended, by its row.
pub(crate) fn past_of(rows: &[Row], task: TaskId) -> &TaskSet
    requires { task.0 < length (plain rows.now) }
    ensures { result.now ≡ (row (plain rows.now) task.0).past }
{
    row(rows, task).past()
}

/// The set of ways to end isn't empty.
pub fn some_end(finals: Finals) -> bool
    ensures { result ≡ some_end (has finals) }
{
    finals.ran || finals.canceled || finals.faulted
}

/// The task may end, by its row.
pub(crate) fn may_end(rows: &[Row], task: TaskId) -> bool
    requires { task.0 < length (plain rows.now) }
    ensures { result ≡ may_end (plain rows.now) task.0 }
{
    some_end(row(rows, task).ends())
}

/// Of these ways to end, those after which a continuation with the options runs.
pub fn allowed(finals: Finals, options: Options) -> Finals
    ensures { (f : Final) → has result f ≡ (has finals f && allows options f) }
{
    Finals {
        ran: finals.ran && options.allows(Final::RanToCompletion),
        canceled: finals.canceled && options.allows(Final::Canceled),
        faulted: finals.faulted && options.allows(Final::Faulted),
    }
}

/// Of these ways to end, those after which a continuation with the options doesn't run.
pub fn excluded(finals: Finals, options: Options) -> Finals
    ensures { (f : Final) → has result f ≡ (has finals f && not (allows options f)) }
{
    Finals {
        ran: finals.ran && !options.allows(Final::RanToCompletion),
        canceled: finals.canceled && !options.allows(Final::Canceled),
        faulted: finals.faulted && !options.allows(Final::Faulted),
    }
}

/// Where the first is true, so is the second.
pub fn implies(condition: bool, other: bool) -> bool
    ensures { result ≡ implies condition other }
{
    !condition || other
}

/// The task and what is past it.
pub(crate) fn settled_after(rows: &[Row], task: TaskId) -> TaskSet
    requires row { task.0 < length (plain rows.now) }
    requires limit { length (plain rows.now) ≤ MOST_TASKS }
    ensures { (x : ℕ) → mem x result ≡ (nat_eq x task.0 || mem x (row (plain rows.now)
        task.0).past) }
{
    let mut settled = past_of(rows, task).copy();
    settled.insert(task);
    settled
}

/// Each member of the set is one of those allowed.
pub(crate) fn within(set: &TaskSet, allowed: &TaskSet) -> bool
    ensures { (test : ℕ → Bool) → ((x : ℕ) → mem x allowed.now ≡ test x)
        → result ≡ all_in test set.now }
{
    set.is_subset(allowed)
}

/// The task is one of the list.
pub fn is_member(task: TaskId, tasks: &[TaskId]) -> bool
    ensures { result ≡ mem task.0 (map task_number tasks.now) }
{
    for other in tasks {
        if task.0 == other.0 {
            return true;
        }
    }
    false
}

/// The set, with the task if it is to be a member.
pub(crate) fn with_if(set: TaskSet, task: TaskId, member: bool) -> TaskSet
    requires { task.0 < MOST_TASKS }
    ensures { (x : ℕ) → mem x result ≡ (member && nat_eq x task.0 || mem x set) }
{
    let mut set = set;
    if member {
        set.insert(task);
    }
    set
}
