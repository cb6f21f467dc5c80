//! Lists of tasks, each once, with the set of their members beside them.

ghost use Rattle.std.specs.Prelude.{◌≡◌, ℕ, ◌++◌, ◌<◌, [], ◌∷◌, map, true, vec_capacity, if◌then◌else◌};
ghost use Rattle.tpl_draft.specs.Prelude.{task_number};
ghost use Rattle.tpl_machine.specs.Prelude.{IsBeside};
ghost use Rattle.tpl_model.specs.Prelude.{joined, mem};

use tpl_model::{TaskId, TaskSet};

/// Adds the task behind the others, if it isn't in the list.
fn add(tasks: &mut Vec<TaskId>, members: &mut TaskSet, task: TaskId)
    requires members { IsBeside members.old tasks.old }
    requires below { task.0 < vec_capacity tasks.old }
    ensures items { let xs = map task_number tasks.old.items in
        map task_number tasks.new.items ≡ (if mem task.0 xs then xs else xs ++ task.0 ∷ []) }
    ensures members { IsBeside members.new tasks.new }
    ensures capacity { vec_capacity tasks.new ≡ vec_capacity tasks.old }
{
    if !members.contains(task) {
        members.insert(task);
        tasks.push_reserved(task);
    }
}

/// Adds those of the tasks that aren't in the list, in their order. The list has room for every task of the graph.
pub(crate) fn join(tasks: &mut Vec<TaskId>, members: &mut TaskSet, more: &[TaskId])
    requires members { IsBeside members.old tasks.old }
    requires below { (x : ℕ) → mem x (map task_number more.now) ≡ true
        → x < vec_capacity tasks.old }
    ensures items { map task_number tasks.new.items ≡ joined (map task_number tasks.old.items)
        (map task_number more.now) }
    ensures members { IsBeside members.new tasks.new }
    ensures capacity { vec_capacity tasks.new ≡ vec_capacity tasks.old }
{
    for task in more {
        add(tasks, members, *task);
    }
}
