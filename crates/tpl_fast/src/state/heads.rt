//! How many leading arguments and attached children of a task are known to have ended, so that none is looked at twice.

ghost use Rattle.std.specs.Prelude.{◌≡◌, ℕ, ◌≤◌, if◌then◌else◌, take, length, map, true, slice_index_or, option_map};
ghost use Rattle.tpl_draft.specs.Prelude.{args_of, task_number};
ghost use Rattle.tpl_fast.specs.Kept.{has_ended, is_over, all_pass};
ghost use Rattle.tpl_model.specs.Prelude.{IsParent, attached, ending, is_task, mem, some_ended};
ghost use Rattle.tpl_model.specs.Graph as spec;
ghost use Rattle.tpl_run.specs.Prelude.{is_it};

use crate::state::State;
use tpl_graph::{Graph, Kind};
use tpl_model::TaskId;
use tpl_run::ends::{all_ended, all_over, has_ended, is_open, some_ended};
use tpl_run::graphs::children;
use tpl_run::{Readers, Waits};

/// The task whose body starts this child, if it is one.
pub(crate) fn parent_of(graph: &Graph, child: Option<TaskId>) -> Option<TaskId>
    ensures { (p c : ℕ) → is_task graph.now.graph c → option_map task_number child ≡ Some c
        → IsParent graph.now.graph p c → option_map task_number result ≡ Some p }
{
    graph.valid_law();
    let child = child?;
    if (child.0 as usize) < graph.len() {
        graph.parent_of(child)
    } else {
        None
    }
}

/// A task that starts a child looks at its children again from the first.
pub(crate) fn restart(over: &mut Vec<usize>, task: Option<TaskId>)
    ensures count { length over.new.items ≡ length over.old.items }
    ensures each { (t : ℕ) → slice_index_or over.new.items t 0
        ≡ (if is_it (option_map task_number task) t then 0 else slice_index_or over.old.items t 0) }
{
    if let Some(task) = task
        && (task.0 as usize) < over.len()
    {
        over[task.0 as usize] = 0;
    }
}

impl<'g> State<'g> {
    /// How many leading arguments are known to have ended.
    fn args_head(&self, task: TaskId) -> usize
        requires { is_task self.now.graph task.0 }
        ensures within { result ≤ length (args_of (spec.kind self.now.graph task.0)) }
        ensures ended { all_pass (has_ended self.now) (take result
            (args_of (spec.kind self.now.graph task.0))) ≡ true }
    {
        self.ended[task.0 as usize]
    }

    /// How many leading attached children are known to have ended, or not to have been started.
    fn children_head(&self, task: TaskId) -> usize
        requires { is_task self.now.graph task.0 }
        ensures within { result ≤ length (attached self.now.graph task.0) }
        ensures over { all_pass (is_over self.now) (take result (attached self.now.graph task.0))
            ≡ true }
    {
        self.over[task.0 as usize]
    }

    /// Some argument of the task is known to have ended.
    fn has_found(&self, task: TaskId) -> bool
        requires { is_task self.now.graph task.0 }
        ensures { result ≡ true → some_ended (args_of (spec.kind self.now.graph task.0))
            (ending self.now.graph self.now.inputs self.now.events) ≡ true }
    {
        self.found[task.0 as usize]
    }

    /// The place of the first of the tasks, from this one on, that hasn't ended; else how many they are.
    fn first_unended(&self, tasks: &[TaskId], from: usize) -> usize
        requires { from ≤ length tasks.now }
        ensures within { result ≤ length tasks.now }
        ensures ended { all_pass (has_ended self.now) (map task_number (take from tasks.now)) ≡ true
            → all_pass (has_ended self.now) (map task_number (take result tasks.now)) ≡ true }
    {
        for i in from..tasks.len() {
            if !has_ended(self, tasks[i]) {
                return i;
            }
        }
        tasks.len()
    }

    /// The place of the first of the children, from this one on, that was started and hasn't ended; else how many they
    /// are.
    fn first_open(&self, children: &[TaskId], from: usize) -> usize
        requires within { from ≤ length children.now }
        requires tasks { (c : ℕ) → mem c (map task_number children.now) ≡ true
            → is_task self.now.graph c }
        ensures within { result ≤ length children.now }
        ensures over { all_pass (is_over self.now) (map task_number (take from children.now)) ≡ true
            → all_pass (is_over self.now) (map task_number (take result children.now)) ≡ true }
    {
        for i in from..children.len() {
            if is_open(self, children[i]) {
                return i;
            }
        }
        children.len()
    }

    /// Notes how many leading arguments of a task have ended.
    fn advance_args(&mut self, task: TaskId)
        requires { is_task self.old.graph task.0 }
        ensures { self.new ≡ self.old }
    {
        let head = self.first_unended(self.args(task), self.args_head(task));
        self.ended[task.0 as usize] = head;
    }

    /// Notes how many leading attached children of a task have ended, or weren't started.
    fn advance_children(&mut self, task: TaskId)
        requires { is_task self.old.graph task.0 }
        ensures { self.new ≡ self.old }
    {
        let head = self.first_open(children(self, task), self.children_head(task));
        self.over[task.0 as usize] = head;
    }

    /// Notes whether one of the arguments of a task has ended.
    fn find_arg(&mut self, task: TaskId)
        requires { is_task self.old.graph task.0 }
        ensures { self.new ≡ self.old }
    {
        let found = self.some_arg_ended(task);
        self.found[task.0 as usize] = found;
    }

    /// Notes how many of those that a task waits for have ended. Its children count from when its body is left, as it
    /// starts no more of them then.
    fn advance(&mut self, task: TaskId)
        ensures { self.new ≡ self.old }
    {
        if !self.has_task(task) {
            return;
        }
        match self.graph().kind(task) {
            Kind::All => self.advance_args(task),
            Kind::Any => self.find_arg(task),
            _ => {
                if self.left_body(task) {
                    self.advance_children(task);
                }
            }
        }
    }

    /// Notes for each of the tasks how many of those that it waits for have ended.
    pub fn advance_each(&mut self, tasks: &[TaskId])
        ensures { self.new ≡ self.old }
    {
        for task in tasks {
            self.advance(*task);
        }
    }
}

impl<'g> Waits for State<'g> {
    fn args_ended(&self, task: TaskId) -> bool {
        let args = self.args(task);
        let head = self.args_head(task);
        all_ended(self, &args[head..])
    }

    fn some_arg_ended(&self, task: TaskId) -> bool {
        self.has_found(task) || some_ended(self, self.args(task))
    }

    fn children_over(&self, task: TaskId) -> bool {
        let children = children(self, task);
        let head = self.children_head(task);
        all_over(self, &children[head..])
    }
}
