//! Sets of tasks from which a task can be taken out again.

ghost use Rattle.std.specs.Prelude.{◌≡◌, ℕ, ◌<◌, true, false, IfSome, IfNone, nat_eq, if◌then◌else◌};
ghost use Rattle.tpl_model.specs.Prelude.{is_set};

use std::marker::Model;
use tpl_model::{MOST_TASKS, SET_WORDS, TaskId, WORD_BITS};

/// A set of tasks with ids below `MOST_TASKS`, a bit for each. Contracts see the words.
#[derive(Drop)]
pub(crate) struct Bits {
    words: [u64; SET_WORDS],
}

impl Model for Bits {
    ghost use Rattle.std.specs.Prelude.{ℕ, List};

    ghost Value = { List ℕ };

    ghost view = { λ s. s.words };
}

impl Bits {
    /// The set without members.
    pub fn none() -> Bits
        ensures { (x : ℕ) → is_set result x ≡ false }
    {
        Bits {
            words: [0; SET_WORDS],
        }
    }

    /// The task is a member.
    pub fn has(&self, task: TaskId) -> bool
        requires { task.0 < MOST_TASKS }
        ensures { result ≡ is_set self.now task.0 }
    {
        let at = task.0 as usize;
        (self.words[at / WORD_BITS] >> (at % WORD_BITS)) & 1 == 1
    }

    fn insert(&mut self, task: TaskId)
        requires { task.0 < MOST_TASKS }
        ensures { (x : ℕ) → is_set self.new x ≡ (if nat_eq x task.0 then true
            else is_set self.old x) }
    {
        let at = task.0 as usize;
        self.words[at / WORD_BITS] |= 1 << (at % WORD_BITS);
    }

    fn remove(&mut self, task: TaskId)
        requires { task.0 < MOST_TASKS }
        ensures { (x : ℕ) → is_set self.new x ≡ (if nat_eq x task.0 then false
            else is_set self.old x) }
    {
        let at = task.0 as usize;
        self.words[at / WORD_BITS] &= !(1 << (at % WORD_BITS));
    }

    /// Makes the task a member, or no member.
    pub fn put(&mut self, task: TaskId, member: bool)
        requires { task.0 < MOST_TASKS }
        ensures { (x : ℕ) → is_set self.new x ≡ (if nat_eq x task.0 then member
            else is_set self.old x) }
    {
        if member {
            self.insert(task);
        } else {
            self.remove(task);
        }
    }

    /// The least member.
    pub fn first(&self) -> Option<TaskId>
        ensures some { IfSome result (λ t. (is_set self.now t.0 ≡ true)
            × ((s : ℕ) → s < t.0 → is_set self.now s ≡ false)) }
        ensures none { IfNone result ((s : ℕ) → is_set self.now s ≡ false) }
    {
        for i in 0..SET_WORDS {
            let word = self.words[i];
            if word != 0 {
                let bit = word.trailing_zeros() as usize;
                return Some(TaskId((WORD_BITS * i + bit) as u16));
            }
        }
        None
    }
}
