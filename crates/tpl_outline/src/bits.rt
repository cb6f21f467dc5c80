//! Sets of tasks that serve a search alone.

use tpl_model::{MOST_TASKS, SET_WORDS, TaskId, WORD_BITS};

/// A set of tasks with ids below `MOST_TASKS`, a bit for each. It decides what a search finds, and
/// nothing that is promised of it: so no clause speaks of its members.
#[derive(Clone, Copy)]
pub(crate) struct Bits {
    pub(crate) words: [u64; SET_WORDS],
}

impl Bits {
    /// The set without members.
    pub(crate) fn none() -> Bits {
        Bits {
            words: [0; SET_WORDS],
        }
    }

    /// The set of all tasks.
    pub(crate) fn all() -> Bits {
        Bits {
            words: [u64::MAX; SET_WORDS],
        }
    }

    /// The task is a member. None from `MOST_TASKS` on is.
    pub(crate) fn has(&self, task: TaskId) -> bool {
        let at = task.0 as usize;
        at < MOST_TASKS as usize && (self.words[at / WORD_BITS] >> (at % WORD_BITS)) & 1 == 1
    }

    /// Makes the task a member, or no member.
    pub(crate) fn put(&mut self, task: TaskId, member: bool) {
        let at = task.0 as usize;
        if at < MOST_TASKS as usize {
            let bit = 1u64 << (at % WORD_BITS);
            let others = self.words[at / WORD_BITS] & !bit;
            self.words[at / WORD_BITS] = if member { others | bit } else { others };
        }
    }

    /// Makes the task a member.
    pub(crate) fn insert(&mut self, task: TaskId) {
        self.put(task, true);
    }

    /// Makes each of the tasks a member.
    pub(crate) fn insert_all(&mut self, tasks: &[TaskId]) {
        for task in tasks {
            self.insert(*task);
        }
    }

    /// Makes the members of the other set members of this one too.
    pub(crate) fn add(&mut self, other: &Bits) {
        for at in 0..SET_WORDS {
            self.words[at] |= other.words[at];
        }
    }

    /// The members that aren't in the other set.
    pub(crate) fn without(&self, other: &Bits) -> Bits {
        let mut left = *self;
        for at in 0..SET_WORDS {
            left.words[at] &= !other.words[at];
        }
        left
    }

    /// The two have a member in common.
    pub(crate) fn meets(&self, other: &Bits) -> bool {
        for at in 0..SET_WORDS {
            if self.words[at] & other.words[at] != 0 {
                return true;
            }
        }
        false
    }

    /// Each member is one of the other set.
    pub(crate) fn is_within(&self, other: &Bits) -> bool {
        for at in 0..SET_WORDS {
            if self.words[at] & !other.words[at] != 0 {
                return false;
            }
        }
        true
    }

    /// Takes the least member out, and returns it.
    pub(crate) fn pop_first(&mut self) -> Option<TaskId> {
        let at = self.words.iter().position(|word| *word != 0)?;
        let bit = self.words[at].trailing_zeros() as usize;
        self.words[at] &= !(1 << bit);
        Some(TaskId((WORD_BITS * at + bit) as u16))
    }
}
