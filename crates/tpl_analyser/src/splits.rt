//! Sets of splits.

use crate::split::Split;
use crate::win::Wins;
use tpl_model::{MOST_INPUTS, MOST_TASKS, TaskSet};

/// A set of splits.
#[derive(Drop)]
pub(crate) struct Splits {
    inputs: [bool; MOST_INPUTS],
    tasks: TaskSet,
    wins: Wins,
    count: u32,
}

impl Splits {
    /// The empty set.
    pub(crate) fn none() -> Splits {
        Splits {
            inputs: [false; MOST_INPUTS],
            tasks: TaskSet::empty(),
            wins: Wins::none(),
            count: 0,
        }
    }

    /// A copy.
    pub(crate) fn copy(&self) -> Splits {
        Splits {
            inputs: self.inputs,
            tasks: self.tasks.copy(),
            wins: self.wins,
            count: self.count,
        }
    }

    /// How many splits are members.
    pub(crate) fn count(&self) -> u32 {
        self.count
    }

    /// One of the members is by an input.
    pub(crate) fn has_inputs(&self) -> bool {
        self.inputs.iter().any(|is_member| *is_member)
    }

    /// The split is a member.
    pub(crate) fn contains(&self, split: Split) -> bool {
        match split {
            Split::Input(input) => {
                let at = input.0 as usize;
                at < MOST_INPUTS && self.inputs[at]
            }
            Split::End(task) => self.tasks.contains(task),
            Split::Winner(win) => self.wins.contains(win),
        }
    }

    /// Makes the split a member.
    pub(crate) fn insert(&mut self, split: Split) {
        if !self.contains(split) {
            self.count = self.count.saturating_add(1);
        }
        match split {
            Split::Input(input) if (input.0 as usize) < MOST_INPUTS => {
                self.inputs[input.0 as usize] = true;
            }
            Split::End(task) if task.0 < MOST_TASKS => self.tasks.insert(task),
            Split::Winner(win) => self.wins.insert(win),
            _ => {}
        }
    }
}
