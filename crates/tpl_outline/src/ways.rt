//! Which tasks may end in each way.

use crate::bits::Bits;
use tpl_checker::some_end;
use tpl_model::{Finals, SET_WORDS, TaskId};

/// The tasks that may end in each way: what many tasks have in common is read off in a few steps.
#[derive(Clone, Copy)]
pub(crate) struct Ways {
    ran: Bits,
    canceled: Bits,
    faulted: Bits,
}

impl Ways {
    /// No task may end.
    pub(crate) fn none() -> Ways {
        Ways {
            ran: Bits::none(),
            canceled: Bits::none(),
            faulted: Bits::none(),
        }
    }

    /// Sets how the task may end.
    pub(crate) fn set(&mut self, task: TaskId, ends: Finals) {
        self.ran.put(task, ends.ran);
        self.canceled.put(task, ends.canceled);
        self.faulted.put(task, ends.faulted);
    }

    /// How one of the tasks ends.
    pub(crate) fn of_one(&self, tasks: &Bits) -> Finals {
        let (mut ran, mut canceled, mut faulted) = (0u64, 0u64, 0u64);
        for at in 0..SET_WORDS {
            let tasks = tasks.words[at];
            ran |= tasks & self.ran.words[at];
            canceled |= tasks & self.canceled.words[at];
            faulted |= tasks & self.faulted.words[at];
        }
        Finals {
            ran: ran != 0,
            canceled: canceled != 0,
            faulted: faulted != 0,
        }
    }

    /// How a WhenAll task of these may end: Faulted if one of them is, else Canceled if one is, else
    /// RanToCompletion.
    pub(crate) fn of_all(&self, tasks: &Bits) -> Finals {
        let (mut canceled, mut faulted) = (0u64, 0u64);
        // those that can't run to completion, can only be faulted, and can't end at all
        let (mut failing, mut faulting, mut stuck) = (0u64, 0u64, 0u64);
        for at in 0..SET_WORDS {
            let tasks = tasks.words[at];
            let ran = self.ran.words[at];
            let no_fault = ran | self.canceled.words[at];
            let some = no_fault | self.faulted.words[at];
            canceled |= tasks & self.canceled.words[at];
            faulted |= tasks & self.faulted.words[at];
            failing |= tasks & !ran;
            faulting |= tasks & !no_fault;
            stuck |= tasks & !some;
        }
        Finals {
            ran: failing == 0,
            canceled: canceled != 0 && faulting == 0,
            faulted: faulted != 0 && stuck == 0,
        }
    }

    /// Those of the tasks that may end.
    pub(crate) fn ending(&self, tasks: &Bits) -> Bits {
        let mut ending = *tasks;
        for at in 0..SET_WORDS {
            ending.words[at] &= self.ran.words[at]
                | self.canceled.words[at]
                | self.faulted.words[at];
        }
        ending
    }

    /// A WhenAny task of these may end: one of them does.
    pub(crate) fn any_ends(&self, tasks: &Bits) -> bool {
        some_end(self.of_one(tasks))
    }
}
