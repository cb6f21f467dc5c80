//! Tasks that wait for each other.

use crate::misread::ask::{declared_name, list_in, place};
use crate::misread::form::Form;
use crate::misread::walk::{Area, Teller};
use std::alloc::AllocError;
use tpl_model::MOST_TASKS;

/// The most names of one task's list that are followed.
const MOST_FOLLOWED: usize = 16;

/// A task that was come to, by its number.
#[derive(Clone, Copy)]
struct Reached {
    task: usize,
    /// The place, among those that were come to, of the one that waits for it; none for the first.
    by: Option<usize>,
}

impl<'v, 't> Teller<'v, 't> {
    /// Comes to the tasks for which the one at this place waits. Says whether the task of the number `last` is among them.
    fn follow(
        self,
        reached: &mut Vec<Reached>,
        at: usize,
        waits: usize,
        last: usize,
    ) -> Result<bool, AllocError> {
        let names = self.texts(Area::Task(waits), Form::Argument)?;
        for name in names.iter().take(MOST_FOLLOWED) {
            let task = place(self.document, "tasks", name);
            if task == last {
                return Ok(true);
            }
            if !reached.iter().any(|before| before.task == task) {
                let by = Some(at);
                reached.push(Reached { task, by })?;
            }
        }
        Ok(false)
    }

    /// The name of the task of this number; empty where there is none.
    fn name_at(self, task: usize) -> &'v str {
        match list_in(self.document, "tasks").get(task) {
            Some(task) => declared_name(task),
            None => "",
        }
    }

    /// The names of a task and of those by which one came to the task at this place, that one being the last.
    fn names_to(
        self,
        reached: &[Reached],
        at: usize,
        first: usize,
    ) -> Result<Vec<&'v str>, AllocError> {
        let mut back = Vec::new(self.alloc);
        let mut next = Some(at);
        for _ in 0..reached.len() {
            let Some(now) = next.and_then(|at| reached.get(at)) else {
                break;
            };
            back.push(self.name_at(now.task))?;
            next = now.by;
        }
        back.push(self.name_at(first))?;
        back.reverse();
        Ok(back)
    }

    /// The names of tasks of which each waits for the next, and the last for the first: first the task of this number, then
    /// one for which it waits. Of a long list only the front is followed. None where no cycle is found.
    pub(crate) fn cycle(
        self,
        index: usize,
        second: usize,
    ) -> Result<Option<Vec<&'v str>>, AllocError> {
        let mut reached = Vec::new(self.alloc);
        let by = None;
        reached.push(Reached { task: second, by })?;
        for at in 0..usize::from(MOST_TASKS) {
            let Some(waits) = reached.get(at).map(|now| now.task) else {
                return Ok(None);
            };
            if self.follow(&mut reached, at, waits, index)? {
                return Ok(Some(self.names_to(reached.as_slice(), at, index)?));
            }
        }
        Ok(None)
    }
}
