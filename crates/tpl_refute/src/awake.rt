//! Who may act.

use crate::links::Links;
use crate::weights::Mover;
use std::alloc::{AllocError, Global};
use tpl_fast::Fast;
use tpl_graph::{Graph, Kind};
use tpl_machine::Core;
use tpl_model::{Act, MOST_TOKENS, Status, TaskId, TokenId};

/// How many of those that wait for a worker try to act once one has left a body.
const MOST_WOKEN: usize = 16;

/// A task that is ready or in its body acts as soon as a worker may.
fn wants_worker(core: &Fast<'_>, task: TaskId) -> bool {
    (task.0 as usize) < core.graph().len()
        && matches!(core.status(task), Status::WaitingToRun | Status::Running)
}

/// All that may act, and perhaps some that may not. Who was found to have nothing to do is added again when it may.
#[derive(Drop)]
pub(crate) struct Awake {
    movers: Vec<Mover>,
    /// Those that wait for a worker: to be free, or to go on with their body.
    held: Vec<TaskId>,
    /// How long the run was when all of these tried last.
    tried: Option<usize>,
    marks: Vec<bool>,
    asked: [bool; MOST_TOKENS],
}

impl Awake {
    /// Nobody, with memory for all.
    pub(crate) fn new(alloc: Global, graph: &Graph) -> Result<Awake, AllocError> {
        let marks = vec![in alloc; false; graph.len()]?;
        Ok(Awake {
            movers: Vec::with_capacity(alloc, graph.len() + MOST_TOKENS)?,
            held: Vec::new(alloc),
            tried: None,
            marks,
            asked: [false; MOST_TOKENS],
        })
    }

    pub(crate) fn movers(&self) -> &[Mover] {
        self.movers.as_slice()
    }

    /// Nobody is awake, and no token is known to be requested.
    fn clear(&mut self) {
        self.movers.clear();
        self.held.clear();
        self.tried = None;
        self.asked = [false; MOST_TOKENS];
        for mark in self.marks.iter_mut() {
            *mark = false;
        }
    }

    /// Lets a task try to act.
    fn wake(&mut self, task: TaskId) -> Result<(), AllocError> {
        let at = task.0 as usize;
        if at < self.marks.len() && !self.marks[at] {
            self.movers.push(Mover::Task(task))?;
            self.marks[at] = true;
        }
        Ok(())
    }

    fn wake_all(&mut self, tasks: &[TaskId]) -> Result<(), AllocError> {
        for task in tasks {
            self.wake(*task)?;
        }
        Ok(())
    }

    /// Who stands at the place may not act. A task that could, had it a worker, waits for one.
    pub(crate) fn sleep(&mut self, core: &Fast<'_>, at: usize) -> Result<(), AllocError> {
        if at >= self.movers.len() {
            return Ok(());
        }
        if let Mover::Task(task) = self.movers.swap_remove(at) {
            if let Some(mark) = self.marks.get_mut(task.0 as usize) {
                *mark = false;
            }
            if wants_worker(core, task) {
                self.held.push(task)?;
            }
        }
        Ok(())
    }

    /// A worker has left a body: some of those that wait for one try to act, the last ones first.
    fn wake_held(&mut self, most: usize) -> Result<(), AllocError> {
        for _ in 0..most {
            match self.held.pop() {
                Some(task) => self.wake(task)?,
                None => break,
            }
        }
        Ok(())
    }

    /// Where nobody is awake, all that wait for a worker try to act, once after each event. Says whether there are any.
    pub(crate) fn has_any(&mut self, core: &Fast<'_>) -> Result<bool, AllocError> {
        let length = Some(core.events().len());
        if self.movers.is_empty() && self.tried != length {
            let most = self.held.len();
            self.tried = length;
            self.wake_held(most)?;
        }
        Ok(!self.movers.is_empty())
    }

    /// A run begins: the roots, and who waits for a task that has ended already.
    pub(crate) fn begin(&mut self, core: &Fast<'_>, links: &Links) -> Result<(), AllocError> {
        self.clear();
        for number in 0..core.graph().len() {
            let task = TaskId(number as u16);
            if core.graph().kind(task) == Kind::Root {
                self.wake(task)?;
            }
            if core.ended(task).is_some() {
                self.wake_all(links.waiters(task))?;
            }
        }
        Ok(())
    }

    /// These tokens may be requested from outside.
    pub(crate) fn add_tokens(&mut self, tokens: &[bool; MOST_TOKENS]) -> Result<(), AllocError> {
        for (number, may_ask) in tokens.iter().enumerate() {
            if *may_ask {
                self.movers.push(Mover::Token(TokenId(number as u8)))?;
            }
        }
        Ok(())
    }

    /// A token was requested since this was last asked.
    fn is_asked_anew(&mut self, core: &Fast<'_>) -> bool {
        let mut anew = false;
        for number in 0..core.graph().token_count() {
            if !self.asked[number] && core.requested(TokenId(number as u8)) {
                self.asked[number] = true;
                anew = true;
            }
        }
        anew
    }

    /// All that haven't ended try to act.
    fn wake_open(&mut self, core: &Fast<'_>) -> Result<(), AllocError> {
        for number in 0..core.graph().len() {
            let task = TaskId(number as u16);
            if core.ended(task).is_none() {
                self.wake(task)?;
            }
        }
        Ok(())
    }

    /// The children that were started try to act.
    fn wake_children(&mut self, core: &Fast<'_>, children: &[TaskId]) -> Result<(), AllocError> {
        for child in children {
            if (child.0 as usize) < core.graph().len()
                && core.status(*child) == Status::WaitingToRun
            {
                self.wake(*child)?;
            }
        }
        Ok(())
    }

    /// Lets all try to act to whom the act may matter.
    pub(crate) fn tell(
        &mut self,
        core: &Fast<'_>,
        links: &Links,
        act: Act,
    ) -> Result<(), AllocError> {
        match act {
            Act::Request(_) => (),
            Act::Step(task) => self.wake_children(core, links.children(task))?,
            Act::Leave(task) => {
                self.wake_held(MOST_WOKEN)?;
                return self.wake_all(links.waiters(task));
            }
            Act::Close(task) | Act::Drop(task) | Act::Settle(task) => {
                return self.wake_all(links.waiters(task));
            }
            _ => return Ok(()),
        }
        if self.is_asked_anew(core) {
            self.wake_open(core)?;
        }
        Ok(())
    }
}
