//! A line beside its answer.

ghost use Rattle.std.specs.Prelude.{◌≡◌};
ghost use Rattle.tpl_each.specs.Prelude.{is_yes, said_of};

use crate::line::Line;
use arrayvec::ArrayVec;
use std::alloc::Global;
use std::default::MadeWith;
use tpl_commands::{Answer, Exit};

/// How many lines are answered beside each other, at most.
pub const MOST_JOBS: usize = 64;

/// A line beside its answer.
#[derive(Drop)]
pub(crate) struct Slot {
    /// The line.
    pub(crate) line: Line,
    /// The answer; none before it is made, and where memory was refused.
    pub(crate) answer: Option<Answer>,
}

/// How many lines are kept at once, at most.
pub(crate) const MOST_LINES: usize = 128;

/// The lines that are answered together.
pub(crate) type Slots = ArrayVec<Slot, MOST_LINES, Global>;

impl Slot {
    /// The line without an answer.
    pub(crate) fn new(line: Line) -> Slot
        ensures { result.line ≡ line }
    {
        Slot { line, answer: None }
    }

    /// How the command would end with the answer.
    pub(crate) fn exit(&self) -> Exit
        ensures { result ≡ (said_of self.now).exit }
    {
        match &self.answer {
            Some(answer) => answer.exit,
            None => Exit::Memory,
        }
    }

    /// The answer is yes.
    pub(crate) fn is_yes(&self) -> bool
        ensures { result ≡ is_yes (said_of self.now).exit }
    {
        self.exit().code() == 0
    }

    /// The text of the answer.
    pub(crate) fn text(&self) -> &[u8]
        ensures { result.now ≡ (said_of self.now).text }
    {
        match &self.answer {
            Some(answer) => answer.text.as_bytes(),
            None => b"out of memory\n",
        }
    }
}

impl MadeWith<Global> for Slot {
    fn made_with(alloc: Global) -> Slot {
        Slot::new(Line::new(alloc))
    }
}
