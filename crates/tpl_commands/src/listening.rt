//! Who is told what was found.

use crate::exit::Exit;
use crate::finding::Finding;
use tpl_analyser::Watch;
use tpl_reader::Hear;

/// Who is told what was found for a document. No answer depends on it.
pub trait Listen: Watch + Hear + Copy {
    ghost use Rattle.tpl_commands.specs.Finding.{IsFindingOf};

    /// The answer is known, and nothing of it is written yet.
    fn found(self);

    /// The answer to these bytes was written. This was found for them.
    fn answered(self, bytes: &[u8], finding: &Finding)
        requires { IsFindingOf bytes.now finding.now };

    /// The document wasn't read whole, and the program ends so.
    fn unread(self, exit: Exit);

    /// A line that a command has for people, beside its answer.
    fn tells(self, line: &str);
}

/// Who is told nothing.
#[derive(Clone, Copy, Drop)]
pub struct Nobody;

impl Watch for Nobody {
    fn tries(&mut self, _claim: usize, _leaves: u32) {}
}

impl Hear for Nobody {}

impl Listen for Nobody {
    fn found(self) {}

    fn answered(self, _bytes: &[u8], _finding: &Finding) {}

    fn unread(self, _exit: Exit) {}

    fn tells(self, _line: &str) {}
}
