//! A whole text, and writing it.

ghost use Rattle.std.specs.Prelude.{◌≢◌, MatchResult, IsTrue, codes, string_bytes};
ghost use Rattle.tpl_commands.specs.Exit.{is_verdict};
ghost use Rattle.tpl_commands.specs.Responding.{Puts};

use crate::exit::Exit;
use std::alloc::AllocError;
use std::io::Write;
use tpl_journal::{Counting, write_whole};

/// The whole text that answers a document, and how the program ends once it is written.
#[derive(Debug, Drop)]
pub struct Answer {
    /// The end: the document was read and answered, or it can't be read.
    pub exit: Exit,
    /// The text, with its line breaks.
    pub text: String,
    ghost verdict: { IsTrue (is_verdict exit) },
}

/// Writes the text. The program then ends with this exit, or with that of a failed write.
pub fn put<W: Write>(exit: Exit, text: &[u8], to: &mut Counting<W>) -> Exit
    requires { exit ≢ Exit.Device }
    ensures { Puts W.contents to.old to.new exit text.now result }
{
    match write_whole(text, to) {
        Ok(()) => exit,
        Err(_) => Exit::Device,
    }
}

/// Writes the line `out of memory`.
pub fn put_out_of_memory<W: Write>(to: &mut Counting<W>) -> Exit
    ensures { Puts W.contents to.old to.new Exit.Memory (codes "out of memory\n") result }
{
    put(Exit::Memory, b"out of memory\n", to)
}

/// Writes the answer whole, or the line `out of memory`.
pub fn put_answer<W: Write>(answer: Result<Answer, AllocError>, to: &mut Counting<W>) -> Exit
    ensures { MatchResult answer
        (λ given. Puts W.contents to.old to.new given.exit (string_bytes given.text) result)
        (λ _. Puts W.contents to.old to.new Exit.Memory (codes "out of memory\n") result) }
{
    match answer {
        Ok(answer) => put(answer.exit, answer.text.as_bytes(), to),
        Err(_) => put_out_of_memory(to),
    }
}
