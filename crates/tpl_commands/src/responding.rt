//! A command, from a reader to a writer.

ghost use Rattle.std.specs.Prelude.{◌≡◌, ◌≢◌, ◌+◌, ◌≤◌, length, codes, IfOk, IfErr, IfSome, MatchResult, string_bytes};
ghost use Rattle.tpl_commands.specs.Prelude.{IsAnswer, IsFindingOf, NoAnswer, NoDocument, Puts, Reads, Responds};
ghost use Rattle.tpl_journal.specs.Prelude.{calls_of};
ghost use Rattle.tpl_reader.specs.Prelude.{IsFault, longest};

use crate::answer::{Answer, put, put_out_of_memory};
use crate::exit::Exit;
use crate::finding::Finding;
use crate::listening::Listen;
use crate::unreadable::unreadable_answer;
use std::alloc::{AllocError, Global};
use std::io::{Read, Write};
use tpl_journal::{Counting, InputFault, read_limited};
use tpl_reader::{LONGEST, Misread, ReadFault};

/// The answer to a document, and what it follows from.
#[derive(Drop)]
pub struct Answered {
    /// What is written, and how the program ends then.
    pub answer: Answer,
    /// What was found; none, where the answer says all.
    pub finding: Option<Finding>,
}

/// What is to be done with a document.
pub trait Command {
    ghost use Rattle.std.specs.Prelude.{ℕ, List, IfOk, IfSome, string_bytes};
    ghost use Rattle.tpl_commands.specs.declared.exit.Exit.{Exit};
    ghost use Rattle.tpl_commands.specs.Finding.{IsAnswer, IsFindingOf};

    // The exit and the text for a document of these bytes.
    ghost answers: { Self → List ℕ → Exit → List ℕ → Type 0 };

    /// Answers a document of these bytes; out of memory is the only error.
    fn answer(&self, alloc: Global, bytes: &[u8]) -> Result<Answered, AllocError>
        ensures answer { IfOk result (λ it.
            answers self.now bytes.now it.answer.exit (string_bytes it.answer.text)) }
        ensures found { IfOk result (λ it. IfSome it.finding (IsFindingOf bytes.now)) }
        ensures follows { IfOk result (λ it. IfSome it.finding (λ finding.
            IsAnswer finding it.answer.exit (string_bytes it.answer.text))) };
}

/// Reads a document whole. Where that fails, the line for it is written and its exit returned.
pub fn read_input<R: Read, W: Write>(
    alloc: Global,
    from: &mut Counting<R>,
    to: &mut Counting<W>,
) -> Result<Vec<u8>, Exit>
    ensures ok { IfOk result (λ bytes. Reads R.remaining from.old from.new bytes.items
        × (length bytes.items ≤ longest) × (to.new ≡ to.old)) }
    ensures err { IfErr result
        (Responds NoAnswer R.remaining from.old from.new W.contents to.old to.new) }
    ensures reads { calls_of from.new ≤ calls_of from.old + (longest + 2) }
{
    match read_limited(alloc, LONGEST, from) {
        Ok(bytes) => Ok(bytes),
        Err(InputFault::TooLong) => Err(put(Exit::Unreadable, b"unreadable: too long\n", to)),
        Err(InputFault::Memory) => Err(put_out_of_memory(to)),
        Err(InputFault::Device) => Err(Exit::Device),
    }
}

/// Tells the listener what was found, where the answer was written.
fn tell<L: Listen>(listener: L, exit: Exit, bytes: &[u8], finding: Option<Finding>)
    requires { IfSome finding (IsFindingOf bytes.now) }
{
    let Some(finding) = finding else {
        return;
    };
    match exit {
        Exit::Success | Exit::Failure | Exit::Unreadable => listener.answered(bytes, &finding),
        Exit::Usage | Exit::Memory | Exit::Device | Exit::Fault => {}
    }
}

/// Writes the answer to these bytes, or the line `out of memory`, and tells the listener what the answer follows from.
pub fn put_answered<L: Listen, W: Write>(
    answered: Result<Answered, AllocError>,
    listener: L,
    bytes: &[u8],
    to: &mut Counting<W>,
) -> Exit
    requires { IfOk answered (λ it. IfSome it.finding (IsFindingOf bytes.now)) }
    ensures { MatchResult answered
        (λ it. Puts W.contents to.old to.new it.answer.exit (string_bytes it.answer.text) result)
        (λ _. Puts W.contents to.old to.new Exit.Memory (codes "out of memory\n") result) }
{
    listener.found();
    match answered {
        Ok(Answered { answer, finding }) => {
            let exit = put(answer.exit, answer.text.as_bytes(), to);
            tell(listener, exit, bytes, finding);
            exit
        }
        Err(_) => put_out_of_memory(to),
    }
}

/// The answer to bytes that spell no document, for this reason. Out of memory is the only error.
pub fn unread(alloc: Global, bytes: &[u8], misread: Misread) -> Result<Answered, AllocError>
    requires { IsFault bytes.now misread.fault }
    ensures answer { IfOk result (λ it.
        NoDocument bytes.now it.answer.exit (string_bytes it.answer.text)) }
    ensures found { IfOk result (λ it. IfSome it.finding (IsFindingOf bytes.now)) }
    ensures follows { IfOk result (λ it. IfSome it.finding (λ finding.
        IsAnswer finding it.answer.exit (string_bytes it.answer.text))) }
    ensures reason { IfOk result (λ _. misread.fault ≢ ReadFault.Memory) }
{
    let _ = bytes;
    if misread.fault == ReadFault::Memory {
        return Err(AllocError);
    }
    Ok(Answered {
        answer: unreadable_answer(alloc, misread.fault)?,
        finding: Some(Finding::Unread(misread)),
    })
}

/// Reads a document whole and writes the command's answer to it. The answer is made whole before
/// its first byte is written, so the line `out of memory` stands alone. The listener is told what
/// was found.
pub fn respond<C: Command, L: Listen, R: Read, W: Write>(
    command: &C,
    alloc: Global,
    listener: L,
    from: &mut Counting<R>,
    to: &mut Counting<W>,
) -> Exit
    ensures responds { Responds (C.answers command.now) R.remaining from.old from.new
        W.contents to.old to.new result }
    ensures reads { calls_of from.new ≤ calls_of from.old + (longest + 2) }
{
    match read_input(alloc, from, to) {
        Ok(bytes) => put_answered(command.answer(alloc, &bytes), listener, &bytes, to),
        Err(exit) => {
            listener.unread(exit);
            exit
        }
    }
}
