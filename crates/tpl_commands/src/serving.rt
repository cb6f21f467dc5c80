//! The commands that read one document and write one text.

ghost use Rattle.std.specs.Prelude.{◌≡◌, ◌⊎◌, ◌+◌, ◌≤◌, ℕ};
ghost use Rattle.tpl_commands.specs.Prelude.{Accepted, Audited, Certified, Found, Proved, Responds, Serves, answers_of};
ghost use Rattle.tpl_reader.specs.Prelude.{longest};
ghost use Rattle.tpl_journal.specs.Prelude.{calls_of};

use crate::ask::Ask;
use crate::exit::Exit;
use crate::finding::{answer_of, find};
use crate::listening::{Listen, Nobody};
use crate::responding::{Answered, Command, respond};
use std::alloc::{AllocError, Global};
use std::io::{Read, Write};
use tpl_analyser::Form;
use tpl_journal::Counting;

/// What is asked of a document, and who is told how far a search is.
#[derive(Drop)]
pub struct Asking<L> {
    /// What is asked.
    pub ask: Ask,
    /// Who is told.
    pub listener: L,
}

impl<L: Listen> Command for Asking<L> {
    ghost answers = { λ this. answers_of this.ask };

    fn answer(&self, alloc: Global, bytes: &[u8]) -> Result<Answered, AllocError> {
        let finding = find(alloc, self.ask, self.listener, bytes)?;
        let answer = answer_of(alloc, bytes, &finding)?;
        Ok(Answered {
            answer,
            finding: Some(finding),
        })
    }
}

/// Reads a document to its end, at most 16,777,216 bytes, and writes the answer. The text is made
/// whole before its first byte is written. A failed read ends the reading, and then nothing is
/// written; after a failed write no more is.
pub fn serve<R: Read, W: Write>(
    alloc: Global,
    ask: Ask,
    from: &mut Counting<R>,
    to: &mut Counting<W>,
) -> Exit
    ensures responds { Responds (answers_of ask) R.remaining from.old from.new
        W.contents to.old to.new result }
    ensures reads { calls_of from.new ≤ calls_of from.old + (longest + 2) }

    // From the check's success each claim is known to hold in every run, for all inputs and
    // whatever comes from outside; and so it is where a certificate is written.
    ensures proved { ask ≡ Ask.Check → result ≡ Exit.Success
        → Proved R.remaining from.old from.new W.contents to.old to.new }
    ensures accepted { ask ≡ Ask.Check → result ≡ Exit.Success
        → Accepted R.remaining from.old from.new W.contents to.old to.new }
    ensures found { (depth : ℕ) → ask ≡ Ask.Analyse depth → result ≡ Exit.Success
        → Found R.remaining from.old from.new W.contents to.old to.new depth Form.Full }
    ensures found_in { (depth : ℕ) → (form : Form) → ask ≡ Ask.AnalyseIn depth form
        → result ≡ Exit.Success
        → Found R.remaining from.old from.new W.contents to.old to.new depth form }
    ensures certified { (depth : ℕ) → (form : Form) → ask ≡ Ask.Certify depth form
        → result ≡ Exit.Success
        → Certified R.remaining from.old from.new W.contents to.old to.new depth form }

    // Where the audit answers and the document's certificate is accepted, no claim is named as failing.
    ensures audited { ask ≡ Ask.Audit → (result ≡ Exit.Success) ⊎ (result ≡ Exit.Failure)
        → Audited R.remaining from.old from.new W.contents to.old to.new result }
{
    serve_watched(alloc, ask, Nobody, from, to)
}

/// Answers a document as [`serve`] does. The listener is told how far a search for a certificate is, and what was found.
pub fn serve_watched<R: Read, W: Write, L: Listen>(
    alloc: Global,
    ask: Ask,
    listener: L,
    from: &mut Counting<R>,
    to: &mut Counting<W>,
) -> Exit
    ensures { Serves ask R.remaining from.old from.new W.contents to.old to.new result }
{
    respond(&Asking { ask, listener }, alloc, listener, from, to)
}
