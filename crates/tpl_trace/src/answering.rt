//! The trace of a document's journal.

ghost use Rattle.std.specs.Prelude.{◌≡◌, ◌+◌, ◌≤◌, Some, IfOk, IfSome, IsTrue, string_bytes, All};
ghost use Rattle.tpl_commands.specs.Prelude.{IsAnswer, IsFindingOf, Responds, is_verdict};
ghost use Rattle.tpl_graph.specs.Prelude.{Fits};
ghost use Rattle.tpl_journal.specs.Prelude.{calls_of};
ghost use Rattle.tpl_reader.specs.Prelude.{Spells, doc_of, inputs_of, longest};
ghost use Rattle.tpl_trace.specs.Prelude.{IsJournalOf, Traced, Traces, traced_exit};

use crate::text::trace_text;
use std::alloc::{AllocError, Global};
use std::io::{Read, Write};
use tpl_audit::{Verdict, audit};
use tpl_commands::{
    Answer, Answered, Audit, Command, Exit, Finding, Found, Listen, audit_answer, respond,
    times_of, unread,
};
use tpl_journal::{Counting, JournalFault, fault_is_no_journal, read_journal, text_is_unambiguous};
use tpl_model::{Event, Inputs};
use tpl_reader::{Document, one_document, read_document_heard};

/// The journal of a document.
#[derive(Drop)]
enum Journal {
    /// It is a run, of these events.
    Run(Vec<Event>),
    /// It is none, as the audit says.
    Other(Audit),
}

/// The document's journal with these inputs.
fn journal_with(alloc: Global, document: &Document, inputs: Inputs) -> Result<Journal, AllocError>
    requires { inputs_of (doc_of document.now) ≡ Some inputs }
    ensures { IfOk result (IsJournalOf (doc_of document.now)) }
{
    document.graph.valid_law();
    text_is_unambiguous();
    fault_is_no_journal();
    tpl_laws::prefix_is_run();
    match read_journal(alloc, &document.graph, document.journal.as_str()) {
        Ok(events) => match audit(alloc, &document.graph, inputs, events.as_slice(), &[], &[]) {
            Verdict::Run { .. } => Ok(Journal::Run(events)),
            Verdict::NotAllowed { place } => {
                Ok(Journal::Other(Audit::Judged(Verdict::NotAllowed { place })))
            }
            Verdict::Memory => Err(AllocError),
        },
        Err(JournalFault::Memory) => Err(AllocError),
        Err(fault) => Ok(Journal::Other(Audit::NoJournal(fault))),
    }
}

/// The document's journal.
fn journal_of(alloc: Global, document: &Document) -> Result<Journal, AllocError>
    ensures { IfOk result (IsJournalOf (doc_of document.now)) }
{
    match document.inputs() {
        Some(inputs) => journal_with(alloc, document, inputs),
        None => Ok(Journal::Other(Audit::NoStart)),
    }
}

/// How the program ends with the trace of these events. Where there is none, nothing was recorded, which is no success.
fn traced_exit(events: &[Event]) -> Exit
    ensures ends { result ≡ traced_exit events.now }
    ensures answered { IsTrue (is_verdict result) }
{
    match events {
        [] => Exit::Failure,
        [_, ..] => Exit::Success,
    }
}

/// The trace of the journal of the document that the bytes spell, where that is a run; else what the audit answers.
fn traced(alloc: Global, bytes: &[u8], document: Document) -> Result<Answered, AllocError>
    requires spelled { Spells bytes.now (doc_of document) }
    requires claims { All (Fits document.graph.graph) document.claims.items }
    ensures answer { IfOk result (λ it.
        Traces bytes.now it.answer.exit (string_bytes it.answer.text)) }
    ensures found { IfOk result (λ it. IfSome it.finding (IsFindingOf bytes.now)) }
    ensures follows { IfOk result (λ it. IfSome it.finding (λ finding.
        IsAnswer finding it.answer.exit (string_bytes it.answer.text))) }
{
    let _ = bytes;
    one_document();
    match journal_of(alloc, &document)? {
        Journal::Run(events) => {
            let list = events.as_slice();
            let exit = traced_exit(list);
            let times = times_of(&document);
            let text = trace_text(alloc, &document.graph, list, times)?;
            let answer = Answer { exit, text };
            let finding = None;
            Ok(Answered { answer, finding })
        }
        Journal::Other(audit) => {
            let answer = audit_answer(alloc, &document, audit)?;
            let finding = Some(Finding::Read(document, Found::Audited(audit)));
            Ok(Answered { answer, finding })
        }
    }
}

/// Traces the journal of a document, and asks the listener for words where there is none.
#[derive(Drop)]
struct Trace<L> {
    listener: L,
}

impl<L: Listen> Command for Trace<L> {
    ghost answers = { λ _. Traces };

    fn answer(&self, alloc: Global, bytes: &[u8]) -> Result<Answered, AllocError> {
        one_document();
        match read_document_heard(alloc, bytes, self.listener) {
            Ok(document) => traced(alloc, bytes, document),
            Err(misread) => unread(alloc, bytes, misread),
        }
    }
}

/// Reads a document to its end, at most 16,777,216 bytes, and writes the trace of its journal, where that is a run;
/// else what the audit of the document answers. A trace without an event is no success. The text is made whole before its first byte is written. A failed read
/// ends the reading, and then nothing is written; after a failed write no more is. Where the journal is no run, the
/// listener is told why.
pub fn trace_document<L: Listen, I: Read, O: Write>(
    alloc: Global,
    listener: L,
    from: &mut Counting<I>,
    to: &mut Counting<O>,
) -> Exit
    ensures responds { Responds Traces I.remaining from.old from.new
        O.contents to.old to.new result }
    ensures reads { calls_of from.new ≤ calls_of from.old + (longest + 2) }

    // From success on, what was read spells a document whose journal is a run with an event, and its trace was written.
    ensures traced { result ≡ Exit.Success
        → Traced I.remaining from.old from.new O.contents to.old to.new }
{
    respond(&Trace { listener }, alloc, listener, from, to)
}
