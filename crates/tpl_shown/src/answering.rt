//! The page of a document's journal.

ghost use Rattle.std.specs.Prelude.{◌≡◌, ◌⊎◌, ◌+◌, ◌≤◌, Some, IfOk, IfSome, IsUtf8, string_bytes, All};
ghost use Rattle.tpl_audit.specs.Prelude.{AreTasksOf};
ghost use Rattle.tpl_commands.specs.Prelude.{IsAnswer, IsAuditOf, IsFindingOf, Responds, ended_of};
ghost use Rattle.tpl_graph.specs.Prelude.{Fits};
ghost use Rattle.tpl_journal.specs.Prelude.{IsJournal, IsJournalFault, calls_of};
ghost use Rattle.tpl_reader.specs.Prelude.{Spells, behind_mark, doc_of, inputs_of, longest};
ghost use Rattle.tpl_shown.specs.Prelude.{AuditShown, IsAuditPage, IsUnread, ShowsAudit};

use crate::found::{Recorded, found_text};
use crate::paging::document_page;
use std::alloc::{AllocError, Global};
use std::io::{Read, Write};
use tpl_audit::audit;
use tpl_commands::{
    Answer, Answered, Audit, Command, Exit, Finding, Found, Listen, audit_answer, ended_of,
    respond, unread,
};
use tpl_journal::{Counting, JournalFault, read_journal};
use tpl_model::{Event, Inputs};
use tpl_reader::{Document, read_document_heard};

/// The page of the document that these bytes spell, whose journal has these events.
fn page_of_events(
    alloc: Global,
    bytes: &[u8],
    document: &Document,
    inputs: &Inputs,
    events: &[Event],
) -> Result<Answer, AllocError>
    requires text { IsUtf8 (behind_mark bytes.now) }
    requires claims { All (Fits document.now.graph.graph) document.now.claims.items }
    requires tasks { AreTasksOf document.now.graph.graph (ended_of (doc_of document.now)) }
    requires inputs { inputs_of (doc_of document.now) ≡ Some inputs.now }
    requires journal { IsJournal document.now.graph (doc_of document.now).journal events.now }
    ensures { IfOk result (λ given. IsAuditPage bytes.now (doc_of document.now) given.exit
        (string_bytes given.text)) }
{
    let recorded = Recorded {
        graph: &document.graph,
        claims: document.claims.as_slice(),
        inputs,
        events,
        ended: ended_of(document),
    };
    let (graph, claims, ended) = (recorded.graph, recorded.claims, recorded.ended);
    let verdict = audit(alloc, graph, inputs.copy(), events, claims, ended);
    let found = found_text(alloc, &recorded, verdict)?;
    let lines = audit_answer(alloc, document, Audit::Judged(verdict))?;
    let text = document_page(alloc, bytes, lines.text.as_str(), "audit", found.as_str())?;
    let exit = lines.exit;
    Ok(Answer { exit, text })
}

/// The answer where there is nothing to show of the document's journal.
fn unshown(
    alloc: Global,
    bytes: &[u8],
    document: Document,
    audit: Audit,
) -> Result<Answered, AllocError>
    requires spelled { Spells bytes.now (doc_of document) }
    requires claims { All (Fits document.graph.graph) document.claims.items }
    requires audit { IsAuditOf (doc_of document) audit }
    requires unread { IsUnread audit }
    ensures answer { IfOk result (λ it.
        ShowsAudit bytes.now it.answer.exit (string_bytes it.answer.text)) }
    ensures found { IfOk result (λ it. IfSome it.finding (IsFindingOf bytes.now)) }
    ensures follows { IfOk result (λ it. IfSome it.finding (λ finding.
        IsAnswer finding it.answer.exit (string_bytes it.answer.text))) }
{
    let _ = bytes;
    let answer = audit_answer(alloc, &document, audit)?;
    let finding = Some(Finding::Read(document, Found::Audited(audit)));
    Ok(Answered { answer, finding })
}

/// The answer to a document with these inputs, whose journal can't be read for this reason.
fn answer_without(
    alloc: Global,
    bytes: &[u8],
    document: Document,
    inputs: Inputs,
    fault: JournalFault,
) -> Result<Answered, AllocError>
    requires spelled { Spells bytes.now (doc_of document) }
    requires claims { All (Fits document.graph.graph) document.claims.items }
    requires inputs { inputs_of (doc_of document) ≡ Some inputs }
    requires fault { IsJournalFault document.graph (doc_of document).journal fault }
    ensures answer { IfOk result (λ it.
        ShowsAudit bytes.now it.answer.exit (string_bytes it.answer.text)) }
    ensures found { IfOk result (λ it. IfSome it.finding (IsFindingOf bytes.now)) }
    ensures follows { IfOk result (λ it. IfSome it.finding (λ finding.
        IsAnswer finding it.answer.exit (string_bytes it.answer.text))) }
{
    let _ = inputs;
    match fault {
        JournalFault::Memory => Err(AllocError),
        JournalFault::Line(_) | JournalFault::Limit => {
            unshown(alloc, bytes, document, Audit::NoJournal(fault))
        }
    }
}

/// The answer to a document, whose graph has these inputs.
fn answer_with(
    alloc: Global,
    bytes: &[u8],
    document: Document,
    inputs: Inputs,
) -> Result<Answered, AllocError>
    requires spelled { Spells bytes.now (doc_of document) }
    requires claims { All (Fits document.graph.graph) document.claims.items }
    requires tasks { AreTasksOf document.graph.graph (ended_of (doc_of document)) }
    requires inputs { inputs_of (doc_of document) ≡ Some inputs }
    ensures answer { IfOk result (λ it.
        ShowsAudit bytes.now it.answer.exit (string_bytes it.answer.text)) }
    ensures found { IfOk result (λ it. IfSome it.finding (IsFindingOf bytes.now)) }
    ensures follows { IfOk result (λ it. IfSome it.finding (λ finding.
        IsAnswer finding it.answer.exit (string_bytes it.answer.text))) }
{
    match read_journal(alloc, &document.graph, document.journal.as_str()) {
        Ok(events) => {
            let answer = page_of_events(alloc, bytes, &document, &inputs, events.as_slice())?;
            let finding = None;
            Ok(Answered { answer, finding })
        }
        Err(fault) => answer_without(alloc, bytes, document, inputs, fault),
    }
}

/// The answer to a document.
fn answer_to(alloc: Global, bytes: &[u8], document: Document) -> Result<Answered, AllocError>
    requires spelled { Spells bytes.now (doc_of document) }
    requires claims { All (Fits document.graph.graph) document.claims.items }
    requires tasks { AreTasksOf document.graph.graph (ended_of (doc_of document)) }
    ensures answer { IfOk result (λ it.
        ShowsAudit bytes.now it.answer.exit (string_bytes it.answer.text)) }
    ensures found { IfOk result (λ it. IfSome it.finding (IsFindingOf bytes.now)) }
    ensures follows { IfOk result (λ it. IfSome it.finding (λ finding.
        IsAnswer finding it.answer.exit (string_bytes it.answer.text))) }
{
    match document.inputs() {
        Some(inputs) => answer_with(alloc, bytes, document, inputs),
        None => unshown(alloc, bytes, document, Audit::NoStart),
    }
}

/// Audits the journal of a document for the page, and asks the listener for words where there is no document.
#[derive(Clone, Copy, Drop)]
pub struct AuditPage<L> {
    /// Who is asked.
    pub listener: L,
}

impl<L: Listen> Command for AuditPage<L> {
    ghost answers = { λ _. ShowsAudit };

    fn answer(&self, alloc: Global, bytes: &[u8]) -> Result<Answered, AllocError> {
        match read_document_heard(alloc, bytes, self.listener) {
            Ok(document) => answer_to(alloc, bytes, document),
            Err(misread) => unread(alloc, bytes, misread),
        }
    }
}

/// Reads a document to its end, at most 16,777,216 bytes, and writes the audit of its journal as a page for a browser. Where
/// the document or its journal can't be read, it writes the line of the audit, with exit 3. The exit is always that of the
/// audit. The text is made whole before its first byte is written. A failed read ends the reading, and then nothing is
/// written; after a failed write no more is.
pub fn audit_page<L: Listen, I: Read, O: Write>(
    alloc: Global,
    listener: L,
    from: &mut Counting<I>,
    to: &mut Counting<O>,
) -> Exit
    ensures responds { Responds ShowsAudit I.remaining from.old from.new
        O.contents to.old to.new result }
    ensures reads { calls_of from.new ≤ calls_of from.old + (longest + 2) }

    // With success or failure the page of a document was written, with what the audit says of its journal.
    ensures shown { (result ≡ Exit.Success) ⊎ (result ≡ Exit.Failure)
        → AuditShown I.remaining from.old from.new O.contents to.old to.new result }
{
    respond(&AuditPage { listener }, alloc, listener, from, to)
}
