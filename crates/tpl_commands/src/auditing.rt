//! The audit of a document's journal.

ghost use Rattle.std.specs.Prelude.{◌≡◌, ◌++◌, Some, IfOk, string_bytes, All};
ghost use Rattle.tpl_audit.specs.Prelude.{AreTasksOf};
ghost use Rattle.tpl_commands.specs.Prelude.{IsAuditAnswer, IsAuditOf, IsAudited, IsNoJournalText, ended_of, run_exit, run_text, task_ended, verdict_exit, verdict_text};
ghost use Rattle.tpl_graph.specs.Prelude.{Fits};
ghost use Rattle.tpl_journal.specs.Lines.{task_name};
ghost use Rattle.tpl_model.specs.Prelude.{is_task};
ghost use Rattle.tpl_reader.specs.Prelude.{doc_of, inputs_of};

use crate::answer::Answer;
use crate::exit::Exit;
use crate::recorded::ended_of;
use crate::text::{
    ended, failing, not_allowed, task_ended, unreadable, unreadable_at, unreadable_start,
};
use std::alloc::{AllocError, Global};
use tpl_audit::{Failure, OtherEnd, Verdict, audit};
use tpl_graph::Graph;
use tpl_journal::{JournalFault, read_journal};
use tpl_model::Inputs;
use tpl_reader::Document;

/// What the audit says of a document's journal.
#[derive(Clone, Copy)]
pub enum Audit {
    /// The graph has inputs, and nothing says which values they have.
    NoStart,
    /// The journal's text is none of the graph's, for this reason, which isn't that memory ran out.
    NoJournal(JournalFault),
    /// The verdict on its events.
    Judged(Verdict),
}

/// Audits the journal of a document. Out of memory is the only error.
pub(crate) fn audit_document(alloc: Global, document: &Document) -> Result<Audit, AllocError>
    requires claims { All (Fits document.now.graph.graph) document.now.claims.items }
    requires tasks { AreTasksOf document.now.graph.graph (ended_of (doc_of document.now)) }
    ensures { IfOk result (IsAuditOf (doc_of document.now)) }
{
    match document.inputs() {
        Some(inputs) => audit_with(alloc, document, inputs),
        None => Ok(Audit::NoStart),
    }
}

/// The audit with these inputs.
fn audit_with(alloc: Global, document: &Document, inputs: Inputs) -> Result<Audit, AllocError>
    requires claims { All (Fits document.now.graph.graph) document.now.claims.items }
    requires tasks { AreTasksOf document.now.graph.graph (ended_of (doc_of document.now)) }
    requires inputs { inputs_of (doc_of document.now) ≡ Some inputs }
    ensures { IfOk result (IsAuditOf (doc_of document.now)) }
{
    match read_journal(alloc, &document.graph, document.journal.as_str()) {
        Ok(events) => Ok(Audit::Judged(audit(
            alloc,
            &document.graph,
            inputs,
            events.as_slice(),
            document.claims.as_slice(),
            ended_of(document),
        ))),
        Err(JournalFault::Memory) => Err(AllocError),
        Err(fault) => Ok(Audit::NoJournal(fault)),
    }
}

/// The answer where the audit says this of the document's journal. Out of memory has none.
pub fn audit_answer(alloc: Global, document: &Document, audit: Audit) -> Result<Answer, AllocError>
    requires { IsAuditOf (doc_of document.now) audit }
    ensures { IfOk result (λ given. IsAuditAnswer document.now.graph.names audit given.exit
        (string_bytes given.text)) }
{
    match audit {
        Audit::NoStart => Ok(Answer {
            exit: Exit::Unreadable,
            text: unreadable_start(alloc, "Missing")?,
        }),
        Audit::NoJournal(fault) => Ok(Answer {
            exit: Exit::Unreadable,
            text: no_journal_text(alloc, fault)?,
        }),
        Audit::Judged(verdict) => verdict_answer(alloc, document, verdict),
    }
}

/// The line for a text that is no journal. Out of memory has none.
fn no_journal_text(alloc: Global, fault: JournalFault) -> Result<String, AllocError>
    ensures { IfOk result (λ text. IsNoJournalText fault (string_bytes text)) }
{
    match fault {
        JournalFault::Line(number) => unreadable_at(alloc, "journal line", number),
        JournalFault::Limit => unreadable(alloc, "journal limit"),
        JournalFault::Memory => Err(AllocError),
    }
}

/// The answer for a verdict. Out of memory has none.
fn verdict_answer(
    alloc: Global,
    document: &Document,
    verdict: Verdict,
) -> Result<Answer, AllocError>
    requires { IsAudited (doc_of document.now) verdict }
    ensures exit { IfOk result (λ given. given.exit ≡ verdict_exit verdict) }
    ensures text { IfOk result (λ given. string_bytes given.text
        ≡ verdict_text document.now.graph.names verdict) }
{
    match verdict {
        Verdict::Run {
            complete,
            fails,
            other_end,
        } => match other_end {
            None => Ok(Answer {
                exit: run_exit(complete, fails),
                text: run_text(alloc, complete, fails)?,
            }),
            Some(other) => Ok(Answer {
                exit: Exit::Failure,
                text: other_end_text(alloc, &document.graph, complete, fails, other)?,
            }),
        },
        Verdict::NotAllowed { place } => Ok(Answer {
            exit: Exit::Failure,
            text: not_allowed(alloc, place)?,
        }),
        Verdict::Memory => Err(AllocError),
    }
}

/// How the program ends for a run whose tasks ended as the document says.
fn run_exit(complete: bool, fails: Option<Failure>) -> Exit
    ensures { result ≡ run_exit complete fails }
{
    if complete && fails.is_none() {
        Exit::Success
    } else {
        Exit::Failure
    }
}

/// The lines for a run. Out of memory has none.
fn run_text(alloc: Global, complete: bool, fails: Option<Failure>) -> Result<String, AllocError>
    ensures { IfOk result (λ text. string_bytes text ≡ run_text complete fails) }
{
    match fails {
        None => String::from_str(alloc, ended(complete)),
        Some(failure) => failing(alloc, complete, failure.claim, failure.place),
    }
}

/// The lines for a run, and the one for a task that has not ended as the document says. Out of memory has none.
fn other_end_text(
    alloc: Global,
    graph: &Graph,
    complete: bool,
    fails: Option<Failure>,
    other: OtherEnd,
) -> Result<String, AllocError>
    requires { is_task graph.now.graph other.task.0 }
    ensures { IfOk result (λ text. string_bytes text ≡ run_text complete fails
        ++ task_ended (task_name graph.now.names other.task) other.status) }
{
    let lines = run_text(alloc, complete, fails)?;
    task_ended(alloc, lines.as_str(), graph.name(other.task), other.status)
}
