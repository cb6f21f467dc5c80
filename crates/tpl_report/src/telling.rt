//! How a run is told: by its report, or by the document with the run in it.

ghost use Rattle.std.specs.Prelude.{◌≡◌, Some, IfOk, string_bytes, All};
ghost use Rattle.tpl_commands.specs.Prelude.{Puts};
ghost use Rattle.tpl_journal.specs.Prelude.{CanSpell, IsReportOf, ReportText, said};
ghost use Rattle.tpl_reader.specs.Prelude.{Spells, doc_of, inputs_of};
ghost use Rattle.tpl_report.specs.Prelude.{IsReport, IsToldOf, PutsTelling, report_exit, told, with_events};
ghost use Rattle.tpl_verify.specs.Prelude.{IsTextOf};

use std::alloc::{AllocError, Global};
use std::io::Write;
use tpl_commands::{Exit, put, put_out_of_memory};
use tpl_graph::Graph;
use tpl_journal::{Counting, Report as Told, write_report};
use tpl_model::{Event, Inputs};
use tpl_reader::{Document, LONGEST, one_document};
use tpl_runtime::Report;
use tpl_verify::{journal_text, text_with};

/// How a run is told.
#[derive(Clone, Copy)]
pub enum Telling<'a> {
    /// By its report.
    Report,
    /// By the document that these bytes spell, with the inputs and the journal of the run in place of its own, and without
    /// what was seen of another run (`ended`, `times`), as one line of JSON. Where that would be longer than what is read,
    /// the line `too long` stands in its place.
    Whole(&'a [u8]),
}

/// The values of a session's report that are written.
fn told<'a, K: Drop, W: Drop>(report: &'a Report<K, W>) -> Told<'a>
    ensures { said result ≡ told report.now }
{
    Told {
        complete: report.complete,
        statuses: report.statuses.as_slice(),
        labels: report.labels.as_slice(),
        carried: report.carried.as_slice(),
        unseen: report.unseen.as_slice(),
        called: report.receipts.len(),
        returned: report.items.len(),
        journal: report.journal.as_slice(),
    }
}

/// Success, where the run is complete.
fn report_exit(complete: bool) -> Exit
    ensures { result ≡ report_exit complete }
{
    if complete {
        Exit::Success
    } else {
        Exit::Failure
    }
}

/// Writes the text of a report.
fn put_report<O: Write, K: Drop, W: Drop>(
    graph: &Graph,
    report: &Report<K, W>,
    to: &mut Counting<O>,
) -> Exit
    requires { IsReportOf graph.now (told report.now) }
    ensures { Puts O.contents to.old to.new (report_exit report.now.complete)
        (ReportText graph.now (told report.now)) result }
{
    match write_report(graph, &told(report), to) {
        Ok(()) => report_exit(report.complete),
        Err(_) => Exit::Device,
    }
}

/// The text of a document with a run.
fn document_text(
    alloc: Global,
    bytes: &[u8],
    document: &Document,
    inputs: &Inputs,
    events: &[Event],
) -> Result<String, AllocError>
    requires spelled { Spells bytes.now (doc_of document.now) }
    requires inputs { inputs_of (doc_of document.now) ≡ Some inputs.now }
    requires events { All (CanSpell document.now.graph.graph) events.now }
    ensures { IfOk result (λ text. IsTextOf (string_bytes text)
        (with_events (doc_of document.now) inputs.now events.now)) }
{
    document.graph.valid_law();
    let journal = journal_text(alloc, &document.graph, events)?;
    text_with(alloc, bytes, document, inputs, journal)
}

/// Writes the document with the run that is reported.
fn put_document<O: Write, K: Drop, W: Drop>(
    alloc: Global,
    bytes: &[u8],
    document: &Document,
    inputs: &Inputs,
    report: &Report<K, W>,
    to: &mut Counting<O>,
) -> Exit
    requires spelled { Spells bytes.now (doc_of document.now) }
    requires inputs { inputs_of (doc_of document.now) ≡ Some inputs.now }
    requires report { IsReport document.now.graph inputs.now (told report.now) }
    requires events { All (CanSpell document.now.graph.graph) report.now.journal.items }
    ensures { PutsTelling (Telling.Whole bytes.entry) (doc_of document.now) inputs.now (told report.now)
        O.contents to.old to.new result }
{
    one_document();
    tpl_laws::is_bounded();
    let Ok(text) = document_text(alloc, bytes, document, inputs, report.journal.as_slice()) else {
        return put_out_of_memory(to);
    };
    if text.len() > LONGEST {
        return put(Exit::Failure, b"too long\n", to);
    }
    put(report_exit(report.complete), text.as_bytes(), to)
}

/// Writes what tells the run that is reported.
pub(crate) fn put_told<O: Write, K: Drop, W: Drop>(
    alloc: Global,
    telling: Telling<'_>,
    document: &Document,
    inputs: &Inputs,
    report: &Report<K, W>,
    to: &mut Counting<O>,
) -> Exit
    requires told { IsToldOf telling (doc_of document.now) }
    requires inputs { inputs_of (doc_of document.now) ≡ Some inputs.now }
    requires report { IsReport document.now.graph inputs.now (told report.now) }
    requires events { All (CanSpell document.now.graph.graph) report.now.journal.items }
    ensures { PutsTelling telling.entry (doc_of document.now) inputs.now (told report.now)
        O.contents to.old to.new result }
{
    match telling {
        Telling::Report => put_report(&document.graph, report, to),
        Telling::Whole(bytes) => put_document(alloc, bytes, document, inputs, report, to),
    }
}
