//! The picture of a document's graph.

ghost use Rattle.std.specs.Prelude.{◌≡◌, Some, IfOk, reverse, string_bytes, All};
ghost use Rattle.tpl_audit.specs.Prelude.{FirstFails};
ghost use Rattle.tpl_commands.specs.Prelude.{AreEndings, IsCheckOf, IsDrawing, IsMoment, IsMomentOf, IsShown, failing_in, place_shown};
ghost use Rattle.tpl_graph.specs.Prelude.{Fits};
ghost use Rattle.tpl_journal.specs.Prelude.{IsJournal};
ghost use Rattle.tpl_model.specs.Rules as rules;
ghost use Rattle.tpl_reader.specs.Prelude.{doc_of, inputs_of};

use crate::answer::Answer;
use crate::exit::Exit;
use crate::rules::rules_of;
use std::alloc::{AllocError, Global};
use tpl_audit::{Failure, Verdict, audit, statuses_after};
use tpl_draw::{Failing, Language, Moment, Shown, endings_by, picture};
use tpl_graph::Claim;
use tpl_journal::{JournalFault, fault_is_no_journal, read_journal, text_is_unambiguous};
use tpl_model::{CertFault, Event, Finals, Inputs};
use tpl_reader::Document;

/// The picture of the document's graph: of its run, where its journal is one; else coloured where its certificate is
/// accepted.
pub(crate) fn drawing_answer(
    alloc: Global,
    document: &Document,
    language: Language,
    verdict: &Result<(), CertFault>,
) -> Result<Answer, AllocError>
    requires claims { All (Fits document.now.graph.graph) document.now.claims.items }
    requires checked { IsCheckOf (doc_of document.now) verdict.now }
    ensures { IfOk result (λ given.
        IsDrawing language (doc_of document.now) given.exit (string_bytes given.text)) }
{
    let shown = shown(alloc, document, verdict)?;
    Ok(Answer {
        exit: Exit::Success,
        text: picture(alloc, language, &document.graph, &shown)?,
    })
}

/// What the nodes of tasks show.
fn shown(
    alloc: Global,
    document: &Document,
    verdict: &Result<(), CertFault>,
) -> Result<Shown, AllocError>
    requires claims { All (Fits document.now.graph.graph) document.now.claims.items }
    requires checked { IsCheckOf (doc_of document.now) verdict.now }
    ensures { IfOk result (IsShown (doc_of document.now)) }
{
    match moment_of(alloc, document)? {
        Some(moment) => Ok(Shown::Run(moment)),
        None => Ok(Shown::Endings(shown_endings(alloc, document, verdict)?)),
    }
}

/// How the tasks may end, where the document's certificate is accepted; else nothing.
fn shown_endings(
    alloc: Global,
    document: &Document,
    verdict: &Result<(), CertFault>,
) -> Result<Vec<Finals>, AllocError>
    requires claims { All (Fits document.now.graph.graph) document.now.claims.items }
    requires checked { IsCheckOf (doc_of document.now) verdict.now }
    ensures { IfOk result (λ ends. AreEndings (doc_of document.now) ends.items) }
{
    let (graph, claims) = (&document.graph, document.claims.as_slice());
    let trees = document.certificate.trees();
    match verdict {
        Ok(()) => endings_by(alloc, rules_of(document), graph, claims, trees),
        Err(_) => Ok(Vec::new(alloc)),
    }
}

/// The moment that is drawn of the document's run, if its journal is a run with an event.
fn moment_of(alloc: Global, document: &Document) -> Result<Option<Moment>, AllocError>
    requires { All (Fits document.now.graph.graph) document.now.claims.items }
    ensures { IfOk result (IsMomentOf (doc_of document.now)) }
{
    match document.inputs() {
        Some(inputs) => moment_with(alloc, document, inputs),
        None => Ok(None),
    }
}

/// The same with these inputs.
fn moment_with(
    alloc: Global,
    document: &Document,
    inputs: Inputs,
) -> Result<Option<Moment>, AllocError>
    requires claims { All (Fits document.now.graph.graph) document.now.claims.items }
    requires inputs { inputs_of (doc_of document.now) ≡ Some inputs }
    ensures { IfOk result (IsMomentOf (doc_of document.now)) }
{
    document.graph.valid_law();
    text_is_unambiguous();
    fault_is_no_journal();
    tpl_laws::prefix_is_run();
    match read_journal(alloc, &document.graph, document.journal.as_str()) {
        Ok(events) => moment_after(alloc, document, inputs, events.as_slice()),
        Err(JournalFault::Memory) => Err(AllocError),
        Err(_) => Ok(None),
    }
}

/// The same, where the journal's text is that of these events.
fn moment_after(
    alloc: Global,
    document: &Document,
    inputs: Inputs,
    events: &[Event],
) -> Result<Option<Moment>, AllocError>
    requires claims { All (Fits document.now.graph.graph) document.now.claims.items }
    requires inputs { inputs_of (doc_of document.now) ≡ Some inputs }
    requires journal { IsJournal document.now.graph (doc_of document.now).journal events.now }
    ensures { IfOk result (IsMomentOf (doc_of document.now)) }
{
    document.graph.valid_law();
    text_is_unambiguous();
    tpl_laws::prefix_is_run();
    let claims = document.claims.as_slice();
    match audit(alloc, &document.graph, inputs.copy(), events, claims, &[]) {
        Verdict::Run { fails, .. } => {
            if events.is_empty() {
                return Ok(None);
            }
            Ok(Some(moment(alloc, document, inputs, events, fails)?))
        }
        Verdict::NotAllowed { .. } => Ok(None),
        Verdict::Memory => Err(AllocError),
    }
}

/// The moment that is drawn of a run of these events with these inputs.
fn moment(
    alloc: Global,
    document: &Document,
    inputs: Inputs,
    events: &[Event],
    fails: Option<Failure>,
) -> Result<Moment, AllocError>
    requires run { rules.Run document.now.graph.graph inputs (reverse events.now) }
    requires first { FirstFails document.now.graph.graph inputs events.now
        document.now.claims.items fails }
    ensures { IfOk result (IsMoment (doc_of document.now) inputs events.now) }
{
    tpl_laws::prefix_is_run();
    let place = place_shown(fails, events.len());
    Ok(Moment {
        place,
        statuses: statuses_after(alloc, &document.graph, inputs, &events[..place])?,
        failing: failing_in(document.claims.as_slice(), fails),
    })
}

/// The moment of a run that is drawn: where a claim fails first, or the end.
fn place_shown(fails: Option<Failure>, count: usize) -> usize
    ensures { result ≡ place_shown fails count }
{
    match fails {
        None => count,
        Some(failure) => failure.place,
    }
}

/// The claim that fails, if one does; claims count from 1.
fn failing_in(claims: &[Claim], fails: Option<Failure>) -> Option<Failing>
    ensures { result ≡ failing_in claims.now fails }
{
    let Some(failure) = fails else {
        return None;
    };
    match claims.get(failure.claim.saturating_sub(1)) {
        Some(claim) => Some(Failing {
            claim: failure.claim,
            says: claim.body(),
        }),
        None => None,
    }
}
