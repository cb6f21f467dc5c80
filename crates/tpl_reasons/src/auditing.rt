//! Why a journal can't be read, isn't a run, isn't complete, or shows that a claim fails or a task ended otherwise.

ghost use Rattle.std.specs.Prelude.{◌≡◌};
ghost use Rattle.tpl_reasons.specs.Prelude.{audit_reason, verdict_reason};

use crate::crossing::crossing_text;
use crate::journal::{ending_text, line_text};
use crate::reason::Reason;
use crate::refusal::refusal_text;
use crate::words::{Said, claim_text};
use std::alloc::{AllocError, Global};
use tpl_audit::{Failure, OtherEnd, Verdict};
use tpl_causes::{Named, causes_of, name, name_of, told};
use tpl_commands::Audit;
use tpl_fast::Fast;
use tpl_graph::Kind;
use tpl_journal::{JournalFault, read_journal};
use tpl_machine::Core;
use tpl_model::{Event, InputId, Status, TaskId};
use tpl_reader::Document;

/// The reason of a verdict on the journal, if it has one.
fn verdict_reason(verdict: Verdict) -> Option<Reason>
    ensures { result ≡ verdict_reason verdict }
{
    match verdict {
        Verdict::NotAllowed { place } => Some(Reason::NotAllowed(place)),
        Verdict::Run {
            complete,
            fails,
            other_end,
        } => match (fails, other_end) {
            (Some(failure), other) => Some(Reason::Fails(failure, other)),
            (None, Some(other)) => Some(Reason::EndsOtherwise { other, complete }),
            (None, None) if complete => None,
            (None, None) => Some(Reason::NotComplete),
        },
        Verdict::Memory => None,
    }
}

/// What is wrong with the journal, if anything.
pub(crate) fn audit_reason(audit: Audit) -> Option<Reason>
    ensures { result ≡ audit_reason audit }
{
    match audit {
        Audit::NoStart => Some(Reason::NoStart),
        Audit::NoJournal(fault) => Some(Reason::NoJournal(fault)),
        Audit::Judged(verdict) => verdict_reason(verdict),
    }
}

/// Says that the inputs have no values.
pub(crate) fn no_start_text(alloc: Global, document: &Document) -> Said {
    let mut text = String::from_str(alloc, "nothing says which values the inputs have:")?;
    for number in 0..document.graph.input_count() {
        text.push_str(" ")?;
        let input = Named::Input(InputId(number as u8));
        text.push_str(name_of(&document.graph, input))?;
    }
    text.push_str("; `start` gives them, as {\"inputs\":{\"NAME\":true}}\n")?;
    Ok(text)
}

/// Why the journal can't be read.
pub(crate) fn no_journal_text(alloc: Global, document: &Document, fault: JournalFault) -> Said {
    match fault {
        JournalFault::Line(number) => {
            let line = line_text(alloc, document, number)?;
            let ending = ending_text(document, number);
            format!(in alloc;
                "{line} spells no event of this graph\n{ending}a line is ACTOR VERB NAME with single spaces and a line break at its end, as `o1 request stop`, `w1 begin Build` or `w1 worked Build done`; ACTOR is w1 to w64, or o1 to o8, who request tokens and run no body\n"
            )
        }
        _ => {
            let most = document.graph.bound();
            format!(in alloc;
                "the journal has more than {most} lines, and no run of this graph has more events\n"
            )
        }
    }
}

/// The run of a journal, as far as it is allowed.
#[derive(Drop)]
struct Replay<'g> {
    /// The run.
    run: Fast<'g>,
    /// The first event that isn't allowed.
    refused: Option<Event>,
}

/// The run of these events. None, where the values of the inputs aren't known.
fn played<'g>(
    alloc: Global,
    document: &'g Document,
    events: &[Event],
) -> Result<Option<Replay<'g>>, AllocError> {
    let Some(inputs) = document.inputs() else {
        return Ok(None);
    };
    let mut run = Fast::open(alloc, &document.graph, inputs)?;
    for event in events {
        if run.step(*event).is_err() {
            let refused = Some(*event);
            return Ok(Some(Replay { run, refused }));
        }
    }
    let refused = None;
    Ok(Some(Replay { run, refused }))
}

/// The run of the document's journal. None, where that can't be read.
fn replayed(alloc: Global, document: &Document) -> Result<Option<Replay<'_>>, AllocError> {
    match read_journal(alloc, &document.graph, document.journal.as_str()) {
        Ok(events) => played(alloc, document, &events),
        Err(JournalFault::Memory) => Err(AllocError),
        Err(_) => Ok(None),
    }
}

/// Why the event of this line isn't allowed.
pub(crate) fn not_allowed_text(alloc: Global, document: &Document, number: usize) -> Said {
    let line = line_text(alloc, document, number)?;
    let Some(replay) = replayed(alloc, document)? else {
        return Ok(line);
    };
    let Some(event) = replay.refused else {
        return Ok(line);
    };
    let why = refusal_text(alloc, &replay.run, event.act)?;
    format!(in alloc; "{line} isn't allowed there: {why}")
}

/// What to do about a task that the run ends in another way.
const ENDED_OTHERWISE: &str =
    "the journal is a run of the graph, but the real task ended otherwise: most often by something that the document doesn't have, as an exception, a timeout that cancels, or an attached child; add it to the document, or correct `ended`\n";

/// What to do about a task that doesn't end in the run.
const NOT_ENDED: &str =
    "the journal is a run of the graph, but the task doesn't end in it: events may be missing at its end, or the real task did something that the document doesn't have; complete the journal or the document, or correct `ended`\n";

/// How a task should have ended, how it stands at the end of the run, and what to do.
fn other_end_text(alloc: Global, document: &Document, other: OtherEnd) -> Said {
    let advice = match other.status {
        Status::Completed(_) => ENDED_OTHERWISE,
        _ => NOT_ENDED,
    };
    let task = name(&document.graph, other.task);
    let (said, status) = (other.said.name(), other.status.name());
    format!(in alloc;
        "`ended` says that {task} ended {said}, but at the end of the journal it is {status}\n{advice}"
    )
}

/// What is said of a task that has not ended as the document says, in a run that may not be complete.
pub(crate) fn ends_otherwise_text(
    alloc: Global,
    document: &Document,
    other: OtherEnd,
    complete: bool,
) -> Said {
    let mut text = other_end_text(alloc, document, other)?;
    if !complete {
        text.push_str(not_complete_text(alloc, document)?.as_str())?;
    }
    Ok(text)
}

/// At which event a claim fails, and what is said of a task that has not ended as the document says, if there is one.
pub(crate) fn run_text(
    alloc: Global,
    document: &Document,
    failure: Failure,
    other_end: Option<OtherEnd>,
) -> Said {
    let mut text = fails_text(alloc, document, failure)?;
    if let Some(other) = other_end {
        text.push_str(other_end_text(alloc, document, other)?.as_str())?;
    }
    Ok(text)
}

/// How the journal's run came to where a claim fails, an event on each line. Nothing, where no event led there.
fn causes_text(alloc: Global, document: &Document, failure: Failure) -> Said {
    let (Some(inputs), Some(claim)) = (
        document.inputs(),
        document.claims.get(failure.claim.saturating_sub(1)),
    ) else {
        return Ok(String::new(alloc));
    };
    let Ok(events) = read_journal(alloc, &document.graph, document.journal.as_str()) else {
        return Ok(String::new(alloc));
    };
    let events = &events[..failure.place.min(events.len())];
    let causes = causes_of(alloc, &document.graph, claim, &inputs, events)?;
    told(alloc, "line", &causes)
}

/// At which event a claim fails, how the run came there, and whether no thread makes the run.
fn fails_text(alloc: Global, document: &Document, failure: Failure) -> Said {
    let claim = claim_text(alloc, document, failure.claim)?;
    if failure.place == 0 {
        return format!(in alloc; "{claim} fails before the first event\n");
    }
    let line = line_text(alloc, document, failure.place)?;
    let causes = causes_text(alloc, document, failure)?;
    let crossing = crossing_text(alloc, document)?;
    format!(in alloc; "{claim} fails at {line}\n{causes}{crossing}")
}

/// Where a task stands that has to end before the run is complete: it is no child, or was started.
fn awaited_text<C: Core>(alloc: Global, run: &C, task: TaskId) -> Said {
    let graph = run.graph();
    if (task.0 as usize) >= graph.len() {
        return Ok(String::new(alloc));
    }
    let is_awaited = graph.kind(task) != Kind::Child || run.started(task);
    match run.status(task) {
        Status::Completed(_) => Ok(String::new(alloc)),
        status if is_awaited => {
            let (task, status) = (name(graph, task), status.name());
            format!(in alloc; "; {task} is {status}")
        }
        _ => Ok(String::new(alloc)),
    }
}

/// Which tasks have not ended, and whether no thread makes the run.
pub(crate) fn not_complete_text(alloc: Global, document: &Document) -> Said {
    let mut text = String::from_str(alloc, "some tasks have not ended")?;
    if let Some(replay) = replayed(alloc, document)? {
        for number in 0..document.graph.len() {
            text.push_str(awaited_text(alloc, &replay.run, TaskId(number as u16))?.as_str())?;
        }
    }
    text.push_str("\n")?;
    text.push_str(crossing_text(alloc, document)?.as_str())?;
    Ok(text)
}
