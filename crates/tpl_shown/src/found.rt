//! What the audit found, as a JSON value.

ghost use Rattle.std.specs.Prelude.{◌≡◌, IfOk, IfSome, map, reverse, string_bytes};
ghost use Rattle.serde_json.specs.View.{view};
ghost use Rattle.tpl_audit.specs.Prelude.{AreTasksOf, IsVerdict, statuses};
ghost use Rattle.tpl_model.specs.Prelude.{Run, is_task};
ghost use Rattle.tpl_shown.specs.Prelude.{IsFound, IsFoundText, claims_data, ended_data, failure_data, other_data, refused_data, run_data, statuses_data};

use crate::naming::name_of;
use serde_json::{Value, json};
use std::alloc::{AllocError, Global};
use tpl_audit::{Failure, OtherEnd, Verdict, statuses_after};
use tpl_graph::{Claim, Graph};
use tpl_model::{Event, Final, Inputs, Status, TaskId};
use tpl_reasons::claim_words;

/// A run of a graph, and what is asked of it.
#[derive(Clone, Copy)]
pub(crate) struct Recorded<'r> {
    pub(crate) graph: &'r Graph,
    pub(crate) claims: &'r [Claim],
    pub(crate) inputs: &'r Inputs,
    pub(crate) events: &'r [Event],
    /// How tasks are said to have ended.
    pub(crate) ended: &'r [(TaskId, Final)],
}

/// Where a claim fails first; null, where none does.
fn failure_value(alloc: Global, fails: Option<Failure>) -> Result<Value, AllocError>
    ensures { IfOk result (λ v. view v ≡ failure_data fails) }
{
    match fails {
        None => Ok(Value::Null),
        Some(failure) => {
            let (claim, place) = (failure.claim, failure.place);
            json!(in alloc; {"claim": claim, "place": place})
        }
    }
}

/// A task that has not ended as is said of it, by the names of its end, its status and itself.
fn other_value(alloc: Global, said: &str, status: &str, task: &str) -> Result<Value, AllocError>
    ensures { IfOk result (λ v. view v ≡ other_data said.now status.now task.now) }
{
    json!(in alloc; {"said": said, "status": status, "task": task})
}

/// The first task that has not ended as is said of it; null, where each has.
fn ended_value(alloc: Global, graph: &Graph, other: Option<OtherEnd>) -> Result<Value, AllocError>
    requires { IfSome other (λ end. is_task graph.now.graph end.task.0) }
    ensures { IfOk result (λ v. view v ≡ ended_data graph.now.names other) }
{
    match other {
        None => Ok(Value::Null),
        Some(end) => {
            let (said, status) = (end.said.name(), end.status.name());
            other_value(alloc, said, status, name_of(graph, end.task))
        }
    }
}

/// The claims in words.
fn claim_values(alloc: Global, graph: &Graph, claims: &[Claim]) -> Result<Vec<Value>, AllocError>
    ensures { IfOk result (λ values.
        map view values.items ≡ claims_data graph.now.names claims.now) }
{
    let mut values = Vec::new(alloc);
    for claim in claims {
        let words = claim_words(alloc, graph, claim)?;
        values.push(Value::String(words))?;
    }
    Ok(values)
}

/// The names of statuses.
fn status_values(alloc: Global, statuses: &[Status]) -> Result<Vec<Value>, AllocError>
    ensures { IfOk result (λ values. map view values.items ≡ statuses_data statuses.now) }
{
    let mut values = Vec::new(alloc);
    for status in statuses {
        let name = String::from_str(alloc, status.name())?;
        values.push(Value::String(name))?;
    }
    Ok(values)
}

/// How each task stands at the end of a run, in declared order.
fn end_values(alloc: Global, recorded: &Recorded<'_>) -> Result<Vec<Value>, AllocError>
    requires { let r = recorded.now in Run r.graph.now.graph r.inputs.now (reverse r.events.now) }
    ensures { let r = recorded.now in IfOk result (λ values. map view values.items
        ≡ statuses_data (statuses r.graph.now.graph r.inputs.now (reverse r.events.now))) }
{
    let inputs = recorded.inputs.copy();
    let statuses = statuses_after(alloc, recorded.graph, inputs, recorded.events)?;
    status_values(alloc, &statuses)
}

/// What was found of a run: the claims in words, whether it is complete, how each task stands at the end, where a claim
/// fails first, and which task has not ended as is said of it.
fn run_value(
    alloc: Global,
    claims: Vec<Value>,
    complete: bool,
    ends: Vec<Value>,
    fails: Value,
    other: Value,
) -> Result<Value, AllocError>
    ensures { IfOk result (λ v. view v ≡ run_data (map view claims.items) complete
        (map view ends.items) (view fails) (view other)) }
{
    json!(in alloc; {
        "claims": claims, "complete": complete, "ends": ends, "fails": fails, "other_end": other
    })
}

/// What was found where the event at this place isn't allowed.
fn refused_value(alloc: Global, claims: Vec<Value>, place: usize) -> Result<Value, AllocError>
    ensures { IfOk result (λ v. view v ≡ refused_data (map view claims.items) place) }
{
    json!(in alloc; {"claims": claims, "not_allowed": place})
}

/// What the audit found, as a JSON value. Out of memory has none.
fn found_value(
    alloc: Global,
    recorded: &Recorded<'_>,
    verdict: Verdict,
) -> Result<Value, AllocError>
    requires tasks { AreTasksOf recorded.now.graph.now.graph recorded.now.ended.now }
    requires verdict { let r = recorded.now in IsVerdict r.graph.now.graph r.inputs.now
        r.events.now r.claims.now r.ended.now verdict }
    ensures { let r = recorded.now in IfOk result (λ v. IsFound r.graph.now r.claims.now
        r.inputs.now r.events.now verdict (view v)) }
{
    let claims = claim_values(alloc, recorded.graph, recorded.claims)?;
    match verdict {
        Verdict::Run {
            complete,
            fails,
            other_end,
        } => {
            let ends = end_values(alloc, recorded)?;
            let fails = failure_value(alloc, fails)?;
            let other = ended_value(alloc, recorded.graph, other_end)?;
            run_value(alloc, claims, complete, ends, fails, other)
        }
        Verdict::NotAllowed { place } => refused_value(alloc, claims, place),
        Verdict::Memory => Err(AllocError),
    }
}

/// What the audit found, as the text of a JSON value. Out of memory has none.
pub(crate) fn found_text(
    alloc: Global,
    recorded: &Recorded<'_>,
    verdict: Verdict,
) -> Result<String, AllocError>
    requires tasks { AreTasksOf recorded.now.graph.now.graph recorded.now.ended.now }
    requires verdict { let r = recorded.now in IsVerdict r.graph.now.graph r.inputs.now
        r.events.now r.claims.now r.ended.now verdict }
    ensures { let r = recorded.now in IfOk result (λ text. IsFoundText r.graph.now r.claims.now
        r.inputs.now r.events.now verdict (string_bytes text)) }
{
    let text = found_value(alloc, recorded, verdict)?.to_string(alloc)?;
    Ok(text)
}
