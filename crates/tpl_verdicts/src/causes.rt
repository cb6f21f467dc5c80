//! How a run came to where a claim fails.

ghost use Rattle.std.specs.Prelude.{◌≡◌, map, IfOk, OnOk, string_bytes};
ghost use Rattle.serde_json.specs.View.{view};
ghost use Rattle.tpl_verdicts.specs.Prelude.{AddsCauses, AreCausesData, cause_data};

use serde_json::{Value, json};
use std::alloc::{AllocError, Global};
use tpl_causes::{Cause, add_causes, causes_of};
use tpl_graph::{Claim, Graph};
use tpl_refute::Counterexample;

/// What the lines call an event.
const EVENT: &str = "event";

/// Adds the lines that tell how the run came to where the claim fails.
pub(crate) fn add_causes_of(
    lines: &mut Vec<String>,
    alloc: Global,
    graph: &Graph,
    claim: &Claim,
    run: &Counterexample,
) -> Result<(), AllocError>
    ensures { OnOk result (AddsCauses run.now (map string_bytes lines.old.items)
        (map string_bytes lines.new.items)) }
{
    let causes = causes_of(alloc, graph, claim, &run.inputs, &run.events)?;
    add_causes(lines, alloc, EVENT, &causes)
}

/// An event that led to where a claim fails.
fn cause_value(alloc: Global, cause: &Cause) -> Result<Value, AllocError>
    ensures { IfOk result (λ v. view v ≡ cause_data cause.now) }
{
    let (event, led_to, says) = (cause.event, cause.led_to, cause.says.as_str());
    json!(in alloc; {"event": event, "led_to": led_to, "says": says})
}

/// Each of these causes.
fn cause_values(alloc: Global, causes: &[Cause]) -> Result<Vec<Value>, AllocError>
    ensures { IfOk result (λ values. map view values.items ≡ map cause_data causes.now) }
{
    let mut values = Vec::new(alloc);
    for cause in causes {
        let value = cause_value(alloc, cause)?;
        values.push(value)?;
    }
    Ok(values)
}

/// The events that led to where the claim fails.
pub(crate) fn causes_value(
    alloc: Global,
    graph: &Graph,
    claim: &Claim,
    run: &Counterexample,
) -> Result<Vec<Value>, AllocError>
    ensures { IfOk result (λ values. AreCausesData run.now (map view values.items)) }
{
    let causes = causes_of(alloc, graph, claim, &run.inputs, &run.events)?;
    cause_values(alloc, &causes)
}
