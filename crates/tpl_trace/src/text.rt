//! The text of a trace.

ghost use Rattle.std.specs.Prelude.{◌≡◌, codes, map, IfOk, string_bytes, All};
ghost use Rattle.serde_json.specs.Data.{array, member, no_members, object};
ghost use Rattle.serde_json.specs.View.{items_of, view};
ghost use Rattle.tpl_journal.specs.Prelude.{CanSpell};
ghost use Rattle.tpl_trace.specs.Prelude.{trace_text};

use crate::entries::entries;
use serde_json::{Value, json};
use std::alloc::{AllocError, Global};
use tpl_graph::Graph;
use tpl_model::Event;

fn trace_value(alloc: Global, entries: Vec<Value>) -> Result<Value, AllocError>
    ensures { IfOk result (λ v. view v ≡ object (member (codes "traceEvents")
        (array (items_of (map view entries.items))) no_members)) }
{
    json!(in alloc; {"traceEvents": entries})
}

/// The trace of the events as one line of JSON, with its line break. The times are those of the events, in microseconds; an
/// event for which there is none is shown at its place.
pub(crate) fn trace_text(
    alloc: Global,
    graph: &Graph,
    events: &[Event],
    times: &[u64],
) -> Result<String, AllocError>
    requires { All (CanSpell graph.now.graph) events.now }
    ensures { IfOk result (λ text. string_bytes text
        ≡ trace_text graph.now times.now events.now) }
{
    let list = entries(alloc, graph, events, times)?;
    let mut text = trace_value(alloc, list)?.to_string(alloc)?;
    text.push_str("\n")?;
    Ok(text)
}
