//! Whether events refute a claim, and up to where.

ghost use Rattle.std.specs.Prelude.{◌≡◌, ◌↔◌, IsTrue, IfOk, IfSome, length, All};
ghost use Rattle.tpl_graph.specs.Prelude.{Fits};
ghost use Rattle.tpl_model.specs.Prelude.{IsSeat};
ghost use Rattle.tpl_refute.specs.Refuting.{Refutes};

use crate::counterexample::Counterexample;
use std::alloc::{AllocError, Global};
use std::slice;
use tpl_audit::{Verdict, audit};
use tpl_graph::{Claim, Graph};
use tpl_model::{Event, Inputs, are_seats};

/// A document of the graph can have these inputs, and its journal these events.
fn can_be_written(graph: &Graph, inputs: &Inputs, events: &[Event]) -> bool
    ensures { IsTrue result ↔ ((length inputs.now ≡ graph.now.graph.inputs)
        × All (λ e. IsSeat e.actor) events.now) }
{
    inputs.len() == graph.input_count() && are_seats(events)
}

/// The events up to the place where the claim fails first, if they are a run in which it does.
pub(crate) fn judge(
    alloc: Global,
    graph: &Graph,
    claim: &Claim,
    inputs: Inputs,
    mut events: Vec<Event>,
) -> Result<Option<Counterexample>, AllocError>
    requires { Fits graph.now.graph claim.now }
    ensures { IfOk result (λ found. IfSome found (λ one.
        Refutes graph.now.graph claim.now one.inputs one.events.items)) }
{
    tpl_laws::prefix_is_run();
    let alone = slice::from_ref(claim);
    match audit(alloc, graph, inputs.copy(), events.as_slice(), alone, &[]) {
        Verdict::Run {
            fails: Some(failure),
            ..
        } => {
            events.truncate(failure.place);
            if can_be_written(graph, &inputs, events.as_slice()) {
                Ok(Some(Counterexample { inputs, events }))
            } else {
                Ok(None)
            }
        }
        Verdict::Run { fails: None, .. } => Ok(None),
        Verdict::NotAllowed { .. } => Ok(None),
        Verdict::Memory => Err(AllocError),
    }
}
