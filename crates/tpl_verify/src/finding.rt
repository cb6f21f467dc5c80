//! The search for a run in which a claim of a document fails.

ghost use Rattle.std.specs.Prelude.{◌≡◌, IfOk, IfSome, All};
ghost use Rattle.tpl_graph.specs.Prelude.{Fits};
ghost use Rattle.tpl_reader.specs.Prelude.{doc_of};
ghost use Rattle.tpl_verify.specs.Prelude.{IsFound};

use crate::aside::tell_end;
use crate::search::Search;
use crate::{Attend, Verdict, judge_claim};
use std::alloc::{AllocError, Global};
use tpl_commands::{Listen, rules_of};
use tpl_reader::Document;
use tpl_refute::Counterexample;

/// A run in which a claim fails.
#[derive(Drop)]
pub(crate) struct Found {
    /// The claim's number, from 1.
    pub(crate) number: usize,
    /// The run.
    pub(crate) run: Counterexample,
}

/// The run in which the claim fails, where that is the verdict.
fn failing(verdict: Verdict) -> Option<Counterexample>
    ensures { IfSome result (λ run. verdict ≡ Verdict.Fails run) }
{
    match verdict {
        Verdict::Fails(run) => Some(run),
        Verdict::Holds { .. } => None,
        Verdict::Unknown(_) => None,
    }
}

/// The first run that is found, claim by claim. Each claim has random numbers and limits of its own. Who attends is told
/// of the verdict on each claim.
pub(crate) fn find<L: Listen, A: Attend>(
    alloc: Global,
    search: Search,
    document: &Document,
    listener: L,
    attend: &A,
) -> Result<Option<Found>, AllocError>
    requires { All (Fits document.now.graph.graph) document.now.claims.items }
    ensures { IfOk result (λ o. IfSome o (λ found. IsFound search.claim (doc_of document.now)
        found.number found.run.inputs found.run.events.items)) }
{
    let (graph, rules, limits) = (&document.graph, rules_of(document), &search.limits);
    for (index, claim) in document.claims.iter().enumerate() {
        let number = index + 1;
        if search.asks(number) {
            let verdict = judge_claim(alloc, graph, claim, rules, number as u64, limits)?;
            attend.judged(number, &verdict);
            if search.explain {
                tell_end(alloc, number, &verdict, listener)?;
            }
            if let Some(run) = failing(verdict) {
                return Ok(Some(Found { number, run }));
            }
        }
    }
    Ok(None)
}
