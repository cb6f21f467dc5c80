//! The verdicts on claims, told in order.

ghost use Rattle.std.specs.Prelude.{◌≡◌, ◌<◌, ℕ, [], length, IfSome, MatchResult, All};
ghost use Rattle.tpl_graph.specs.Prelude.{Fits};
ghost use Rattle.tpl_series.specs.Prelude.{IsStopped, TellsAll};
ghost use Rattle.tpl_verify.specs.Prelude.{IsAtHand, IsVerdictAt, KeepsTo};
ghost use Rattle.tpl_verify.specs.declared.verdict.Verdict.{Verdict};

use crate::attend::Attend;
use crate::beside::verdict_at;
use crate::limits::Limits;
use crate::verdict::Verdict;
use crate::verifying::at_hand;
use std::alloc::Global;
use std::io::Write;
use std::sync::Wait;
use std::thread::Threads;
use tpl_checker::Below;
use tpl_graph::{Claim, Graph};
use tpl_journal::Counting;
use tpl_model::RuleSet;
use tpl_refute::Seen;
use tpl_series::{Stop, Tell, tell_in_order};
use tpl_token_check::{Unsplit, links};

/// Tells the verdicts on the claims, as [`verify_in_order`] does, with what is made once for all of them.
fn tell_verdicts<
    R: Threads + Wait + Sync,
    A: Attend + Sync,
    T: Tell<Verdict> + Sync,
    W: Write + Send,
>(
    rt: &R,
    alloc: Global,
    graph: &Graph,
    claims: &[Claim],
    rules: RuleSet,
    limits: &Limits,
    jobs: usize,
    unsplit: &Unsplit<'_>,
    seen: &Seen,
    attend: &A,
    telling: &T,
    to: &mut Counting<W>,
) -> Result<Vec<T::Kept>, Stop>
    requires claims { All (Fits graph.now.graph) claims.now }
    requires jobs { 0 < jobs }
    requires unsplit { IsAtHand graph.now.graph unsplit.now }
    requires fits { (i : ℕ) (verdict : Verdict) → i < length claims.now
        → IsVerdictAt rules graph.now.graph claims.now i verdict
        → KeepsTo limits.now.depth limits.now.runs verdict → T.fits telling.now i verdict }
    requires begins { T.tells telling.now [] [] }
    ensures { MatchResult result
        (λ kept. TellsAll (T.tells telling.now) T.keep (length claims.now) W.contents
        to.old to.new kept.items)
        (IsStopped (T.tells telling.now) W.contents to.old to.new) }
{
    let answer = |at: usize| -> Option<Verdict>
        requires { All (Fits graph.now.graph) claims.now × (at < length claims.now)
            × IsAtHand graph.now.graph unsplit.now }
        ensures { IfSome result (λ verdict.
            KeepsTo limits.entry.now.depth limits.entry.now.runs verdict
            × IsVerdictAt rules graph.entry.now.graph claims.entry.now at verdict) }
    {
        verdict_at(
            alloc, graph, claims, rules, limits, unsplit, seen, attend, at,
        )
    };
    tell_in_order(rt, alloc, claims.len(), jobs, &answer, telling, to)
}

/// Tells the verdicts on the claims, as [`crate::verify_claim`] gives them, in their order: each as soon as it is found and those
/// before it are told, by at most this many threads that search. Each verdict comes from its graph, claim, rules, number and
/// limits alone. Who attends is told of each as soon as it is found. What is kept of the verdicts, each of which is let go once it
/// is told; or why that has ended before the last claim.
#[tactic(auto, using(tpl_series::proofs::ToldLemmas::stopped_at_once))]
pub fn verify_in_order<
    R: Threads + Wait + Sync,
    A: Attend + Sync,
    T: Tell<Verdict> + Sync,
    W: Write + Send,
>(
    rt: &R,
    alloc: Global,
    graph: &Graph,
    claims: &[Claim],
    rules: RuleSet,
    limits: &Limits,
    jobs: usize,
    attend: &A,
    telling: &T,
    to: &mut Counting<W>,
) -> Result<Vec<T::Kept>, Stop>
    requires claims { All (Fits graph.now.graph) claims.now }
    requires jobs { 0 < jobs }
    requires fits { (i : ℕ) (verdict : Verdict) → i < length claims.now
        → IsVerdictAt rules graph.now.graph claims.now i verdict
        → KeepsTo limits.now.depth limits.now.runs verdict → T.fits telling.now i verdict }
    requires begins { T.tells telling.now [] [] }
    ensures { MatchResult result
        (λ kept. TellsAll (T.tells telling.now) T.keep (length claims.now) W.contents
        to.old to.new kept.items)
        (IsStopped (T.tells telling.now) W.contents to.old to.new) }
{
    let Ok(below) = Box::new(alloc, Below::of_graph(graph)) else {
        return Err(Stop::Memory);
    };
    let linked = links(graph);
    let Ok(unsplit) = at_hand(alloc, graph, &below, &linked) else {
        return Err(Stop::Memory);
    };
    let Ok(seen) = Seen::of_graph(alloc, graph) else {
        return Err(Stop::Memory);
    };
    tell_verdicts(
        rt, alloc, graph, claims, rules, limits, jobs, &unsplit, &seen, attend, telling, to,
    )
}
