//! The answers to claims, by threads beside each other.

ghost use Rattle.std.specs.Prelude.{◌≡◌, ◌<◌, ℕ, length, map, IfOk, IfSome, Some, None, slice_get, slice_index_or, All};
ghost use Rattle.std.specs.List.{AllZip};
ghost use Rattle.tpl_graph.specs.Prelude.{Fits};
ghost use Rattle.tpl_verify.specs.Prelude.{IsAtHand, IsVerdict, IsVerdictAt, KeepsTo};
ghost use Rattle.tpl_verify.specs.declared.verdict.Verdict.{Verdict};

use crate::attend::Attend;
use crate::limits::Limits;
use crate::verdict::Verdict;
use crate::verifying::{at_hand, verify_claim};
use std::alloc::{AllocError, Global};
use std::thread;
use std::thread::Threads;
use tpl_checker::Below;
use tpl_graph::{Claim, Graph};
use tpl_model::RuleSet;
use tpl_refute::Seen;
use tpl_token_check::{Unsplit, links};

/// The verdict on the claim at this place; none where memory was refused.
pub(crate) fn verdict_at<A: Attend>(
    alloc: Global,
    graph: &Graph,
    claims: &[Claim],
    rules: RuleSet,
    limits: &Limits,
    unsplit: &Unsplit<'_>,
    seen: &Seen,
    attend: &A,
    at: usize,
) -> Option<Verdict>
    requires claims { All (Fits graph.now.graph) claims.now }
    requires at { at < length claims.now }
    requires unsplit { IsAtHand graph.now.graph unsplit.now }
    ensures verdict { IfSome result (IsVerdictAt rules graph.now.graph claims.now at) }
    ensures within { IfSome result (KeepsTo limits.now.depth limits.now.runs) }
{
    let number = at as u64 + 1;
    match verify_claim(
        alloc,
        graph,
        &claims[at],
        rules,
        number,
        limits,
        unsplit,
        seen,
    ) {
        Ok(verdict) => {
            attend.judged(at + 1, &verdict);
            Some(verdict)
        }
        Err(_) => None,
    }
}

/// So many places without a verdict.
fn places(alloc: Global, count: usize) -> Result<Vec<Option<Verdict>>, AllocError>
    ensures { IfOk result (λ places. length places.items ≡ count) }
{
    let mut places = Vec::with_capacity(alloc, count)?;
    for _ in 0..count {
        places.push(None)?;
    }
    Ok(places)
}

/// Puts at each place what the function answers there, by at most this many threads.
fn fill<R: Threads + Sync, F: Fn(usize) -> Option<Verdict> + Sync>(
    rt: &R,
    places: &mut [Option<Verdict>],
    jobs: usize,
    answer: &F,
)
    requires jobs { 0 < jobs }
    requires callable { (i : ℕ) → i < length places.old → F.pre answer.now i }
    ensures { (i : ℕ) → i < length places.old
        → F.post answer.now i (slice_index_or places.new i None) }
{
    let put = move |at: usize, place: &mut Option<Verdict>|
        requires { F.pre answer.now at }
        ensures { F.post answer.entry.now at place.exit.now }
    {
        *place = answer(at);
    };
    thread::for_each_mut(rt, places, jobs, &put);
}

/// The verdicts, if there is one at each place.
fn taken(alloc: Global, mut places: Vec<Option<Verdict>>) -> Result<Vec<Verdict>, AllocError>
    ensures { IfOk result (λ verdicts. places.items ≡ map (λ v. Some v) verdicts.items) }
{
    let mut verdicts = Vec::with_capacity(alloc, places.len())?;
    while !places.is_empty() {
        match places.remove(0) {
            Some(verdict) => verdicts.push(verdict)?,
            None => return Err(AllocError),
        }
    }
    Ok(verdicts)
}

/// What the function answers at each of the first places, by at most this many threads.
fn filled<R: Threads + Sync, F: Fn(usize) -> Option<Verdict> + Sync>(
    rt: &R,
    alloc: Global,
    count: usize,
    jobs: usize,
    answer: &F,
) -> Result<Vec<Option<Verdict>>, AllocError>
    requires jobs { 0 < jobs }
    requires callable { (i : ℕ) → i < count → F.pre answer.now i }
    ensures count { IfOk result (λ places. length places.items ≡ count) }
    ensures each { IfOk result (λ places. (i : ℕ) → i < count
        → F.post answer.now i (slice_index_or places.items i None)) }
{
    let mut places = places(alloc, count)?;
    fill(rt, places.as_mut_slice(), jobs, answer);
    Ok(places)
}

/// What the function answers at each of the first places, by at most this many threads beside each other. An error where
/// one of the calls has no answer.
pub fn answers<R: Threads + Sync, F: Fn(usize) -> Option<Verdict> + Sync>(
    rt: &R,
    alloc: Global,
    count: usize,
    jobs: usize,
    answer: &F,
) -> Result<Vec<Verdict>, AllocError>
    requires jobs { 0 < jobs }
    requires callable { (i : ℕ) → i < count → F.pre answer.now i }
    ensures count { IfOk result (λ verdicts. length verdicts.items ≡ count) }
    ensures each { IfOk result (λ verdicts. (i : ℕ) (verdict : Verdict)
        → slice_get verdicts.items i ≡ Some verdict → F.post answer.now i (Some verdict)) }

    // Where the function has one answer at each place, these are its answers, whatever the number of threads.
    ensures same { (one : ℕ → Verdict)
        → ((i : ℕ) (verdict : Verdict) → i < count → F.post answer.now i (Some verdict)
        → verdict ≡ one i)
        → IfOk result (λ verdicts. (i : ℕ) → i < count
        → slice_get verdicts.items i ≡ Some (one i)) }
{
    let places = filled(rt, alloc, count, jobs, answer)?;
    let all = taken(alloc, places)?;
    Ok(all)
}

/// The verdicts on the claims, as [`verify_beside`] gives them, with what is made once for all of them.
fn verdicts_beside<R: Threads + Sync, A: Attend + Sync>(
    rt: &R,
    alloc: Global,
    graph: &Graph,
    claims: &[Claim],
    rules: RuleSet,
    limits: &Limits,
    jobs: usize,
    unsplit: &Unsplit<'_>,
    seen: &Seen,
    attend: &A,
) -> Result<Vec<Verdict>, AllocError>
    requires claims { All (Fits graph.now.graph) claims.now }
    requires jobs { 0 < jobs }
    requires unsplit { IsAtHand graph.now.graph unsplit.now }
    ensures verdicts { IfOk result (λ verdicts.
        AllZip (IsVerdict rules graph.now.graph) claims.now verdicts.items) }
    ensures within { IfOk result (λ verdicts.
        All (KeepsTo limits.now.depth limits.now.runs) verdicts.items) }
{
    let answer = |at: usize| -> Option<Verdict>
        requires { All (Fits graph.now.graph) claims.now × (at < length claims.now)
            × IsAtHand graph.now.graph unsplit.now }
        ensures { IfSome result (λ verdict.
            KeepsTo limits.entry.now.depth limits.entry.now.runs verdict
            × IsVerdictAt rules graph.entry.now.graph claims.entry.now at verdict) }
    {
        verdict_at(
            alloc, graph, claims, rules, limits, unsplit, seen, attend, at,
        )
    };
    let verdicts = answers(rt, alloc, claims.len(), jobs, &answer)?;
    Ok(verdicts)
}

/// The verdicts on the claims, as [`verify_claim`] gives them, by at most this many threads beside each other. Each comes
/// from its graph, claim, rules, number and limits alone, and so they are the same for every number of threads, as
/// [`answers`] says. Who attends is told of each verdict as soon as it is found.
pub fn verify_beside<R: Threads + Sync, A: Attend + Sync>(
    rt: &R,
    alloc: Global,
    graph: &Graph,
    claims: &[Claim],
    rules: RuleSet,
    limits: &Limits,
    jobs: usize,
    attend: &A,
) -> Result<Vec<Verdict>, AllocError>
    requires claims { All (Fits graph.now.graph) claims.now }
    requires jobs { 0 < jobs }
    ensures verdicts { IfOk result (λ verdicts.
        AllZip (IsVerdict rules graph.now.graph) claims.now verdicts.items) }
    ensures within { IfOk result (λ verdicts.
        All (KeepsTo limits.now.depth limits.now.runs) verdicts.items) }
{
    let below = Box::new(alloc, Below::of_graph(graph))?;
    let linked = links(graph);
    let unsplit = at_hand(alloc, graph, &below, &linked)?;
    let seen = Seen::of_graph(alloc, graph)?;
    verdicts_beside(
        rt, alloc, graph, claims, rules, limits, jobs, &unsplit, &seen, attend,
    )
}
