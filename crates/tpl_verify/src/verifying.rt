//! The answers to claims, one after another.

ghost use Rattle.std.specs.Prelude.{◌≡◌, ◌∷◌, [], IfOk, IsTrue, All};
ghost use Rattle.std.specs.List.{AllZip};
ghost use Rattle.tpl_checker.specs.Prelude.{AreBelow};
ghost use Rattle.tpl_graph.specs.Prelude.{Fits};
ghost use Rattle.tpl_model.specs.Prelude.{LeastLeaf};
ghost use Rattle.tpl_token_leaf.specs.Prelude.{AreLinks};
ghost use Rattle.tpl_verify.specs.Prelude.{HoldsAlways, IsAtHand, IsCertified, IsJudged, IsVerdict, KeepsTo, SaysRanOut};

use crate::certifying::{Certified, certify};
use crate::empty::why_empty;
use crate::limits::Limits;
use crate::question::Question;
use crate::verdict::{Tried, Verdict};
use std::alloc::{AllocError, Global};
use tpl_analyser::{Budget, Gap, RanOut, Unwatched};
use tpl_checker::Below;
use tpl_graph::{Claim, Graph};
use tpl_model::RuleSet;
use tpl_paths::TokenSet;
use tpl_refute::{Effort, Seen, refute};
use tpl_token_check::{Unsplit, links};
use tpl_trees::{Certificate, Node, Tree};

/// The verdict on a claim for which no certificate was found, after these random runs.
fn tried(
    question: &Question<'_, '_>,
    effort: Effort,
    ran_out: RanOut,
) -> Result<Verdict, AllocError>
    requires { Fits question.now.graph.now.graph question.now.claim.now }
    ensures judged { IfOk result (IsJudged question.now.rules question.now.graph.now.graph
        question.now.claim.now) }
    ensures within { IfOk result (KeepsTo question.now.depth effort.runs) }
    ensures ran_out { IfOk result (SaysRanOut ran_out) }
{
    let sought = refute(question.alloc, question.graph, question.claim, effort)?;
    let tried = Tried::by(ran_out, &sought);
    match sought.found {
        Some(found) => Ok(Verdict::Fails(found)),
        None => Ok(Verdict::Unknown(tried)),
    }
}

/// The verdict on a claim that the first random runs didn't refute. It isn't asked whether it says nothing.
fn certified_or_tried(
    question: &Question<'_, '_>,
    number: u64,
    limits: &Limits,
) -> Result<Verdict, AllocError>
    requires { Fits question.now.graph.now.graph question.now.claim.now }
    ensures judged { IfOk result (IsJudged question.now.rules question.now.graph.now.graph
        question.now.claim.now) }
    ensures within { IfOk result (KeepsTo question.now.depth limits.now.runs) }
{
    let mut budget = Budget::new(Unwatched, limits.leaves);
    match certify(question, &mut budget) {
        Ok(
            Certified {
                certificate,
                splits,
            },
        ) => Ok(Verdict::Holds {
            certificate,
            splits,
            empty: None,
        }),
        Err(Gap::NotFound { .. }) => tried(question, limits.all_runs(number), budget.ran_out()),
        Err(Gap::Memory) => Err(AllocError),
    }
}

/// The verdict on a claim for which a glance found no certificate: a few random runs first, then the search for one.
fn refuted_or_certified(
    question: &Question<'_, '_>,
    number: u64,
    limits: &Limits,
) -> Result<Verdict, AllocError>
    requires { Fits question.now.graph.now.graph question.now.claim.now }
    ensures judged { IfOk result (IsJudged question.now.rules question.now.graph.now.graph
        question.now.claim.now) }
    ensures within { IfOk result (KeepsTo question.now.depth limits.now.runs) }
{
    let (alloc, effort) = (question.alloc, limits.first_runs(number));
    let first = refute(alloc, question.graph, question.claim, effort)?;
    match first.found {
        Some(run) => Ok(Verdict::Fails(run)),
        None => certified_or_tried(question, number, limits),
    }
}

/// The verdict on the claim of this number, within these limits: a certificate that a glance finds, without a split or with
/// one near to the claim's tasks; then a few random runs, then the search for a certificate, with few splits before many,
/// then all random runs. The number only chooses the random numbers, so the answer depends on the graph, the claim, its
/// number and the limits alone. Out of memory is the only error.
///
/// `Holds` is said only of a claim that holds in each run of the graph; it isn't asked whether it says nothing. `Fails` is
/// said only with a run in which it doesn't hold. `Unknown` promises nothing.
pub fn judge_claim(
    alloc: Global,
    graph: &Graph,
    claim: &Claim,
    rules: RuleSet,
    number: u64,
    limits: &Limits,
) -> Result<Verdict, AllocError>
    requires { Fits graph.now.graph claim.now }
    ensures judged { IfOk result (IsJudged rules graph.now.graph claim.now) }
    ensures within { IfOk result (KeepsTo limits.now.depth limits.now.runs) }
{
    let question = Question {
        alloc,
        graph,
        claim,
        rules,
        depth: limits.depth,
        seen: None,
    };
    let mut glance = Budget::new(Unwatched, limits.glance());
    match certify(&question, &mut glance) {
        Ok(
            Certified {
                certificate,
                splits,
            },
        ) => Ok(Verdict::Holds {
            certificate,
            splits,
            empty: None,
        }),
        Err(Gap::NotFound { .. }) => refuted_or_certified(&question, number, limits),
        Err(Gap::Memory) => Err(AllocError),
    }
}

/// The tree without a split where nothing is given, for [`verify_claim`].
pub(crate) fn at_hand<'g>(
    alloc: Global,
    graph: &'g Graph,
    below: &'g Below,
    linked: &'g [TokenSet],
) -> Result<Unsplit<'g>, AllocError>
    requires below { AreBelow graph.now.graph below.now }
    requires linked { AreLinks graph.now.graph linked.now }
    ensures { IfOk result (IsAtHand graph.now.graph) }
{
    let unsplit = Unsplit::new(alloc, graph, below, linked, &[])?;
    Ok(unsplit)
}

/// Nothing is given, and the tree without a split is accepted for the claim: of that tree, which is at hand, it is only read.
fn is_accepted(
    alloc: Global,
    graph: &Graph,
    claim: &Claim,
    rules: RuleSet,
    unsplit: &Unsplit<'_>,
) -> Result<bool, AllocError>
    requires fits { Fits graph.now.graph claim.now }
    requires unsplit { IsAtHand graph.now.graph unsplit.now }
    ensures certified { IfOk result (λ accepted. IsTrue accepted
        → IsCertified rules graph.now.graph claim.now (LeastLeaf ∷ []) 0) }
    ensures always { IfOk result (λ accepted. IsTrue accepted
        → HoldsAlways graph.now.graph claim.now) }
{
    if !claim.given().is_empty() {
        return Ok(false);
    }
    match rules {
        RuleSet::WithoutTokens => Ok(false),
        RuleSet::WithTokens => {
            graph.valid_law();
            tpl_laws::sound_by_rules();
            let accepted = unsplit.accepts(alloc, claim)?;
            Ok(accepted)
        }
    }
}

/// The certificate whose tree has no split and leaves its rows out.
fn least(alloc: Global) -> Result<Certificate, AllocError>
    ensures { IfOk result (λ certificate. certificate ≡ LeastLeaf ∷ []) }
{
    let mut trees = Vec::new(alloc);
    trees.push(Tree::new(Node::Least))?;
    Ok(Certificate::new(trees))
}

/// The verdict on the claim of this number, as [`judge_claim`] gives it, and sooner where the tree at hand is accepted.
fn judge_at_hand(
    alloc: Global,
    graph: &Graph,
    claim: &Claim,
    rules: RuleSet,
    number: u64,
    limits: &Limits,
    unsplit: &Unsplit<'_>,
) -> Result<Verdict, AllocError>
    requires fits { Fits graph.now.graph claim.now }
    requires unsplit { IsAtHand graph.now.graph unsplit.now }
    ensures judged { IfOk result (IsJudged rules graph.now.graph claim.now) }
    ensures within { IfOk result (KeepsTo limits.now.depth limits.now.runs) }
{
    if is_accepted(alloc, graph, claim, rules, unsplit)? {
        let certificate = least(alloc)?;
        return Ok(Verdict::Holds {
            certificate,
            splits: 0,
            empty: None,
        });
    }
    judge_claim(alloc, graph, claim, rules, number, limits)
}

/// The verdict on the claim of this number, as [`judge_claim`] gives it; of a claim that holds also why it is empty, where
/// that is certified without splits. What is made once for all claims spares searches: the tree without a split where nothing
/// is given, and what was seen in runs of the graph.
pub fn verify_claim(
    alloc: Global,
    graph: &Graph,
    claim: &Claim,
    rules: RuleSet,
    number: u64,
    limits: &Limits,
    unsplit: &Unsplit<'_>,
    seen: &Seen,
) -> Result<Verdict, AllocError>
    requires fits { Fits graph.now.graph claim.now }
    requires unsplit { IsAtHand graph.now.graph unsplit.now }
    ensures verdict { IfOk result (IsVerdict rules graph.now.graph claim.now) }
    ensures within { IfOk result (KeepsTo limits.now.depth limits.now.runs) }
{
    match judge_at_hand(alloc, graph, claim, rules, number, limits, unsplit)? {
        Verdict::Holds {
            certificate,
            splits,
            ..
        } => {
            let empty = why_empty(alloc, graph, claim, rules, Some(seen))?;
            Ok(Verdict::Holds {
                certificate,
                splits,
                empty,
            })
        }
        Verdict::Fails(run) => Ok(Verdict::Fails(run)),
        Verdict::Unknown(tried) => Ok(Verdict::Unknown(tried)),
    }
}

/// The verdicts on the claims, in their order. The first claim has the number 1.
pub fn verify(
    alloc: Global,
    graph: &Graph,
    claims: &[Claim],
    rules: RuleSet,
    limits: &Limits,
) -> Result<Vec<Verdict>, AllocError>
    requires { All (Fits graph.now.graph) claims.now }
    ensures verdicts { IfOk result (λ verdicts.
        AllZip (IsVerdict rules graph.now.graph) claims.now verdicts.items) }
    ensures within { IfOk result (λ verdicts.
        All (KeepsTo limits.now.depth limits.now.runs) verdicts.items) }
{
    let below = Box::new(alloc, Below::of_graph(graph))?;
    let linked = links(graph);
    let unsplit = at_hand(alloc, graph, &below, &linked)?;
    let seen = Seen::of_graph(alloc, graph)?;
    let mut verdicts = Vec::new(alloc);
    for at in 0..claims.len() {
        let number = at as u64 + 1;
        let verdict = verify_claim(
            alloc,
            graph,
            &claims[at],
            rules,
            number,
            limits,
            &unsplit,
            &seen,
        )?;
        verdicts.push(verdict)?;
    }
    Ok(verdicts)
}
