//! The check of a certificate whose rows speak of tokens too.

ghost use Rattle.std.specs.Prelude.{◌≡◌, ◌+◌, ◌≤◌, ◌<◌, List, Bool, IfOk, IfErr, IsTrue, None, All};
ghost use Rattle.tpl_checker.specs.Prelude.{AreBelow};
ghost use Rattle.tpl_graph.specs.Prelude.{Fits};
ghost use Rattle.tpl_laws.specs.Prelude.{Each, AcceptsWithTokens, no_fault, token_claims_fault, token_fits, leaves, token_misfit, token_tree_fault, token_verdict};
ghost use Rattle.tpl_token_leaf.specs.Prelude.{AreLinks};
ghost use Rattle.tpl_model.specs.Prelude.{Holds, Run, assumed_with_tokens};
ghost use Rattle.tpl_model.specs.declared.event.Event.{Event};
ghost use Rattle.tpl_trees.specs.Prelude.{height};
ghost use Rattle.tpl_token_check.specs.Prelude.{IsAnswer, FailingWithTokens};
ghost use Rattle.tpl_token_check.specs.declared.error.TokenFault.TheVariants as faults;

use crate::check::Check;
use crate::error::TokenFault;
use crate::shape::misfit;
use crate::tree::tree_fault;
use std::alloc::Global;
use tpl_checker::{Below, assumed_for};
use tpl_graph::{Claim, Graph};
use tpl_model::{MOST_SPLITS, RuleSet};
use tpl_paths::TokenSet;
use tpl_token_leaf::links;
use tpl_trees::Tree;

/// Checks that the trees prove the claims of the graph, each of which can be asked of it, by the rules
/// for rows that speak of tokens too. No tree has more than `MOST_SPLITS` splits on a path
/// (`tpl_trees::is_within_limits` tests that).
///
/// The first fault is reported. `Shape` comes first, for the first claim that has it: it has no tree,
/// or a tree has no claim, a leaf doesn't have one row for each task, a split on a winner isn't on an
/// argument of a WhenAny task, or an id isn't the graph's. Then the claims are tested in order, the
/// leaves of a tree in order (yes, no; ran, canceled, faulted), and the rows of a leaf in order:
/// `NotClosed` names the first rule that the first row breaks. `ClaimNot` says that a leaf keeps the
/// rules and doesn't prove the claim.
///
/// Where there is no fault, each claim holds in every run, for all inputs and whatever comes from
/// outside. `Memory` says that an allocation was refused, and nothing of the certificate.
pub fn check_tokens(
    alloc: Global,
    graph: &Graph,
    claims: &[Claim],
    trees: &[Tree],
) -> Result<(), TokenFault>
    requires claims { All (Fits graph.now.graph) claims.now }
    requires trees { All (λ tree. height tree ≤ MOST_SPLITS) trees.now }
    ensures verdict { IsAnswer (token_verdict graph.now.graph claims.now trees.now) result }
    ensures accepted { IfOk result (λ u. AcceptsWithTokens graph.now.graph claims.now trees.now) }
    ensures refused { IfErr result (λ fault. AcceptsWithTokens graph.now.graph claims.now trees.now
        → fault ≡ faults.Memory) }
    ensures sound { IfOk result (λ u. (v : List Bool) (h : List Event) → Run graph.now.graph v h
        → Each (λ claim. Holds graph.now.graph claim v h) claims.now) }
{
    graph.valid_law();
    tpl_laws::token_verdict_is_right();
    tpl_laws::token_verdict_is_sound();
    verdict(alloc, graph, claims, trees)
}

/// The first fault: shapes first, then claim by claim.
fn verdict(alloc: Global, graph: &Graph, claims: &[Claim], trees: &[Tree]) -> Result<(), TokenFault>
    requires claims { All (Fits graph.now.graph) claims.now }
    requires trees { All (λ tree. height tree ≤ MOST_SPLITS) trees.now }
    ensures { IsAnswer (token_verdict graph.now.graph claims.now trees.now) result }
{
    match misfit(graph, claims, trees) {
        Some(fault) => Err(TokenFault::Fails(fault)),
        None => claims_fault(alloc, graph, claims, trees),
    }
}

/// The first claim whose tree fails.
fn claims_fault(
    alloc: Global,
    graph: &Graph,
    claims: &[Claim],
    trees: &[Tree],
) -> Result<(), TokenFault>
    requires claims { All (Fits graph.now.graph) claims.now }
    requires trees { All (λ tree. height tree ≤ MOST_SPLITS) trees.now }
    requires shapes { token_misfit graph.now.graph 1 claims.now trees.now ≡ None }
    ensures { IsAnswer (no_fault (token_claims_fault graph.now.graph 1 claims.now trees.now)) result }
{
    let below = Below::of_graph(graph);
    let linked = links(graph);
    for at in 0..claims.len() {
        claim_fault(
            alloc,
            graph,
            &below,
            &linked,
            at + 1,
            &claims[at],
            &trees[at],
        )?;
    }
    Ok(())
}

/// The first leaf of the claim's tree that fails. Where none does, the number after the last one.
fn claim_fault(
    alloc: Global,
    graph: &Graph,
    below: &Below,
    linked: &[TokenSet],
    number: usize,
    claim: &Claim,
    tree: &Tree,
) -> Result<usize, TokenFault>
    requires claim { Fits graph.now.graph claim.now }
    requires below { AreBelow graph.now.graph below.now }
    requires linked { AreLinks graph.now.graph linked.now }
    requires fits { IsTrue (token_fits graph.now.graph tree.now) }
    requires height { height tree.now ≤ MOST_SPLITS }
    ensures { FailingWithTokens (token_tree_fault graph.now.graph claim.now.body number
        (assumed_with_tokens graph.now.graph claim.now) 1 tree.now) (1 + leaves tree.now) result }
{
    let check = Check {
        graph,
        property: claim.body(),
        claim: number,
        below,
        linked,
    };
    let assumed = assumed_for(graph, claim, RuleSet::WithTokens);
    tree_fault(alloc, &check, &assumed, &[], 1, tree)
}
