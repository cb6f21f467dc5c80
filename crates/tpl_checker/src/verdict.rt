//! The check of a certificate.

ghost use Rattle.std.specs.Prelude.{◌≡◌, ◌≤◌, ◌↔◌, List, Bool, IsOk, IfOk, IfErr, None, All};
ghost use Rattle.tpl_graph.specs.Prelude.{Fits};
ghost use Rattle.tpl_laws.specs.Prelude.{Each, IsFirstFault, claims_fault, misfit, no_fault, verdict};
ghost use Rattle.tpl_model.specs.Prelude.{Accepts, Holds, Run};
ghost use Rattle.tpl_model.specs.declared.event.Event.{Event};
ghost use Rattle.tpl_trees.specs.Prelude.{height};

use crate::below::Below;
use crate::given::assumed_for;
use crate::shape::misfit;
use crate::tree::tree_fault;
use tpl_graph::{Claim, Graph};
use tpl_model::{CertFault, MOST_SPLITS, RuleSet};
use tpl_trees::{Certificate, Tree};

/// Checks that the certificate proves the claims of the graph, each of which can be asked of it, by the
/// rules without tokens.
///
/// The first fault is reported. `Shape` comes first, for the first claim that has it: it has no tree,
/// or a tree has no claim, a leaf doesn't have one row for each task, or an id isn't the graph's. Then
/// the claims are tested in order, the leaves of a tree in order (yes, no; ran, canceled, faulted),
/// and the rows of a leaf in order: `NotClosed` names the first rule that the first row breaks.
/// `ClaimNot` says that a leaf keeps the rules and doesn't prove the claim.
///
/// Where there is no fault, each claim holds in every run, for all inputs and whatever comes from
/// outside. No memory is taken.
pub fn check(graph: &Graph, claims: &[Claim], certificate: &Certificate) -> Result<(), CertFault>
    requires claims { All (Fits graph.now.graph) claims.now }
    ensures verdict { result ≡ verdict graph.now.graph claims.now certificate.now }
    ensures accepted { IsOk result
        ↔ Accepts graph.now.graph claims.now certificate.now }
    ensures sound { IfOk result (λ u. (v : List Bool) (h : List Event) → Run graph.now.graph v h
        → Each (λ claim. Holds graph.now.graph claim v h) claims.now) }
    ensures first { IfErr result (λ fault. IsFirstFault graph.now.graph claims.now
        certificate.now fault) }
{
    graph.valid_law();
    tpl_laws::verdict_is_right();
    tpl_laws::verdict_is_sound();
    tpl_laws::fault_is_first();
    certificate.limits_law();
    verdict(graph, claims, certificate.trees())
}

/// The first fault: shapes first, then claim by claim.
fn verdict(graph: &Graph, claims: &[Claim], trees: &[Tree]) -> Result<(), CertFault>
    requires claims { All (Fits graph.now.graph) claims.now }
    requires trees { All (λ tree. height tree ≤ MOST_SPLITS) trees.now }
    ensures { result ≡ verdict graph.now.graph claims.now trees.now }
{
    match misfit(graph, claims, trees) {
        Some(fault) => Err(fault),
        None => claims_fault(graph, claims, trees),
    }
}

/// The first claim whose tree fails.
fn claims_fault(graph: &Graph, claims: &[Claim], trees: &[Tree]) -> Result<(), CertFault>
    requires claims { All (Fits graph.now.graph) claims.now }
    requires trees { All (λ tree. height tree ≤ MOST_SPLITS) trees.now }
    requires shapes { misfit graph.now.graph 1 claims.now trees.now ≡ None }
    ensures { result ≡ no_fault (claims_fault graph.now.graph 1 claims.now trees.now) }
{
    let below = Below::of_graph(graph);
    let mut last = None;
    for at in 0..claims.len() {
        let claim = &claims[at];
        let given = assumed_for(graph, claim, RuleSet::WithoutTokens);
        tree_fault(
            graph,
            claim.body(),
            at + 1,
            &below,
            &given,
            1,
            &mut last,
            &trees[at],
        )?;
    }
    Ok(())
}
