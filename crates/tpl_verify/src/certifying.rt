//! The search for a certificate of one claim.

ghost use Rattle.std.specs.Prelude.{◌≡◌, ◌≤◌, ◌∷◌, [], length, IfOk, IsTrue};
ghost use Rattle.tpl_graph.specs.Prelude.{Fits};
ghost use Rattle.tpl_model.specs.Prelude.{Tree};
ghost use Rattle.tpl_trees.specs.Prelude.{height};
ghost use Rattle.tpl_verify.specs.Prelude.{HoldsAlways, IsCertified, under};

use crate::limits::FEW_LEAVES;
use crate::question::Question;
use std::alloc::AllocError;
use std::slice;
use tpl_analyser::{Budget, Form, Gap, Unwatched, analyse_by};
use tpl_graph::Claim;
use tpl_model::{MOST_SPLITS, Property};
use tpl_trees::{Certificate, Node, Tree};

/// A certificate of one claim.
#[derive(Drop)]
pub(crate) struct Certified {
    pub(crate) certificate: Certificate,
    /// How many splits its tree has above the deepest leaf.
    pub(crate) splits: u8,
}

/// How many splits the tree has above its deepest leaf.
fn splits_of(tree: &Tree) -> u8
    requires { height tree.now ≤ MOST_SPLITS }
    ensures { result ≡ height tree.now }
{
    match tree.node() {
        Node::SplitInput(_, first, second) | Node::SplitWinner(_, _, first, second) => {
            splits_of(first).max(splits_of(second)) + 1
        }
        Node::SplitEnd(_, ran, canceled, faulted) => {
            let others = splits_of(canceled).max(splits_of(faulted));
            splits_of(ran).max(others) + 1
        }
        Node::Leaf(_) | Node::Least => 0,
    }
}

/// How many splits the only tree of a certificate has above its deepest leaf.
fn splits_in(certificate: &Certificate) -> u8
    requires { length certificate.now ≡ 1 }
    ensures { (tree : Tree) → certificate.now ≡ tree ∷ [] → result ≡ height tree }
{
    certificate.limits_law();
    splits_of(&certificate.trees()[0])
}

/// Searches a certificate of the claim by the rules within this budget. `NotFound` doesn't say that the claim is false.
/// `Memory` says that an allocation was refused.
pub(crate) fn certify(
    question: &Question<'_, '_>,
    budget: &mut Budget<Unwatched>,
) -> Result<Certified, Gap>
    requires { Fits question.now.graph.now.graph question.now.claim.now }
    ensures certified { IfOk result (λ it. IsCertified question.now.rules
        question.now.graph.now.graph question.now.claim.now it.certificate it.splits) }
    ensures shallow { IfOk result (λ it. it.splits ≤ question.now.depth) }
    ensures always { IfOk result (λ it. HoldsAlways question.now.graph.now.graph
        question.now.claim.now) }
{
    let (alloc, graph) = (question.alloc, question.graph);
    let (rules, depth) = (question.rules, question.depth);
    graph.valid_law();
    tpl_laws::sound_by_rules();
    let alone = slice::from_ref(question.claim);
    let depth = depth.splits();
    let certificate = analyse_by(alloc, graph, alone, rules, depth, Form::Slim, budget)?;
    let splits = splits_in(&certificate);
    Ok(Certified {
        certificate,
        splits,
    })
}

/// Nothing is given, and in a run that was seen the property isn't true: there is no certificate of it.
fn is_denied(question: &Question<'_, '_>, body: Property) -> bool {
    match question.seen {
        Some(seen) => question.claim.given().is_empty() && seen.denies(body),
        None => false,
    }
}

/// Under what the claim takes as given, this property holds in each run: a certificate says so, which a quick search finds.
pub(crate) fn is_certified(question: &Question<'_, '_>, body: Property) -> Result<bool, AllocError>
    ensures fits { IfOk result (λ found. IsTrue found
        → Fits question.now.graph.now.graph (under question.now.claim.now.given body)) }
    ensures always { IfOk result (λ found. IsTrue found
        → HoldsAlways question.now.graph.now.graph
        (under question.now.claim.now.given body)) }
{
    if is_denied(question, body) {
        return Ok(false);
    }
    let given = Vec::from_slice(question.alloc, question.claim.given())?;
    let other = Claim::new(given, body);
    if !other.fits(question.graph) {
        return Ok(false);
    }
    let likewise = Question {
        alloc: question.alloc,
        graph: question.graph,
        claim: &other,
        rules: question.rules,
        depth: question.depth,
        seen: question.seen,
    };
    let mut budget = Budget::new(Unwatched, FEW_LEAVES);
    match certify(&likewise, &mut budget) {
        Ok(_) => Ok(true),
        Err(Gap::NotFound { .. }) => Ok(false),
        Err(Gap::Memory) => Err(AllocError),
    }
}
