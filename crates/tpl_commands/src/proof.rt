//! Certificates that a search finds, by the rules of a document.

ghost use Rattle.std.specs.Prelude.{◌≡◌, ◌≤◌, true, Ok, Err, IfOk, IfErr, Some, string_bytes, All};
ghost use Rattle.std.specs.List.{list_all};
ghost use Rattle.serde_json.specs.Read.{read};
ghost use Rattle.serde_json.specs.Written.{compact_text};
ghost use Rattle.tpl_analyser.specs.Prelude.{IsGap, IsOfFormBy};
ghost use Rattle.tpl_cert.specs.Prelude.{has_ids};
ghost use Rattle.tpl_commands.specs.Prelude.{IsRead, proof_data, rules_for, trees_of};
ghost use Rattle.tpl_graph.specs.Prelude.{Fits};
ghost use Rattle.tpl_laws.specs.Prelude.{AcceptsBy};
ghost use Rattle.tpl_model.specs.Prelude.{IsPlain};
ghost use Rattle.tpl_model.specs.declared.rule_set.RuleSet.TheVariants.{WithoutTokens};
ghost use Rattle.tpl_trees.specs.Prelude.{IsWithinLimits, height};

use std::alloc::{AllocError, Global};
use tpl_analyser::{Budget, Depth, Form, Gap, Watch, analyse_by};
use tpl_cert::{TreeToFault, trees_text};
use tpl_graph::{Claim, Graph};
use tpl_model::RuleSet;
use tpl_trees::{Certificate, Tree};

/// A certificate, with the rules by which it is judged and written.
#[derive(Drop)]
pub struct Proof {
    pub(crate) rules: RuleSet,
    pub(crate) certificate: Certificate,
}

impl Proof {
    /// Each of its trees is within the limits.
    pub fn limits_law(&self)
        ensures { All IsWithinLimits (trees_of self.now) }
    {
        self.certificate.limits_law();
    }

    /// Its trees.
    pub fn trees(&self) -> &[Tree]
        ensures { result.now ≡ trees_of self.now }
    {
        self.certificate.trees()
    }
}

/// Searches for a certificate of the claims by these rules, with at most so many splits on each path, within this budget
/// of leaves for each claim, and gives it in this form. `NotFound` names the first claim for which no tree is found; it
/// doesn't say that the claim is false. `Memory` says that an allocation was refused.
pub fn find_proof<W: Watch>(
    alloc: Global,
    graph: &Graph,
    claims: &[Claim],
    rules: RuleSet,
    depth: Depth,
    form: Form,
    budget: &mut Budget<W>,
) -> Result<Proof, Gap>
    requires { All (Fits graph.now.graph) claims.now }
    ensures rules { IfOk result (λ proof. rules_for proof ≡ rules) }
    ensures accepted { IfOk result (λ proof.
        AcceptsBy rules graph.now.graph claims.now (trees_of proof)) }
    ensures splits { IfOk result (λ proof. All (λ tree. height tree ≤ depth) (trees_of proof)) }
    ensures form { IfOk result (λ proof. IsOfFormBy rules form claims.now (trees_of proof)) }
    ensures gap { IfErr result (IsGap rules graph.now.graph claims.now depth) }
{
    let splits = depth.splits();
    let certificate = analyse_by(alloc, graph, claims, rules, splits, form, budget)?;
    Ok(Proof { rules, certificate })
}

/// The text that was written; out of memory is the only fault.
fn written(text: Result<String, TreeToFault>) -> Result<String, AllocError>
    requires { text ≡ Err TreeToFault.Unknown → ⊥ }
    ensures { IfOk result (λ written. text ≡ Ok written) }
{
    match text {
        Ok(text) => Ok(text),
        Err(TreeToFault::Memory) => Err(AllocError),
        Err(TreeToFault::Unknown) => unreachable!(),
    }
}

/// The trees as one array.
pub(crate) fn array_text(alloc: Global, graph: &Graph, proof: &Proof) -> Result<String, AllocError>
    requires ids { list_all (has_ids graph.now.names) (trees_of proof.now) ≡ true }
    requires plain { rules_for proof.now ≡ WithoutTokens → All IsPlain (trees_of proof.now) }
    ensures written { IfOk result (λ text.
        string_bytes text ≡ compact_text (proof_data graph.now.names proof.now)) }
    ensures read { IfOk result (λ _.
        All (IsRead (rules_for proof.now) graph.now.names) (trees_of proof.now)) }
    ensures value { IfOk result (λ text.
        read (string_bytes text) ≡ Some (proof_data graph.now.names proof.now)) }
{
    proof.certificate.limits_law();
    written(trees_text(alloc, graph, proof.rules, proof.certificate.trees()))
}
