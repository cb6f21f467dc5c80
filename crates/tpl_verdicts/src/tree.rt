//! The certificate of a claim that holds, as documents have it.

ghost use Rattle.std.specs.Prelude.{◌≡◌, ◌∷◌, [], Err, IfOk, Ok, Some, string_bytes, true, All};
ghost use Rattle.std.specs.List.{list_all};
ghost use Rattle.serde_json.specs.Data.{Data, array};
ghost use Rattle.serde_json.specs.Read.{read};
ghost use Rattle.serde_json.specs.View.{items_of, view};
ghost use Rattle.tpl_cert.specs.Prelude.{certificate_data, has_ids};
ghost use Rattle.tpl_commands.specs.Prelude.{IsRead};
ghost use Rattle.tpl_model.specs.Prelude.{IsPlain, Tree};
ghost use Rattle.tpl_model.specs.declared.rule_set.RuleSet.TheVariants.{WithoutTokens};
ghost use Rattle.tpl_trees.specs.Prelude.{IsWithinLimits};
ghost use Rattle.tpl_verdicts.specs.Prelude.{IsTreeData};
ghost use Rattle.tpl_verify.specs.Prelude.{IsCertified};

use serde_json::Value;
use std::alloc::{AllocError, Global};
use tpl_cert::{TreeToFault, trees_text};
use tpl_graph::{Claim, Graph};
use tpl_model::RuleSet;
use tpl_trees::{Certificate, Tree};

/// What was written of trees; out of memory is the only fault.
fn written(text: Result<String, TreeToFault>) -> Result<String, AllocError>
    requires { text ≡ Err TreeToFault.Unknown → ⊥ }
    ensures { IfOk result (λ written. text ≡ Ok written) }
{
    match text {
        Ok(text) => Ok(text),
        Err(TreeToFault::Memory) => Err(AllocError),
        Err(TreeToFault::Unknown) => unreachable!(),
    }
}

/// The text of the trees as one array.
fn array_text(
    alloc: Global,
    graph: &Graph,
    rules: RuleSet,
    trees: &[Tree],
) -> Result<String, AllocError>
    requires ids { list_all (has_ids graph.now.names) trees.now ≡ true }
    requires plain { rules ≡ WithoutTokens → All IsPlain trees.now }
    requires within { All IsWithinLimits trees.now }
    ensures value { IfOk result (λ text.
        read (string_bytes text) ≡ Some (certificate_data rules graph.now.names trees.now)) }
    ensures read { IfOk result (λ _. All (IsRead rules graph.now.names) trees.now) }
{
    written(trees_text(alloc, graph, rules, trees))
}

/// The trees as one array.
fn trees_value(
    alloc: Global,
    graph: &Graph,
    rules: RuleSet,
    trees: &[Tree],
) -> Result<Value, AllocError>
    requires ids { list_all (has_ids graph.now.names) trees.now ≡ true }
    requires plain { rules ≡ WithoutTokens → All IsPlain trees.now }
    requires within { All IsWithinLimits trees.now }
    ensures value { IfOk result (λ v.
        view v ≡ certificate_data rules graph.now.names trees.now) }
    ensures read { IfOk result (λ _. All (IsRead rules graph.now.names) trees.now) }
{
    let text = array_text(alloc, graph, rules, trees)?;
    match Value::from_str(alloc, text.as_str()) {
        Ok(value) => Ok(value),
        Err(error) if error.is_memory() => Err(AllocError),
        Err(_) => unreachable!(),
    }
}

/// The only value of an array.
fn only(value: Value) -> Value
    requires { (first : Data) × (view value ≡ array (items_of (first ∷ []))) }
    ensures { (first : Data) → view value ≡ array (items_of (first ∷ [])) → view result ≡ first }
{
    match value {
        Value::Array(mut values) => match values.pop() {
            Some(first) => first,
            None => unreachable!(),
        },
        _ => unreachable!(),
    }
}

/// What follows for the trees of an accepted certificate of one claim: they are one tree, which can be written.
fn accepted_law(graph: &Graph, claim: &Claim, rules: RuleSet, certificate: &Certificate, splits: u8)
    requires { IsCertified rules graph.now.graph claim.now certificate.now splits }
    ensures ids { list_all (has_ids graph.now.names) certificate.now ≡ true }
    ensures plain { rules ≡ WithoutTokens → All IsPlain certificate.now }
    ensures one { (tree : Tree) × (certificate.now ≡ tree ∷ []) }
{
    let _ = (rules, splits);
    let _ = claim;
    let _ = certificate;
    graph.valid_law();
    tpl_laws::tokens_accept_more();
}

/// The tree of a claim's certificate as a document has it among its certificates. Out of memory is the only error.
pub(crate) fn tree_value(
    alloc: Global,
    graph: &Graph,
    claim: &Claim,
    rules: RuleSet,
    certificate: &Certificate,
    splits: u8,
) -> Result<Value, AllocError>
    requires { IsCertified rules graph.now.graph claim.now certificate.now splits }
    ensures { IfOk result (λ v.
        IsTreeData rules graph.now.names certificate.now (view v)) }
{
    accepted_law(graph, claim, rules, certificate, splits);
    certificate.limits_law();
    let trees = trees_value(alloc, graph, rules, certificate.trees())?;
    Ok(only(trees))
}
