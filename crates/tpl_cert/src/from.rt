//! From a JSON value to a certificate tree.

ghost use Rattle.std.specs.Prelude.{◌≡◌, ◌⊎◌, Ok, Err, IfOk, IfErr};
ghost use Rattle.tpl_cert.specs.Prelude.{read_tree};
ghost use Rattle.tpl_cert.specs.declared.fault.TreeFault.TheVariants.{Memory};
ghost use Rattle.tpl_json.specs.Prelude.{view};

use crate::fault::TreeFault;
use crate::naming::tree_in;
use crate::read::named_tree;
use json::Value;
use std::alloc::Global;
use tpl_graph::Graph;
use tpl_model::RuleSet;
use tpl_trees::{Tree, is_within_limits};

/// The certificate tree that the value spells by the rules with the names of the graph, where it is within the limits:
/// at most 6 splits on each path and at most 16 tasks in a chain. Else the least `TreeFault` that applies anywhere in
/// the value, however deep it nests, or `Memory`. By the rules without tokens it says nothing of tokens and of winners.
pub fn tree_from(
    alloc: Global,
    rules: RuleSet,
    graph: &Graph,
    value: &Value<'_>,
) -> Result<Tree, TreeFault>
    ensures ok { IfOk result (λ t. read_tree rules graph.now.names (view value.now) ≡ Ok t) }
    ensures err { IfErr result (λ e. (e ≡ Memory)
        ⊎ (read_tree rules graph.now.names (view value.now) ≡ Err e)) }
{
    let named = named_tree(alloc, rules, value)?;
    let tree = tree_in(alloc, graph, &named)?;
    if is_within_limits(&tree) {
        Ok(tree)
    } else {
        Err(TreeFault::Limit)
    }
}
