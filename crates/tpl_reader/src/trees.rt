//! The trees of a certificate.

ghost use Rattle.std.specs.Prelude.{◌≡◌, map, IfOk, All};
ghost use Rattle.tpl_json.specs.Prelude.{Yields, view};
ghost use Rattle.tpl_reader.specs.Prelude.{numbered_tree, trees_in};
ghost use Rattle.tpl_trees.specs.Prelude.{IsWithinLimits};

use json::Value;
use std::alloc::Global;
use tpl_cert::{TreeFault, tree_from};
use tpl_graph::Graph;
use tpl_json::{Miss, read_each};
use tpl_model::RuleSet;
use tpl_trees::Tree;

/// The tree that was read, or what is wrong with it beside its number.
fn tree_at<T: Drop>(
    number: usize,
    read: Result<T, TreeFault>,
) -> Result<T, Miss<(usize, TreeFault)>>
    ensures { result ≡ numbered_tree number read }
{
    match read {
        Ok(tree) => Ok(tree),
        Err(TreeFault::Memory) => Err(Miss::Memory),
        Err(fault) => Err(Miss::Wrong((number, fault))),
    }
}

/// The trees that the values spell by the rules, with the names of the graph, as far as the first that isn't read.
pub(crate) fn trees_in(
    alloc: Global,
    rules: RuleSet,
    graph: &Graph,
    values: &[Value<'_>],
) -> Result<Vec<Tree>, Miss<(usize, TreeFault)>>
    ensures yields { Yields (λ v. v.items) result
        (trees_in rules graph.now.names (map view values.now)) }
    ensures limits { IfOk result (λ v. All IsWithinLimits v.items) }
{
    read_each(
        alloc,
        values,
        |number, value| tree_at(number, tree_from(alloc, rules, graph, value)),
    )
}
