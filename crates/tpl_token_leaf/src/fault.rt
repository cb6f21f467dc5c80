//! The first fault of a leaf.

ghost use Rattle.std.specs.Prelude.{◌≡◌, IsTrue, length};
ghost use Rattle.tpl_checker.specs.Prelude.{fault_in};
ghost use Rattle.tpl_graph.specs.Prelude.{TasksOf};
ghost use Rattle.tpl_laws.specs.Prelude.{rows_fit, token_broken, token_first_broken, token_leaf_fault};
ghost use Rattle.tpl_token_leaf.specs.Prelude.{IsLeaf, assumed_in, graph_of, rows_in};
ghost use Rattle.tpl_model.specs.Prelude.{is_task, plain};

use crate::before::before;
use crate::begins::runs;
use crate::chain::chain;
use crate::ends::ends;
use crate::leaf::Leaf;
use crate::past::past;
use crate::property::proves;
use crate::ways_of::ways_to_end;
use tpl_checker::{LeafFault, past_rule};
use tpl_model::{Property, Rule, TaskId};

/// The first row that breaks a rule, or that the leaf doesn't prove the claim.
pub fn leaf_fault(leaf: &Leaf<'_>, property: Property) -> Option<LeafFault>
    requires leaf { IsLeaf leaf.now }
    requires ids { IsTrue (rows_fit (graph_of leaf.now) (plain (rows_in leaf.now))) }
    requires tasks { TasksOf (graph_of leaf.now) property }
    ensures { fault_in result ≡ token_leaf_fault (graph_of leaf.now) property (assumed_in leaf.now)
        (rows_in leaf.now) }
{
    if let Some(fault) = first_broken(leaf) {
        return Some(fault);
    }
    if !proves(leaf, property) {
        return Some(LeafFault::ProvesNot);
    }
    None
}

/// The first task whose row breaks a rule. It doesn't depend on what the leaf is to prove.
pub fn first_broken(leaf: &Leaf<'_>) -> Option<LeafFault>
    requires leaf { IsLeaf leaf.now }
    requires ids { IsTrue (rows_fit (graph_of leaf.now) (plain (rows_in leaf.now))) }
    ensures { fault_in result ≡ token_first_broken (graph_of leaf.now) (assumed_in leaf.now)
        (rows_in leaf.now) 0 (length (graph_of leaf.now).tasks) }
{
    leaf.graph.valid_law();
    for number in 0..leaf.graph.len() {
        let task = TaskId(number as u16);
        if let Some(rule) = broken(leaf, task) {
            return Some(LeafFault::Breaks(task, rule));
        }
    }
    None
}

/// The first rule that the row of the task breaks.
fn broken(leaf: &Leaf<'_>, task: TaskId) -> Option<Rule>
    requires leaf { IsLeaf leaf.now }
    requires ids { IsTrue (rows_fit (graph_of leaf.now) (plain (rows_in leaf.now))) }
    requires task { is_task (graph_of leaf.now) task.0 }
    ensures { result ≡ token_broken (graph_of leaf.now) (assumed_in leaf.now) (rows_in leaf.now)
        task.0 }
{
    if !runs(leaf, task) {
        return Some(Rule::K1);
    }
    let ways = ways_to_end(leaf, task);
    if !ends(leaf, task, &ways) {
        return Some(Rule::K2);
    }
    if !before(leaf, task) {
        return Some(Rule::K3);
    }
    if !past(leaf, task, &ways) {
        return Some(past_rule(leaf.graph, task));
    }
    if !chain(leaf, task) {
        return Some(Rule::K6);
    }
    None
}
