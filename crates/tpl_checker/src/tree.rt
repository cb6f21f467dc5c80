//! The first leaf of a tree that fails.

ghost use Rattle.std.specs.Prelude.{◌≡◌, ◌+◌, ◌<◌, ◌^◌, IfSome, IsTrue, Some, length};
ghost use Rattle.tpl_checker.specs.Prelude.{AreBelow, Failing, IsLast, assumed_of, why};
ghost use Rattle.tpl_graph.specs.Prelude.{TasksOf};
ghost use Rattle.tpl_laws.specs.Prelude.{at_leaf, fits, leaves, rows_fit, tree_fault};
ghost use Rattle.tpl_model.specs.Prelude.{RowsLeaf, plain};

use crate::assumptions::Assumptions;
use crate::below::Below;
use crate::last::{LastLeaf, bodies_of};
use crate::leaf::{LeafFault, leaf_fault};
use tpl_graph::Graph;
use tpl_model::{CertFault, Final, Property};
use tpl_trees::{Node, Row, Tree};

/// The first leaf of the tree that fails, of which the first has the number `first`. Where none
/// does, the number after the last one.
pub(crate) fn tree_fault<'c>(
    graph: &Graph,
    property: Property,
    claim: usize,
    below: &Below,
    assumed: &Assumptions,
    first: usize,
    last: &mut Option<LastLeaf<'c>>,
    tree: &'c Tree,
) -> Result<usize, CertFault>
    requires tasks { TasksOf graph.now.graph property }
    requires below { AreBelow graph.now.graph below.now }
    requires fits { IsTrue (fits graph.now.graph tree.now) }
    requires room { first + leaves tree.now < 2 ^ 64 }
    requires last { IfSome last.old (IsLast graph.now.graph) }
    ensures fault { Failing
        (tree_fault graph.now.graph property claim (assumed_of assumed.now) first tree.now)
        (first + leaves tree.now) result }
    ensures last { IfSome last.new (IsLast graph.now.graph) }
{
    graph.valid_law();
    match tree.node() {
        Node::SplitInput(input, on_true, on_false) => {
            let yes = assumed.with_input(*input, true);
            let no = assumed.with_input(*input, false);
            let next = tree_fault(graph, property, claim, below, &yes, first, last, on_true)?;
            tree_fault(graph, property, claim, below, &no, next, last, on_false)
        }
        Node::SplitEnd(task, ran, canceled, faulted) => {
            let on_ran = assumed.with_end(*task, Final::RanToCompletion);
            let on_canceled = assumed.with_end(*task, Final::Canceled);
            let on_faulted = assumed.with_end(*task, Final::Faulted);
            let next = tree_fault(graph, property, claim, below, &on_ran, first, last, ran)?;
            let next = tree_fault(
                graph,
                property,
                claim,
                below,
                &on_canceled,
                next,
                last,
                canceled,
            )?;
            tree_fault(
                graph,
                property,
                claim,
                below,
                &on_faulted,
                next,
                last,
                faulted,
            )
        }
        Node::SplitWinner(..) | Node::Least => unreachable!(),
        Node::Leaf(rows) => leaf_at(graph, property, claim, below, assumed, first, last, rows),
    }
}

/// The fault of a leaf, if it fails, else the number after its own.
fn leaf_at<'c>(
    graph: &Graph,
    property: Property,
    claim: usize,
    below: &Below,
    assumed: &Assumptions,
    leaf: usize,
    last: &mut Option<LastLeaf<'c>>,
    rows: &'c [Row],
) -> Result<usize, CertFault>
    requires tasks { TasksOf graph.now.graph property }
    requires below { AreBelow graph.now.graph below.now }
    requires rows { length (plain rows.now) ≡ length graph.now.graph.tasks }
    requires ids { IsTrue (rows_fit graph.now.graph (plain rows.now)) }
    requires room { leaf + 1 < 2 ^ 64 }
    requires last { IfSome last.old (IsLast graph.now.graph) }
    ensures fault { Failing (tree_fault graph.now.graph property claim (assumed_of assumed.now) leaf
        (RowsLeaf rows.now)) (leaf + 1) result }
    ensures last { IfSome last.new (IsLast graph.now.graph) }
{
    let bodies = bodies_of(graph, last, assumed, rows);
    match leaf_fault(graph, property, assumed, below, rows, &bodies) {
        None => Ok(leaf + 1),
        Some(fault) => Err(placed(claim, leaf, fault)),
    }
}

/// The fault of a leaf, with the numbers of claim and leaf.
pub fn placed(claim: usize, leaf: usize, fault: LeafFault) -> CertFault
    ensures { Some result ≡ at_leaf claim leaf (Some (why fault)) }
{
    match fault {
        LeafFault::Breaks(task, rule) => CertFault::NotClosed {
            claim,
            leaf,
            task,
            rule,
        },
        LeafFault::ProvesNot => CertFault::ClaimNot { claim, leaf },
    }
}
