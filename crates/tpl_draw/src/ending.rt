//! How the tasks may end by the rows of a certificate.

ghost use Rattle.std.specs.Prelude.{◌≡◌, IfOk, length, All};
ghost use Rattle.tpl_draw.specs.Prelude.{EndingsAreTrue, either, endings, ends, no_ends, tree_ends};
ghost use Rattle.tpl_graph.specs.Prelude.{Fits};
ghost use Rattle.tpl_laws.specs.ByRules.{written_by};
ghost use Rattle.tpl_laws.specs.Prelude.{AcceptsBy};
ghost use Rattle.tpl_model.specs.Prelude.{plain, row};

use crate::token_ending::token_endings;
use std::alloc::{AllocError, Global};
use tpl_graph::{Claim, Graph};
use tpl_model::{Finals, RuleSet};
use tpl_trees::{Node, Row, Tree};

/// No way to end.
pub(crate) fn no_ends() -> Finals
    ensures { result ≡ no_ends }
{
    Finals {
        ran: false,
        canceled: false,
        faulted: false,
    }
}

/// The members of either set.
pub(crate) fn either(one: Finals, other: Finals) -> Finals
    ensures { result ≡ either one other }
{
    Finals {
        ran: one.ran || other.ran,
        canceled: one.canceled || other.canceled,
        faulted: one.faulted || other.faulted,
    }
}

/// How a task may end by its row; in no way past the last row.
pub(crate) fn leaf_ends(rows: &[Row], task: usize) -> Finals
    ensures { result ≡ (row (plain rows.now) task).ends }
{
    if task < rows.len() {
        rows[task].row().ends()
    } else {
        no_ends()
    }
}

/// How a task may end by the rows of one leaf of the tree or another; a leaf without rows rules nothing out.
fn tree_ends(tree: &Tree, task: usize) -> Finals
    ensures { result ≡ tree_ends tree.now task }
{
    match tree.node() {
        Node::SplitInput(_, first, second) | Node::SplitWinner(_, _, first, second) => {
            either(tree_ends(first, task), tree_ends(second, task))
        }
        Node::SplitEnd(_, ran, canceled, faulted) => {
            let others = either(tree_ends(canceled, task), tree_ends(faulted, task));
            either(tree_ends(ran, task), others)
        }
        Node::Leaf(rows) => leaf_ends(rows, task),
        Node::Least => Finals {
            ran: true,
            canceled: true,
            faulted: true,
        },
    }
}

/// How a task may end by one tree or another.
fn ends(trees: &[Tree], task: usize) -> Finals
    ensures { result ≡ ends trees.now task }
{
    let mut found = no_ends();
    for tree in trees {
        found = either(found, tree_ends(tree, task));
    }
    found
}

/// How each of this many tasks may end by the trees of a certificate.
pub(crate) fn endings(
    alloc: Global,
    trees: &[Tree],
    tasks: usize,
) -> Result<Vec<Finals>, AllocError>
    ensures { IfOk result (λ found. found.items ≡ endings trees.now tasks) }
{
    let mut found = Vec::new(alloc);
    for task in 0..tasks {
        found.push(ends(trees, task))?;
    }
    Ok(found)
}

/// How each task may end by the trees of a certificate that the rules accept, with the rows that its leaves leave out.
pub fn endings_by(
    alloc: Global,
    rules: RuleSet,
    graph: &Graph,
    claims: &[Claim],
    trees: &[Tree],
) -> Result<Vec<Finals>, AllocError>
    requires claims { All (Fits graph.now.graph) claims.now }
    requires accepted { AcceptsBy rules graph.now.graph claims.now trees.now }
    ensures { IfOk result (λ found. found.items ≡ endings
        (written_by rules graph.now.graph claims.now trees.now) (length graph.now.graph.tasks)) }
{
    match rules {
        RuleSet::WithoutTokens => endings(alloc, trees, graph.len()),
        RuleSet::WithTokens => token_endings(alloc, graph, claims, trees),
    }
}

/// Where a certificate is accepted, a task ends as one of its rows says, in each run of which what one of the claims
/// gives is true.
pub fn endings_are_true()
    ensures { EndingsAreTrue }
{
    tpl_laws::some_leaf_is_true();
    tpl_laws::some_token_leaf_is_true();
}
