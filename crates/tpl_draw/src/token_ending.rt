//! How the tasks may end by the rows of a certificate that may speak of tokens and of winners, and may leave rows out.

ghost use Rattle.std.specs.Prelude.{◌≡◌, IfOk, length, All};
ghost use Rattle.tpl_checker.specs.Prelude.{AreBelow};
ghost use Rattle.tpl_draw.specs.Prelude.{JoinsEnds, endings, tree_ends};
ghost use Rattle.tpl_graph.specs.Prelude.{Fits};
ghost use Rattle.tpl_laws.specs.Prelude.{AcceptsTokenTree, AcceptsWithTokens, all_written, written};
ghost use Rattle.tpl_token_leaf.specs.Prelude.{AreLinks, leaf_assumed};
ghost use Rattle.tpl_model.specs.Prelude.{plain, row};
ghost use Rattle.tpl_token_check.specs.Prelude.{IsCheck, graph_in};

use crate::ending::{either, endings, leaf_ends};
use std::alloc::{AllocError, Global};
use tpl_checker::{Assumptions, Below, assumed_for};
use tpl_graph::{Claim, Graph};
use tpl_model::{Final, Finals, RuleSet};
use tpl_paths::TokenSet;
use tpl_token_check::{Check, WinnerSplit, links, rows_left_out, with_split};
use tpl_trees::{Node, Row, Tree};

/// How each task may end by the rows of a leaf, or in these other ways.
fn ends_in_rows(alloc: Global, rows: &[Row], others: &[Finals]) -> Result<Vec<Finals>, AllocError>
    ensures { IfOk result (λ found.
        JoinsEnds others.now (λ t. (row (plain rows.now) t).ends) found.items) }
{
    let mut found = Vec::new(alloc);
    for task in 0..others.len() {
        found.push(either(leaf_ends(rows, task), others[task]))?;
    }
    Ok(found)
}

/// How each task may end by the rows of a tree, written or left out, or in these other ways.
fn ends_in_tree(
    alloc: Global,
    check: &Check<'_>,
    assumed: &Assumptions,
    winners: &[WinnerSplit],
    tree: &Tree,
    others: &[Finals],
) -> Result<Vec<Finals>, AllocError>
    requires check { IsCheck check.now }
    requires accepted { AcceptsTokenTree (graph_in check.now) check.now.property
        (leaf_assumed assumed.now winners.now) tree.now }
    ensures { IfOk result (λ found. JoinsEnds others.now (tree_ends (written
        (graph_in check.now) check.now.property (leaf_assumed assumed.now winners.now) tree.now))
        found.items) }
{
    check.graph().valid_law();
    match tree.node() {
        Node::SplitInput(input, on_true, on_false) => {
            let yes = assumed.with_input(*input, true);
            let no = assumed.with_input(*input, false);
            let found = ends_in_tree(alloc, check, &no, winners, on_false, others)?;
            ends_in_tree(alloc, check, &yes, winners, on_true, found.as_slice())
        }
        Node::SplitEnd(task, ran, canceled, faulted) => {
            let on_ran = assumed.with_end(*task, Final::RanToCompletion);
            let on_canceled = assumed.with_end(*task, Final::Canceled);
            let on_faulted = assumed.with_end(*task, Final::Faulted);
            let found = ends_in_tree(alloc, check, &on_faulted, winners, faulted, others)?;
            let found = ends_in_tree(
                alloc,
                check,
                &on_canceled,
                winners,
                canceled,
                found.as_slice(),
            )?;
            ends_in_tree(alloc, check, &on_ran, winners, ran, found.as_slice())
        }
        Node::SplitWinner(task, argument, on_yes, on_no) => {
            let yes = with_split(alloc, winners, *task, *argument, true)?;
            let no = with_split(alloc, winners, *task, *argument, false)?;
            let found = ends_in_tree(alloc, check, assumed, no.as_slice(), on_no, others)?;
            ends_in_tree(
                alloc,
                check,
                assumed,
                yes.as_slice(),
                on_yes,
                found.as_slice(),
            )
        }
        Node::Leaf(rows) => ends_in_rows(alloc, rows, others),
        Node::Least => {
            let rows = rows_left_out(alloc, check, assumed, winners)?;
            ends_in_rows(alloc, rows.as_slice(), others)
        }
    }
}

/// How the tasks may end by the trees of these claims, with what all trees share.
fn ends_in_trees(
    alloc: Global,
    graph: &Graph,
    below: &Below,
    linked: &[TokenSet],
    claims: &[Claim],
    trees: &[Tree],
) -> Result<Vec<Finals>, AllocError>
    requires below { AreBelow graph.now.graph below.now }
    requires linked { AreLinks graph.now.graph linked.now }
    requires claims { All (Fits graph.now.graph) claims.now }
    requires accepted { AcceptsWithTokens graph.now.graph claims.now trees.now }
    ensures { IfOk result (λ found. found.items ≡ endings
        (all_written graph.now.graph claims.now trees.now) (length graph.now.graph.tasks)) }
{
    let Some((claim, more)) = claims.split_first() else {
        return endings(alloc, &[], graph.len());
    };
    let Some((tree, others)) = trees.split_first() else {
        return endings(alloc, &[], graph.len());
    };
    let found = ends_in_trees(alloc, graph, below, linked, more, others)?;
    let check = Check::new(graph, claim.body(), 1, below, linked);
    let assumed = assumed_for(graph, claim, RuleSet::WithTokens);
    ends_in_tree(alloc, &check, &assumed, &[], tree, found.as_slice())
}

/// How each task may end by the trees of an accepted certificate whose rows may speak of tokens too, and may be left out.
pub(crate) fn token_endings(
    alloc: Global,
    graph: &Graph,
    claims: &[Claim],
    trees: &[Tree],
) -> Result<Vec<Finals>, AllocError>
    requires claims { All (Fits graph.now.graph) claims.now }
    requires accepted { AcceptsWithTokens graph.now.graph claims.now trees.now }
    ensures { IfOk result (λ found. found.items ≡ endings
        (all_written graph.now.graph claims.now trees.now) (length graph.now.graph.tasks)) }
{
    let below = Below::of_graph(graph);
    let linked = links(graph);
    ends_in_trees(alloc, graph, &below, &linked, claims, trees)
}
