//! The first leaf of a tree that fails.

ghost use Rattle.std.specs.Prelude.{◌≡◌, ◌+◌, ◌<◌, ◌^◌, ◌++◌, ◌∷◌, [], IfOk, IsTrue};
ghost use Rattle.tpl_checker.specs.Prelude.{fault_in};
ghost use Rattle.tpl_laws.specs.Prelude.{at_leaf, token_fits, leaves, token_tree_fault};
ghost use Rattle.tpl_token_leaf.specs.Prelude.{leaf_assumed};
ghost use Rattle.tpl_model.specs.Prelude.{LeastLeaf, RowsLeaf};
ghost use Rattle.tpl_token_check.specs.Prelude.{IsCheck, FailingWithTokens, graph_in, least_fault};

use crate::case::Case;
use crate::check::Check;
use crate::error::TokenFault;
use crate::least::least_rows;
use crate::rows::child_ends;
use std::alloc::{AllocError, Global};
use tpl_checker::{Assumptions, LeafFault, placed};
use tpl_model::{Final, TaskId};
use tpl_token_leaf::{Leaf, WinnerSplit, leaf_fault, narrowed};
use tpl_trees::{Node, Row, Tree};

/// The first leaf of the tree that fails, of which the first has the number `first`. Where none does, the number after the
/// last one.
pub(crate) fn tree_fault(
    alloc: Global,
    check: &Check<'_>,
    assumed: &Assumptions,
    winners: &[WinnerSplit],
    first: usize,
    tree: &Tree,
) -> Result<usize, TokenFault>
    requires check { IsCheck check.now }
    requires fits { IsTrue (token_fits (graph_in check.now) tree.now) }
    requires room { first + leaves tree.now < 2 ^ 64 }
    ensures { FailingWithTokens (token_tree_fault (graph_in check.now) check.now.property check.now.claim
        (leaf_assumed assumed.now winners.now) first tree.now) (first + leaves tree.now)
        result }
{
    check.graph.valid_law();
    match tree.node() {
        Node::SplitInput(input, on_true, on_false) => {
            let yes = assumed.with_input(*input, true);
            let no = assumed.with_input(*input, false);
            let next = tree_fault(alloc, check, &yes, winners, first, on_true)?;
            tree_fault(alloc, check, &no, winners, next, on_false)
        }
        Node::SplitEnd(task, ran, canceled, faulted) => {
            let on_ran = assumed.with_end(*task, Final::RanToCompletion);
            let on_canceled = assumed.with_end(*task, Final::Canceled);
            let on_faulted = assumed.with_end(*task, Final::Faulted);
            let next = tree_fault(alloc, check, &on_ran, winners, first, ran)?;
            let next = tree_fault(alloc, check, &on_canceled, winners, next, canceled)?;
            tree_fault(alloc, check, &on_faulted, winners, next, faulted)
        }
        Node::SplitWinner(task, argument, on_yes, on_no) => {
            let yes = with_split(alloc, winners, *task, *argument, true)?;
            let no = with_split(alloc, winners, *task, *argument, false)?;
            let next = tree_fault(alloc, check, assumed, yes.as_slice(), first, on_yes)?;
            tree_fault(alloc, check, assumed, no.as_slice(), next, on_no)
        }
        Node::Leaf(rows) => leaf_at(alloc, check, assumed, winners, first, rows),
        Node::Least => least_leaf_at(alloc, check, assumed, winners, first),
    }
}

/// The splits, and one on whether the argument wins the task.
pub fn with_split(
    alloc: Global,
    splits: &[WinnerSplit],
    task: TaskId,
    argument: TaskId,
    wins: bool,
) -> Result<Vec<WinnerSplit>, AllocError>
    ensures { IfOk result (λ v. v.items ≡ splits.now ++ (record {
      task = task;
      argument = argument;
      wins = wins;
    }) ∷ []) }
{
    let mut all = splits.to_vec(alloc)?;
    all.push(WinnerSplit {
        task,
        argument,
        wins,
    })?;
    Ok(all)
}

/// The fault of a leaf, if it fails, else the number after its own.
fn leaf_at(
    alloc: Global,
    check: &Check<'_>,
    assumed: &Assumptions,
    winners: &[WinnerSplit],
    number: usize,
    rows: &[Row],
) -> Result<usize, TokenFault>
    requires check { IsCheck check.now }
    requires fits { IsTrue (token_fits (graph_in check.now) (RowsLeaf rows.now)) }
    requires room { number + 1 < 2 ^ 64 }
    ensures { FailingWithTokens (token_tree_fault (graph_in check.now) check.now.property check.now.claim
        (leaf_assumed assumed.now winners.now) number (RowsLeaf rows.now)) (number + 1) result }
{
    let ends = child_ends(alloc, rows)?;
    let narrowed = narrowed(check.graph, assumed);
    let leaf = Leaf {
        graph: check.graph,
        assumed: &narrowed,
        winners,
        rows,
        linked: check.linked,
        ends: ends.as_slice(),
        below: check.below,
    };
    answer(check.claim, number, leaf_fault(&leaf, check.property))
}

/// The same of a leaf without rows, which has the least ones.
fn least_leaf_at(
    alloc: Global,
    check: &Check<'_>,
    assumed: &Assumptions,
    winners: &[WinnerSplit],
    number: usize,
) -> Result<usize, TokenFault>
    requires check { IsCheck check.now }
    requires room { number + 1 < 2 ^ 64 }
    ensures { FailingWithTokens (token_tree_fault (graph_in check.now) check.now.property check.now.claim
        (leaf_assumed assumed.now winners.now) number LeastLeaf) (number + 1) result }
{
    let fault = least_leaf_fault(alloc, check, assumed, winners)?;
    answer(check.claim, number, fault)
}

/// The fault with the numbers of claim and leaf, or the number after the leaf's.
fn answer(claim: usize, number: usize, fault: Option<LeafFault>) -> Result<usize, TokenFault>
    requires { number + 1 < 2 ^ 64 }
    ensures { FailingWithTokens (at_leaf claim number (fault_in fault)) (number + 1) result }
{
    match fault {
        None => Ok(number + 1),
        Some(fault) => Err(TokenFault::Fails(placed(claim, number, fault))),
    }
}

/// The fault of a leaf without rows.
pub(crate) fn least_leaf_fault(
    alloc: Global,
    check: &Check<'_>,
    assumed: &Assumptions,
    winners: &[WinnerSplit],
) -> Result<Option<LeafFault>, AllocError>
    requires { IsCheck check.now }
    ensures { IfOk result (λ fault. fault_in fault ≡ least_fault (graph_in check.now)
        check.now.property (leaf_assumed assumed.now winners.now)) }
{
    let narrowed = narrowed(check.graph, assumed);
    let case = Case::new(check, &narrowed, winners);
    let rows = least_rows(alloc, &case)?;
    Ok(leaf_fault(&case.leaf(&rows), check.property))
}
