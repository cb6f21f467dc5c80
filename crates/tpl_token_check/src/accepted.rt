//! Whether leaves and trees are accepted.

ghost use Rattle.std.specs.Prelude.{◌≡◌, ◌≤◌, ◌↔◌, [], IfOk, IsTrue};
ghost use Rattle.tpl_laws.specs.Prelude.{AcceptsTokenTree, least_rows};
ghost use Rattle.tpl_token_leaf.specs.Prelude.{leaf_assumed};
ghost use Rattle.tpl_model.specs.Prelude.{LeastLeaf, narrowed};
ghost use Rattle.tpl_trees.specs.Prelude.{height};
ghost use Rattle.tpl_token_check.specs.Prelude.{IsCheck, graph_in};

use crate::case::Case;
use crate::check::Check;
use crate::error::TokenFault;
use crate::least::least_rows;
use crate::rows::Rows;
use crate::shape::fits;
use crate::tree::{least_leaf_fault, tree_fault};
use std::alloc::{AllocError, Global};
use tpl_checker::Assumptions;
use tpl_model::MOST_SPLITS;
use tpl_token_leaf::{WinnerSplit, narrowed};
use tpl_trees::{Row, Tree};

/// Whether a leaf that leaves its rows out is accepted, where its splits left this.
pub fn least_leaf_proves(
    alloc: Global,
    check: &Check<'_>,
    assumed: &Assumptions,
    winners: &[WinnerSplit],
) -> Result<bool, AllocError>
    requires { IsCheck check.now }
    ensures { IfOk result (λ b. IsTrue b ↔ AcceptsTokenTree (graph_in check.now) check.now.property
        (leaf_assumed assumed.now winners.now) LeastLeaf) }
{
    check.graph.valid_law();
    tpl_laws::token_leaf_is_right();
    match least_leaf_fault(alloc, check, assumed, winners)? {
        None => Ok(true),
        Some(_) => Ok(false),
    }
}

/// The rows of a leaf that leaves them out, where its splits left this.
pub fn rows_left_out(
    alloc: Global,
    check: &Check<'_>,
    assumed: &Assumptions,
    winners: &[WinnerSplit],
) -> Result<Vec<Row>, AllocError>
    requires { IsCheck check.now }
    ensures { IfOk result (λ v. v.items ≡ least_rows (graph_in check.now)
        (narrowed (graph_in check.now) (leaf_assumed assumed.now winners.now))
        check.now.property) }
{
    let narrowed = narrowed(check.graph, assumed);
    let case = Case::new(check, &narrowed, winners);
    let Rows { rows, .. } = least_rows(alloc, &case)?;
    Ok(rows)
}

/// Whether a tree is accepted that splits what is assumed. It has at most `MOST_SPLITS` splits on a path.
pub fn accepts_tree(
    alloc: Global,
    check: &Check<'_>,
    assumed: &Assumptions,
    tree: &Tree,
) -> Result<bool, AllocError>
    requires check { IsCheck check.now }
    requires height { height tree.now ≤ MOST_SPLITS }
    ensures { IfOk result (λ b. IsTrue b ↔ AcceptsTokenTree (graph_in check.now) check.now.property
        (leaf_assumed assumed.now []) tree.now) }
{
    check.graph.valid_law();
    tpl_laws::token_tree_is_right();
    if !fits(check.graph, tree) {
        return Ok(false);
    }
    match tree_fault(alloc, check, assumed, &[], 1, tree) {
        Ok(_) => Ok(true),
        Err(TokenFault::Fails(_)) => Ok(false),
        Err(TokenFault::Memory) => Err(AllocError),
    }
}
