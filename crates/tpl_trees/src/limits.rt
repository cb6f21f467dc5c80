//! Whether certificate trees are within the limits.

ghost use Rattle.std.specs.Prelude.{◌≡◌, ◌≤◌, ◌↔◌, IsTrue, All};
ghost use Rattle.tpl_trees.specs.Prelude.{HasShortChain, HasShortChains, IsWithinLimits, is_within_limits, height};

use crate::row::Row;
use crate::tree::{Node, Tree};
use tpl_model::{MOST_IN_CHAIN, MOST_SPLITS};

fn is_no_higher(tree: &Tree, splits: u8) -> bool
    ensures { IsTrue result ↔ (height tree.now ≤ splits) }
{
    match tree.node() {
        Node::SplitInput(_, first, second) | Node::SplitWinner(_, _, first, second) => {
            splits > 0 && is_no_higher(first, splits - 1) && is_no_higher(second, splits - 1)
        }
        Node::SplitEnd(_, ran, canceled, faulted) => {
            splits > 0
                && is_no_higher(ran, splits - 1)
                && is_no_higher(canceled, splits - 1)
                && is_no_higher(faulted, splits - 1)
        }
        Node::Leaf(_) | Node::Least => true,
    }
}

fn have_short_chains(rows: &[Row]) -> bool
    ensures { IsTrue result ↔ All HasShortChain rows.now }
{
    rows.iter()
        .all(|row| row.row().chain().len() <= MOST_IN_CHAIN)
}

fn has_short_chains(tree: &Tree) -> bool
    ensures { IsTrue result ↔ HasShortChains tree.now }
{
    match tree.node() {
        Node::SplitInput(_, first, second) | Node::SplitWinner(_, _, first, second) => {
            has_short_chains(first) && has_short_chains(second)
        }
        Node::SplitEnd(_, ran, canceled, faulted) => {
            has_short_chains(ran) && has_short_chains(canceled) && has_short_chains(faulted)
        }
        Node::Leaf(rows) => have_short_chains(rows),
        Node::Least => true,
    }
}

/// Whether the tree has at most `MOST_SPLITS` splits on each path, and no chain of more than
/// `MOST_IN_CHAIN` tasks.
pub fn is_within_limits(tree: &Tree) -> bool
    ensures within { IsTrue result ↔ IsWithinLimits tree.now }
    ensures test { result ≡ is_within_limits tree.now }
{
    is_no_higher(tree, MOST_SPLITS) && has_short_chains(tree)
}
