//! Certificate trees.

ghost use Rattle.std.specs.Prelude.{◌≡◌};
ghost use Rattle.tpl_trees.specs.Prelude.{node_of};

use crate::row::Row;
use std::marker::Model;
use tpl_model::{InputId, TaskId};

/// A certificate tree. Contracts see what it says, apart from how it lies in memory.
#[cycle(tree)]
#[derive(Drop)]
pub struct Tree {
    node: Node,
}

/// The top of a tree.
#[cycle(tree)]
#[derive(Drop)]
pub enum Node {
    /// The trees for an input that is true, and that is false.
    SplitInput(InputId, Box<Tree>, Box<Tree>),
    /// The trees for a task that ran to completion, that was canceled, and that faulted.
    SplitEnd(TaskId, Box<Tree>, Box<Tree>, Box<Tree>),
    /// The trees for a WhenAny task that this argument wins, and that another one does.
    SplitWinner(TaskId, TaskId, Box<Tree>, Box<Tree>),
    /// A row for each task, in declared order.
    Leaf(Vec<Row>),
    /// No rows: the check works out the least ones that the splits leave.
    Least,
}

impl Model for Tree {
    ghost use Rattle.tpl_model.specs.Certificate as certificate;
    ghost use Rattle.tpl_trees.specs.Coding.{tree_code};

    ghost Value = { certificate.Tree };

    ghost coded = { tree_code };

    ghost use Rattle.tpl_trees.specs.Trees.{node_of};

    ghost view = { λ t. node_of t.node };

    ghost use Rattle.tpl_trees.specs.Heights.{height};

    ghost size = { height };

    ghost use Rattle.tpl_trees.specs.Falls.{deepest_le-height};
    ghost use Rattle.std.proofs.Common.{arith};

    ghost size_decreases = { λ t _. omega (arith, deepest_le-height t.node) };
}

impl Tree {
    /// The tree with this top.
    pub fn new(node: Node) -> Tree
        ensures { result ≡ node_of node }
    {
        Tree { node }
    }

    /// Its top.
    pub fn node(&self) -> &Node
        ensures { self.now ≡ node_of result.now }
    {
        &self.node
    }
}
