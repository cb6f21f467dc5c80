//! The leaves of a certificate, and what their rows say.

use crate::rules::role;
use crate::words::{Said, ends_text, list_text, set_text, tokens_text};
use std::alloc::{AllocError, Global};
use tpl_causes::name;
use tpl_graph::{Graph, Role};
use tpl_model::{RuleSet, TaskId};
use tpl_reader::Document;
use tpl_trees::{Node, Row, Tree};

/// The rows of a leaf by the rules; by those with tokens they speak of tokens too, or are left out.
#[derive(Clone, Copy)]
pub(crate) enum Rows<'d> {
    Said(RuleSet, &'d [Row]),
    Least,
}

/// What stands in a tree: the leaves in their order, and its splits on winners.
#[derive(Drop)]
pub(crate) struct Parts<'d> {
    rules: RuleSet,
    leaves: Vec<Rows<'d>>,
    winners: Vec<(TaskId, TaskId)>,
}

impl<'d> Rows<'d> {
    /// How many there are; none where they are left out.
    pub(crate) fn count(self) -> Option<usize> {
        match self {
            Rows::Said(_, rows) => Some(rows.len()),
            Rows::Least => None,
        }
    }

    /// What the row of the task says.
    fn row(self, task: TaskId) -> Option<&'d Row> {
        match self {
            Rows::Said(_, rows) => rows.get(task.0 as usize),
            Rows::Least => None,
        }
    }

    /// What a row says of tokens; nothing where the graph has none, or rows don't speak of them.
    fn tokens_text(self, alloc: Global, graph: &Graph, row: &Row) -> Said {
        match self {
            Rows::Said(RuleSet::WithTokens, _) if graph.token_count() > 0 => {
                let asked = tokens_text(alloc, graph, row.asked())?;
                let asks = tokens_text(alloc, graph, row.asks())?;
                format!(in alloc; "; asked {asked}; asks {asks}")
            }
            _ => Ok(String::new(alloc)),
        }
    }
}

/// Adds the leaves and the winners of a tree.
fn add_tree<'d>(parts: &mut Parts<'d>, tree: &'d Tree) -> Result<(), AllocError> {
    match tree.node() {
        Node::SplitInput(_, on_true, on_false) => {
            add_tree(parts, on_true)?;
            add_tree(parts, on_false)
        }
        Node::SplitEnd(_, ran, canceled, faulted) => {
            add_tree(parts, ran)?;
            add_tree(parts, canceled)?;
            add_tree(parts, faulted)
        }
        Node::SplitWinner(task, argument, on_yes, on_no) => {
            parts.winners.push((*task, *argument))?;
            add_tree(parts, on_yes)?;
            add_tree(parts, on_no)
        }
        Node::Leaf(rows) => {
            let rules = parts.rules;
            Ok(parts.leaves.push(Rows::Said(rules, rows.as_slice()))?)
        }
        Node::Least => Ok(parts.leaves.push(Rows::Least)?),
    }
}

impl<'d> Parts<'d> {
    /// What stands in the tree of the claim of this number, counted from 1; nothing where it has none.
    pub(crate) fn of(
        alloc: Global,
        document: &'d Document,
        claim: usize,
    ) -> Result<Parts<'d>, AllocError> {
        let index = claim.saturating_sub(1);
        let mut parts = Parts {
            rules: document.version.rules(),
            leaves: Vec::new(alloc),
            winners: Vec::new(alloc),
        };
        if let Some(tree) = document.certificate.trees().get(index) {
            add_tree(&mut parts, tree)?;
        }
        Ok(parts)
    }

    /// The rows of each leaf.
    pub(crate) fn leaves(&self) -> &[Rows<'d>] {
        self.leaves.as_slice()
    }

    /// The rows of the leaf of this number, counted from 1; none where it has no such leaf.
    pub(crate) fn leaf(&self, number: usize) -> Rows<'d> {
        match self.leaves.get(number.saturating_sub(1)) {
            Some(rows) => *rows,
            None => Rows::Said(self.rules, &[]),
        }
    }

    /// The first split on a winner that can't be: of a task that is no WhenAny task, or has no such argument.
    pub(crate) fn strange_winner(&self, graph: &Graph) -> Option<(TaskId, TaskId)> {
        for split in &self.winners {
            let has_it = match role(graph, split.0) {
                Some(Role::Any(arguments)) => arguments.contains(&split.1),
                _ => false,
            };
            if !has_it {
                return Some(*split);
            }
        }
        None
    }
}

/// How many trees the certificate has.
pub(crate) fn tree_count(document: &Document) -> usize {
    document.certificate.trees().len()
}

/// What the row of the task says, as a line.
pub(crate) fn row_text(alloc: Global, graph: &Graph, rows: Rows<'_>, task: TaskId) -> Said {
    let Some(row) = rows.row(task) else {
        return Ok(String::new(alloc));
    };
    let tokens = rows.tokens_text(alloc, graph, row)?;
    let row = row.row();
    let task = name(graph, task);
    let ends = ends_text(row.ends());
    let runs = if row.runs() { "runs" } else { "doesn't run" };
    let before = set_text(alloc, graph, row.before())?;
    let past = set_text(alloc, graph, row.past())?;
    let chain = list_text(alloc, graph, row.chain())?;
    format!(in alloc;
        "the row of {task} says: it ends {ends}; it {runs}; before it {before}; past it {past}; chain {chain}{tokens}\n"
    )
}
