//! Ids for the names of a tree.

ghost use Rattle.std.specs.Prelude.{◌≡◌, map, IfErr};
ghost use Rattle.tpl_cert.specs.Prelude.{number_in, numbers_in, row_in, row_of, rows_in, set_in, tree_in, tree_of};
ghost use Rattle.tpl_draft.specs.Prelude.{input_number, task_number, token_number};
ghost use Rattle.tpl_json.specs.Prelude.{Yields};
ghost use Rattle.tpl_json.specs.declared.miss.Miss.TheVariants as miss;
ghost use Rattle.tpl_trees.specs.Prelude.{tokens_in};

use crate::fault::TreeFault;
use crate::named::{NamedRow, NamedTree};
use std::alloc::Global;
use tpl_graph::Graph;
use tpl_json::{Miss, read_each};
use tpl_model::{InputId, MOST_TASKS, MOST_TOKENS, TaskId, TaskSet, TokenId};
use tpl_paths::TokenSet;
use tpl_trees::{Node, PlainRow, Row, Tree};

fn input_in(graph: &Graph, name: &str) -> Result<InputId, Miss<TreeFault>>
    ensures yields { Yields input_number result (number_in graph.now.names.inputs name.now) }
    ensures unknown { IfErr result (λ e. e ≡ miss.Wrong TreeFault.Unknown) }
{
    match graph.input(name) {
        None => Err(Miss::Wrong(TreeFault::Unknown)),
        Some(input) => Ok(input),
    }
}

fn task_in(graph: &Graph, name: &str) -> Result<TaskId, Miss<TreeFault>>
    ensures yields { Yields task_number result (number_in graph.now.names.tasks name.now) }
    ensures unknown { IfErr result (λ e. e ≡ miss.Wrong TreeFault.Unknown) }
{
    match graph.task(name) {
        None => Err(Miss::Wrong(TreeFault::Unknown)),
        Some(task) => Ok(task),
    }
}

fn token_in(graph: &Graph, name: &str) -> Result<TokenId, Miss<TreeFault>>
    ensures yields { Yields token_number result (number_in graph.now.names.tokens name.now) }
    ensures unknown { IfErr result (λ e. e ≡ miss.Wrong TreeFault.Unknown) }
{
    match graph.token(name) {
        None => Err(Miss::Wrong(TreeFault::Unknown)),
        Some(token) => Ok(token),
    }
}

fn tasks_in(graph: &Graph, names: &[&str]) -> Result<TaskSet, Miss<TreeFault>>
    ensures { Yields (λ s. s) result (set_in MOST_TASKS graph.now.names.tasks
        (map (λ s. s.now) names.now)) }
{
    graph.valid_law();
    tpl_model::sets_are_their_members();
    let mut set = TaskSet::empty();
    for name in names {
        let task = task_in(graph, name)?;
        set.insert(task);
    }
    Ok(set)
}

fn tokens_in(graph: &Graph, names: &[&str]) -> Result<TokenSet, Miss<TreeFault>>
    ensures { Yields tokens_in result (set_in MOST_TOKENS graph.now.names.tokens
        (map (λ s. s.now) names.now)) }
{
    graph.valid_law();
    let mut set = TokenSet::empty();
    for name in names {
        let token = token_in(graph, name)?;
        set.insert(token);
    }
    Ok(set)
}

fn chain_in(alloc: Global, graph: &Graph, names: &[&str]) -> Result<Vec<TaskId>, Miss<TreeFault>>
    ensures { Yields (λ v. map task_number v.items) result
        (numbers_in graph.now.names.tasks (map (λ s. s.now) names.now)) }
{
    read_each(alloc, names, |_, name| task_in(graph, name))
}

#[tactic(auto, unfolding(crate::specs::Naming::row_in))]
fn row_in(alloc: Global, graph: &Graph, row: &NamedRow) -> Result<Row, Miss<TreeFault>>
    ensures { Yields (λ r. r) result (row_in graph.now.names (row_of row.now)) }
{
    let before = tasks_in(graph, &row.before)?;
    let past = tasks_in(graph, &row.past)?;
    let chain = chain_in(alloc, graph, &row.chain)?;
    let asked = tokens_in(graph, &row.asked)?;
    let asks = tokens_in(graph, &row.asks)?;
    let plain = PlainRow::new(row.ends, row.runs, before, past, chain);
    Ok(Row::new(plain, asked, asks))
}

fn rows_in(alloc: Global, graph: &Graph, rows: &[NamedRow]) -> Result<Vec<Row>, Miss<TreeFault>>
    ensures { Yields (λ v. v.items) result
        (rows_in graph.now.names (map row_of rows.now)) }
{
    let mut found = Vec::with_capacity(alloc, rows.len())?;
    for row in rows {
        let row = row_in(alloc, graph, row)?;
        found.push(row)?;
    }
    Ok(found)
}

#[cycle(naming)]
fn inside_in(alloc: Global, graph: &Graph, tree: &NamedTree) -> Result<Box<Tree>, Miss<TreeFault>>
    ensures { Yields (λ b. b.value) result (tree_in graph.now.names (tree_of tree.now)) }
{
    let found = tree_in(alloc, graph, tree)?;
    Ok(Box::new(alloc, found)?)
}

/// The tree with ids in place of names.
#[cycle(naming)]
#[tactic(auto, unfolding(crate::specs::Naming::tree_in))]
pub(crate) fn tree_in(
    alloc: Global,
    graph: &Graph,
    tree: &NamedTree,
) -> Result<Tree, Miss<TreeFault>>
    ensures { Yields (λ t. t) result (tree_in graph.now.names (tree_of tree.now)) }
{
    match tree {
        NamedTree::SplitInput(name, first, second) => {
            let input = input_in(graph, name)?;
            let first = inside_in(alloc, graph, first)?;
            let second = inside_in(alloc, graph, second)?;
            Ok(Tree::new(Node::SplitInput(input, first, second)))
        }
        NamedTree::SplitEnd(name, ran, canceled, faulted) => {
            let task = task_in(graph, name)?;
            let ran = inside_in(alloc, graph, ran)?;
            let canceled = inside_in(alloc, graph, canceled)?;
            let faulted = inside_in(alloc, graph, faulted)?;
            Ok(Tree::new(Node::SplitEnd(task, ran, canceled, faulted)))
        }
        NamedTree::SplitWinner(name, other, first, second) => {
            let task = task_in(graph, name)?;
            let argument = task_in(graph, other)?;
            let first = inside_in(alloc, graph, first)?;
            let second = inside_in(alloc, graph, second)?;
            Ok(Tree::new(Node::SplitWinner(task, argument, first, second)))
        }
        NamedTree::Leaf(rows) => {
            let rows = rows_in(alloc, graph, rows)?;
            Ok(Tree::new(Node::Leaf(rows)))
        }
        NamedTree::Least => Ok(Tree::new(Node::Least)),
    }
}
