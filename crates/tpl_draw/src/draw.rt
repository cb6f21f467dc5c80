//! The picture of a graph.

ghost use Rattle.std.specs.Prelude.{◌≡◌, ◌++◌, length, flat_map, IfOk, OnOk, string_bytes, option_map};
ghost use Rattle.tpl_draft.specs.Prelude.{token_number};
ghost use Rattle.tpl_draw.specs.Prelude.{below, classes, closing, edge_line, edges, legend, lines_below, mark, opening, picture, task_lines, task_name, task_node, token_line, token_line_at};
ghost use Rattle.tpl_graph.specs.Prelude.{kind_of};
ghost use Rattle.tpl_model.specs.Prelude.{is_task, kind};

use crate::edge::Edge;
use crate::edges::{edges, is_crowded};
use crate::language::Language;
use crate::legend::legend;
use crate::lines::{edge_line, name_of, task_node, token_node};
use crate::showing::{add_status_line, border_line, has_border, line_break, mark};
use crate::shown::Shown;
use std::alloc::{AllocError, Global};
use tpl_graph::Graph;
use tpl_model::{TaskId, TokenId};

/// What stands before the first node.
fn opening(language: Language) -> &'static str
    ensures { result.now ≡ opening language }
{
    match language {
        Language::Mermaid => "flowchart LR\n",
        Language::Dot => {
            "digraph taskgraph {\n  graph [rankdir=LR, ranksep=0.4, nodesep=0.3];\n  node [fontname=\"sans-serif\", fontsize=11, height=0.3, margin=\"0.08,0.04\"];\n  edge [fontname=\"sans-serif\", fontsize=9, arrowsize=0.7];\n"
        }
    }
}

/// The classes of how tasks may end, or of how they stand in a run.
fn classes(shown: &Shown) -> &'static str
    ensures { result.now ≡ classes shown.now }
{
    match shown {
        Shown::Endings(_) => {
            "  classDef token fill:#eee,stroke:#888\n  classDef canceled fill:#f0c848,color:#000\n  classDef faulted fill:#ee7560,color:#000\n  classDef canceled_or_faulted fill:#c596da,color:#000\n  classDef ran_or_canceled fill:#fff8d0,color:#000\n  classDef ran_or_faulted fill:#ffdfd0,color:#000\n  classDef any_end fill:#e0d0ec,color:#000\n"
        }
        Shown::Run(_) => {
            "  classDef token fill:#eee,stroke:#888\n  classDef canceled fill:#f0c848,color:#000\n  classDef faulted fill:#ee7560,color:#000\n  classDef ran fill:#d5ebd0,color:#000\n  classDef running fill:#cfe2f7,color:#000\n"
        }
    }
}

/// What stands after the last edge and the legend.
fn closing(language: Language, shown: &Shown) -> &'static str
    ensures { result.now ≡ closing language shown.now }
{
    match language {
        Language::Mermaid => classes(shown),
        Language::Dot => "}\n",
    }
}

/// Adds the node of each token.
fn add_tokens(
    text: &mut String,
    alloc: Global,
    language: Language,
    graph: &Graph,
) -> Result<(), AllocError>
    ensures { OnOk result (string_bytes text.new ≡ string_bytes text.old
        ++ below (token_line language graph.now) (length graph.now.graph.tokens)) }
{
    for number in 0..graph.token_count() {
        let name = name_of(graph, true, number as u16);
        text.push_str(token_node(alloc, language, name)?.as_str())?;
    }
    Ok(())
}

/// A task's own token as a line of its node, where more than eight tasks have it.
fn token_line_at(
    alloc: Global,
    language: Language,
    graph: &Graph,
    own: Option<TokenId>,
) -> Result<String, AllocError>
    ensures { IfOk result (λ text. string_bytes text
        ≡ token_line_at language graph.now (option_map token_number own)) }
{
    match own {
        Some(token) if is_crowded(graph, token) => {
            let break_line = line_break(language);
            let name = name_of(graph, true, u16::from(token.0));
            format!(in alloc; "{break_line}token {name}")
        }
        _ => Ok(String::new(alloc)),
    }
}

/// What stands below the kind of a task at its node: its token and its status.
fn lines_below(
    alloc: Global,
    language: Language,
    graph: &Graph,
    shown: &Shown,
    task: TaskId,
) -> Result<String, AllocError>
    requires { is_task graph.now.graph task.0 }
    ensures { IfOk result (λ text. string_bytes text
        ≡ lines_below language graph.now shown.now task.0) }
{
    let mut text = token_line_at(alloc, language, graph, graph.own_token(task))?;
    add_status_line(&mut text, language, shown, task)?;
    Ok(text)
}

/// The node of a task.
fn node_of(
    alloc: Global,
    language: Language,
    graph: &Graph,
    shown: &Shown,
    task: TaskId,
) -> Result<String, AllocError>
    requires { is_task graph.now.graph task.0 }
    ensures { IfOk result (λ line. string_bytes line ≡ task_node language
        (kind_of (kind graph.now.graph task.0)) (task_name graph.now.names task.0)
        (lines_below language graph.now shown.now task.0) (mark language shown.now task.0)) }
{
    let lines = lines_below(alloc, language, graph, shown, task)?;
    let mark = mark(alloc, language, shown, task)?;
    let name = name_of(graph, false, task.0);
    let kind = graph.kind(task);
    task_node(alloc, language, kind, name, lines.as_str(), mark.as_str())
}

/// Adds the lines of a task: its node, and in Mermaid its border.
fn add_task(
    text: &mut String,
    alloc: Global,
    language: Language,
    graph: &Graph,
    shown: &Shown,
    task: TaskId,
) -> Result<(), AllocError>
    requires { is_task graph.now.graph task.0 }
    ensures { OnOk result (string_bytes text.new ≡ string_bytes text.old
        ++ task_lines language graph.now shown.now task.0) }
{
    text.push_str(node_of(alloc, language, graph, shown, task)?.as_str())?;
    let name = name_of(graph, false, task.0);
    text.push_str(border_line(alloc, language, has_border(shown, task), name)?.as_str())
}

/// Adds the lines of each task.
fn add_tasks(
    text: &mut String,
    alloc: Global,
    language: Language,
    graph: &Graph,
    shown: &Shown,
) -> Result<(), AllocError>
    ensures { OnOk result (string_bytes text.new ≡ string_bytes text.old
        ++ below (task_lines language graph.now shown.now) (length graph.now.graph.tasks)) }
{
    for number in 0..graph.len() {
        add_task(text, alloc, language, graph, shown, TaskId(number as u16))?;
    }
    Ok(())
}

/// Adds the line of each edge.
fn add_edges(
    text: &mut String,
    alloc: Global,
    language: Language,
    graph: &Graph,
    edges: &[Edge],
) -> Result<(), AllocError>
    ensures { OnOk result (string_bytes text.new ≡ string_bytes text.old
        ++ flat_map (edge_line language graph.now) edges.now) }
{
    for edge in edges {
        text.push_str(edge_line(alloc, language, graph, *edge)?.as_str())?;
    }
    Ok(())
}

/// Adds the nodes and the edges.
fn add_lines(
    text: &mut String,
    alloc: Global,
    language: Language,
    graph: &Graph,
    shown: &Shown,
) -> Result<(), AllocError>
    ensures { OnOk result (string_bytes text.new ≡ string_bytes text.old
        ++ below (token_line language graph.now) (length graph.now.graph.tokens)
        ++ below (task_lines language graph.now shown.now) (length graph.now.graph.tasks)
        ++ flat_map (edge_line language graph.now) (edges graph.now.graph)) }
{
    let edges = edges(alloc, graph)?;
    add_tokens(text, alloc, language, graph)?;
    add_tasks(text, alloc, language, graph, shown)?;
    add_edges(text, alloc, language, graph, &edges)
}

/// Adds the legend, and what stands after it.
fn add_closing(
    text: &mut String,
    alloc: Global,
    language: Language,
    shown: &Shown,
) -> Result<(), AllocError>
    ensures { OnOk result (string_bytes text.new ≡ string_bytes text.old
        ++ legend language shown.now ++ closing language shown.now) }
{
    text.push_str(legend(alloc, language, shown)?.as_str())?;
    text.push_str(closing(language, shown))
}

/// The picture of a graph: a node for each token and each task, then an edge for each link of a token, for each task's
/// own token, for what it continues and what it waits for, and for each child that its body starts and each token
/// that it requests. A token that more than eight tasks have as their own is written at each of them instead. The nodes
/// of tasks show how they may end, or how they stand in a run, and a legend says what that means. Out of memory is the
/// only error.
pub fn picture(
    alloc: Global,
    language: Language,
    graph: &Graph,
    shown: &Shown,
) -> Result<String, AllocError>
    ensures { IfOk result (λ text. string_bytes text ≡ picture language graph.now shown.now) }
{
    let mut text = String::from_str(alloc, opening(language))?;
    add_lines(&mut text, alloc, language, graph, shown)?;
    add_closing(&mut text, alloc, language, shown)?;
    Ok(text)
}
