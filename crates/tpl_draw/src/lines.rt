//! The lines of a picture.

ghost use Rattle.std.specs.Prelude.{◌≡◌, IfOk, string_bytes};
ghost use Rattle.tpl_draw.specs.Prelude.{begins_at_token, edge_line, ends_at_token, is_plain, label, label_of, lazy_word, line_word, look_of, name_of, quoted, sort_word, start_text, start_word, synchronous_word, task_node, token_node};
ghost use Rattle.tpl_model.specs.Prelude.{options};

use crate::edge::{Edge, Tie};
use crate::language::{Language, enclosed};
use std::alloc::{AllocError, Global};
use tpl_graph::{Graph, Kind};
use tpl_model::{Final, Options, TaskId, TokenId};

/// The node of a token.
pub(crate) fn token_node(
    alloc: Global,
    language: Language,
    name: &str,
) -> Result<String, AllocError>
    ensures { IfOk result (λ line. string_bytes line ≡ token_node language name.now) }
{
    match language {
        Language::Mermaid => { format!(in alloc; "  k_{name}>\"{name}<br/>token\"]:::token\n") }
        Language::Dot => {
            format!(in alloc; "  k_{name} [label=\"{name}\\ntoken\", shape=note];\n")
        }
    }
}

/// What says a task's kind in its node: a word, what begins and ends the shape in Mermaid, and the shape in DOT.
struct Look {
    word: &'static str,
    opening: &'static str,
    closing: &'static str,
    shape: &'static str,
}

/// How a task of this kind looks.
fn look_of(kind: Kind) -> Look
    ensures word { result.word.now ≡ (look_of kind).word }
    ensures opening { result.opening.now ≡ (look_of kind).opening }
    ensures closing { result.closing.now ≡ (look_of kind).closing }
    ensures shape { result.shape.now ≡ (look_of kind).shape }
{
    let (word, opening, closing, shape) = match kind {
        Kind::Root => ("root", "[", "]", "box"),
        Kind::Child => ("child", "(", ")", "Mrecord"),
        Kind::Then => ("then", "([", "])", "ellipse"),
        Kind::All => ("all", "{{", "}}", "hexagon"),
        Kind::Any => ("any", "{", "}", "diamond"),
    };
    Look {
        word,
        opening,
        closing,
        shape,
    }
}

/// The node of a task, whose shape says its kind; with further lines, and a mark.
pub(crate) fn task_node(
    alloc: Global,
    language: Language,
    kind: Kind,
    name: &str,
    lines: &str,
    mark: &str,
) -> Result<String, AllocError>
    ensures { IfOk result (λ line. string_bytes line
        ≡ task_node language kind name.now lines.now mark.now) }
{
    let Look {
        word,
        opening,
        closing,
        shape,
    } = look_of(kind);
    match language {
        Language::Mermaid => {
            format!(in alloc; "  t_{name}{opening}\"{name}<br/>{word}{lines}\"{closing}{mark}\n")
        }
        Language::Dot => {
            format!(in alloc;
                "  t_{name} [label=\"{name}\\n{word}{lines}\", shape={shape}{mark}];\n"
            )
        }
    }
}

/// The option word that says after which ends of its antecedent a continuation starts.
fn start_word(ran: bool, canceled: bool, faulted: bool) -> &'static str
    ensures { result.now ≡ start_word ran canceled faulted }
{
    match (ran, canceled, faulted) {
        (true, true, true) => "always",
        (true, true, false) => "NotOnFaulted",
        (true, false, true) => "NotOnCanceled",
        (true, false, false) => "OnlyOnRanToCompletion",
        (false, true, true) => "NotOnRanToCompletion",
        (false, true, false) => "OnlyOnCanceled",
        (false, false, true) => "OnlyOnFaulted",
        (false, false, false) => "never",
    }
}

fn lazy_word(lazy: bool) -> &'static str
    ensures { result.now ≡ lazy_word lazy }
{
    if lazy { " lazy" } else { "" }
}

fn synchronous_word(synchronous: bool) -> &'static str
    ensures { result.now ≡ synchronous_word synchronous }
{
    if synchronous { " synchronous" } else { "" }
}

/// It starts after each end of its antecedent, at once, on any thread.
fn is_plain(options: Options) -> bool
    ensures { result ≡ is_plain options }
{
    options.allows(Final::RanToCompletion)
        && options.allows(Final::Canceled)
        && options.allows(Final::Faulted)
        && !options.lazy_cancellation()
        && !options.execute_synchronously()
}

/// When a continuation starts.
fn start_text(alloc: Global, options: Options) -> Result<String, AllocError>
    ensures { IfOk result (λ text. string_bytes text ≡ start_text options) }
{
    if is_plain(options) {
        return Ok(String::new(alloc));
    }
    let word = start_word(
        options.allows(Final::RanToCompletion),
        options.allows(Final::Canceled),
        options.allows(Final::Faulted),
    );
    let lazy = lazy_word(options.lazy_cancellation());
    let synchronous = synchronous_word(options.execute_synchronously());
    format!(in alloc; "{word}{lazy}{synchronous}")
}

/// What an edge says, by the options of the tasks at its ends.
fn label_of(alloc: Global, tie: Tie, from: Options, to: Options) -> Result<String, AllocError>
    ensures { IfOk result (λ text. string_bytes text ≡ label_of tie from to) }
{
    match tie {
        Tie::After => start_text(alloc, to),
        Tie::Child => {
            if to.attached_to_parent() && !from.deny_child_attach() {
                String::from_str(alloc, "attached")
            } else {
                String::from_str(alloc, "detached")
            }
        }
        Tie::Cancel => String::from_str(alloc, "cancels"),
        Tie::Link => String::from_str(alloc, "linked"),
        Tie::Argument | Tie::Own => Ok(String::new(alloc)),
    }
}

/// The options of a task; none past the last one.
fn options_of(graph: &Graph, number: u16) -> Options
    ensures { result ≡ options graph.now.graph number }
{
    if (number as usize) < graph.len() {
        graph.options(TaskId(number))
    } else {
        Options::empty()
    }
}

/// What stands at an edge.
fn label(alloc: Global, graph: &Graph, edge: Edge) -> Result<String, AllocError>
    ensures { IfOk result (λ text. string_bytes text ≡ label graph.now.graph edge) }
{
    label_of(
        alloc,
        edge.tie,
        options_of(graph, edge.from),
        options_of(graph, edge.to),
    )
}

fn begins_at_token(tie: Tie) -> bool
    ensures { result ≡ begins_at_token tie }
{
    matches!(tie, Tie::Own | Tie::Link)
}

fn ends_at_token(tie: Tie) -> bool
    ensures { result ≡ ends_at_token tie }
{
    matches!(tie, Tie::Cancel | Tie::Link)
}

/// What stands before a name in its node: one text for tokens, another for tasks.
fn sort_word(is_token: bool) -> &'static str
    ensures { result.now ≡ sort_word is_token }
{
    if is_token { "k_" } else { "t_" }
}

/// The name of a token or a task; an empty text past the last one.
pub(crate) fn name_of(graph: &Graph, is_token: bool, number: u16) -> &str
    ensures { result.now ≡ name_of graph.now.names is_token number }
{
    graph.valid_law();
    if is_token && (number as usize) < graph.token_count() {
        graph.token_name(TokenId(number as u8))
    } else if !is_token && (number as usize) < graph.len() {
        graph.name(TaskId(number))
    } else {
        ""
    }
}

/// How the line of an edge is drawn.
fn line_word(language: Language, tie: Tie) -> &'static str
    ensures { result.now ≡ line_word language tie }
{
    match tie {
        Tie::After | Tie::Argument => language.choose("-->", "solid"),
        Tie::Child => language.choose("==>", "bold"),
        Tie::Cancel => language.choose("-.->", "dashed, color=red3"),
        Tie::Own | Tie::Link => language.choose("-.->", "dotted, color=gray40"),
    }
}

/// A label, quoted; nothing where there is none.
fn quoted(alloc: Global, language: Language, label: &str) -> Result<String, AllocError>
    ensures { IfOk result (λ text. string_bytes text ≡ quoted language label.now) }
{
    let opening = language.choose("|\"", ", label=\"");
    enclosed(alloc, opening, label, language.choose("\"|", "\""))
}

/// The line of an edge: two nodes, how it is drawn, and what stands at it.
pub(crate) fn edge_line(
    alloc: Global,
    language: Language,
    graph: &Graph,
    edge: Edge,
) -> Result<String, AllocError>
    ensures { IfOk result (λ line. string_bytes line ≡ edge_line language graph.now edge) }
{
    let said = label(alloc, graph, edge)?;
    let label = quoted(alloc, language, said.as_str())?;
    let line = line_word(language, edge.tie);
    let from_sort = sort_word(begins_at_token(edge.tie));
    let to_sort = sort_word(ends_at_token(edge.tie));
    let from = name_of(graph, begins_at_token(edge.tie), edge.from);
    let to = name_of(graph, ends_at_token(edge.tie), edge.to);
    match language {
        Language::Mermaid => {
            format!(in alloc; "  {from_sort}{from} {line}{label} {to_sort}{to}\n")
        }
        Language::Dot => {
            format!(in alloc; "  {from_sort}{from} -> {to_sort}{to} [style={line}{label}];\n")
        }
    }
}
