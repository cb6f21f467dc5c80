//! From certificate trees to text.

ghost use Rattle.std.specs.Prelude.{◌≡◌, ◌≤◌, ◌∷◌, [], map, IfOk, OnOk, Ok, Err, Some, true, false, IfErr, string_bytes, All};
ghost use Rattle.std.specs.List.{list_all};
ghost use Rattle.json.specs.Lex.{tokens};
ghost use Rattle.json.specs.Print.{print};
ghost use Rattle.json.specs.Token as token;
ghost use Rattle.serde_json.specs.Data.{array};
ghost use Rattle.serde_json.specs.Read.{read};
ghost use Rattle.serde_json.specs.View.{items_of};
ghost use Rattle.serde_json.specs.Written.{compact_text};
ghost use Rattle.tpl_cert.specs.Prelude.{HasRowSets, HasSets, Puts, PutsValue, Writes, certificate_data, has_ids, has_row_ids, is_id, leaf_data, name_at, row_data, spelled_tree, tree_data};
ghost use Rattle.tpl_model.specs.Prelude.{ArePlain, IsPlain};
ghost use Rattle.tpl_model.specs.declared.rule_set.RuleSet.TheVariants.{WithoutTokens};
ghost use Rattle.tpl_trees.specs.Prelude.{height};

use crate::fault::TreeToFault;
use crate::row_text::{open_object, task_name, write_rows};
use json::Writer;
use std::alloc::{AllocError, Global};
use tpl_graph::Graph;
use tpl_model::{InputId, MOST_SPLITS, RuleSet};
use tpl_trees::{Node, Row, Tree};

/// The name of an input, where it is the graph's.
fn input_name(graph: &Graph, input: InputId) -> Result<&str, TreeToFault>
    ensures writes { Writes result (is_id graph.now.names.inputs input.0)
        (λ s. s.now ≡ name_at graph.now.names.inputs input.0) }
    ensures unknown { IfErr result (λ e. e ≡ TreeToFault.Unknown) }
{
    graph.valid_law();
    if (input.0 as usize) < graph.input_count() {
        Ok(graph.input_name(input))
    } else {
        Err(TreeToFault::Unknown)
    }
}

/// A member that is a text.
fn write_text(key: &str, text: &str, out: &mut Writer) -> Result<(), AllocError>
    ensures { OnOk result (Puts (token.key key.now ∷ token.string text.now ∷ []) out.old out.new) }
{
    out.key(key)?;
    out.string(text)?;
    Ok(())
}

/// A leaf with rows by the rules.
fn write_leaf(
    graph: &Graph,
    rules: RuleSet,
    rows: &[Row],
    out: &mut Writer,
) -> Result<(), TreeToFault>
    requires { rules ≡ WithoutTokens → ArePlain rows.now }
    ensures { Writes result (list_all (has_row_ids graph.now.names) rows.now)
        (λ _. PutsValue (leaf_data (array (items_of (map (row_data rules graph.now.names)
        rows.now)))) out.old out.new × All HasRowSets rows.now) }
{
    open_object("rows", out)?;
    write_rows(graph, rules, rows, out)?;
    out.end_object()?;
    Ok(())
}

/// A tree by the rules.
fn write_tree(
    graph: &Graph,
    rules: RuleSet,
    tree: &Tree,
    out: &mut Writer,
) -> Result<(), TreeToFault>
    requires { rules ≡ WithoutTokens → IsPlain tree.now }
    ensures { Writes result (has_ids graph.now.names tree.now)
        (λ _. PutsValue (tree_data rules graph.now.names tree.now) out.old out.new
        × HasSets tree.now) }
{
    match tree.node() {
        Node::SplitInput(input, yes, no) => {
            let name = input_name(graph, *input)?;
            open_object("no", out)?;
            write_tree(graph, rules, no, out)?;
            write_text("split_input", name, out)?;
            out.key("yes")?;
            write_tree(graph, rules, yes, out)?;
            out.end_object()?;
            Ok(())
        }
        Node::SplitEnd(task, ran, canceled, faulted) => {
            let name = task_name(graph, *task)?;
            open_object("canceled", out)?;
            write_tree(graph, rules, canceled, out)?;
            out.key("faulted")?;
            write_tree(graph, rules, faulted, out)?;
            out.key("ran")?;
            write_tree(graph, rules, ran, out)?;
            write_text("split_end", name, out)?;
            out.end_object()?;
            Ok(())
        }
        Node::SplitWinner(task, argument, yes, no) => {
            let name = task_name(graph, *task)?;
            let other = task_name(graph, *argument)?;
            open_object("no", out)?;
            write_tree(graph, rules, no, out)?;
            write_text("split_winner", name, out)?;
            write_text("task", other, out)?;
            out.key("yes")?;
            write_tree(graph, rules, yes, out)?;
            out.end_object()?;
            Ok(())
        }
        Node::Leaf(rows) => write_leaf(graph, rules, rows, out),
        Node::Least => {
            out.string("least")?;
            Ok(())
        }
    }
}

/// The trees by the rules, as an array.
fn write_trees(
    graph: &Graph,
    rules: RuleSet,
    trees: &[Tree],
    out: &mut Writer,
) -> Result<(), TreeToFault>
    requires { rules ≡ WithoutTokens → All IsPlain trees.now }
    ensures { Writes result (list_all (has_ids graph.now.names) trees.now)
        (λ _. PutsValue (certificate_data rules graph.now.names trees.now) out.old out.new
        × All HasSets trees.now) }
{
    out.begin_array()?;
    for tree in trees {
        write_tree(graph, rules, tree, out)?;
    }
    out.end_array()?;
    Ok(())
}

/// What was written, as a text.
fn text_of(out: Writer) -> String
    requires { out.before ≡ [] }
    ensures text { string_bytes result ≡ print out.tokens }
    ensures tokens { tokens (string_bytes result) ≡ out.tokens }
{
    match String::from_utf8(out.into_inner()) {
        Ok(text) => text,
        Err(_) => unreachable!(),
    }
}

/// The trees as one array of JSON by the rules, with the names of the graph, in the one spelling of each: no space;
/// each member, in the order of the bytes of its name; `ends` in the order RanToCompletion, Canceled, Faulted, `before`
/// and `past`, and by the rules with tokens `asked` and `asks`, in declared order. A leaf without rows is the text `least`. By
/// the rules without tokens trees say nothing of tokens and of winners. Each element spells its tree, and where no tree splits
/// more than `MOST_SPLITS` times on a path the text is read as these values again.
pub fn trees_text(
    alloc: Global,
    graph: &Graph,
    rules: RuleSet,
    trees: &[Tree],
) -> Result<String, TreeToFault>
    requires { rules ≡ WithoutTokens → All IsPlain trees.now }
    ensures written { IfOk result (λ text. string_bytes text
        ≡ compact_text (certificate_data rules graph.now.names trees.now)) }
    ensures reads { IfOk result (λ text. All (λ tree. height tree ≤ MOST_SPLITS) trees.now
        → read (string_bytes text) ≡ Some (certificate_data rules graph.now.names trees.now)) }
    ensures spells { IfOk result (λ _. All (λ tree. spelled_tree rules graph.now.names
        (tree_data rules graph.now.names tree) ≡ Ok tree) trees.now) }
    ensures known { IfOk result (λ _. list_all (has_ids graph.now.names) trees.now ≡ true) }
    ensures unknown { result ≡ Err TreeToFault.Unknown
        → list_all (has_ids graph.now.names) trees.now ≡ false }
{
    graph.valid_law();
    let mut out = Writer::new(Vec::new(alloc));
    write_trees(graph, rules, trees, &mut out)?;
    Ok(text_of(out))
}
