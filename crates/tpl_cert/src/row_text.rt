//! From rows to text.

ghost use Rattle.std.specs.Prelude.{◌≡◌, ◌∷◌, [], map, codes, OnOk, Err, IfErr, All};
ghost use Rattle.std.specs.List.{list_all};
ghost use Rattle.json.specs.Token as token;
ghost use Rattle.serde_json.specs.Data.{array, string};
ghost use Rattle.serde_json.specs.View.{items_of};
ghost use Rattle.tpl_cert.specs.Prelude.{HasRowSets, Puts, PutsMembers, PutsValue, Writes, has_row_ids, has_task_ids, is_id, name_at, names_data, row_data, row_members, texts_data, word_if, words_of};
ghost use Rattle.tpl_draft.specs.Prelude.{task_number};
ghost use Rattle.tpl_model.specs.Prelude.{ArePlain, IsTaskSet};
ghost use Rattle.tpl_model.specs.declared.rule_set.RuleSet.TheVariants.{WithoutTokens, WithTokens};
ghost use Rattle.tpl_trees.specs.Prelude.{HasTaskSets, tokens_in};

use crate::fault::TreeToFault;
use json::Writer;
use std::alloc::AllocError;
use tpl_graph::Graph;
use tpl_model::{Finals, MOST_TOKENS, RuleSet, TaskId, TaskSet, TokenId};
use tpl_paths::TokenSet;
use tpl_trees::{PlainRow, Row};

/// The name of a task, where it is the graph's.
pub(crate) fn task_name(graph: &Graph, task: TaskId) -> Result<&str, TreeToFault>
    ensures writes { Writes result (is_id graph.now.names.tasks task.0)
        (λ s. s.now ≡ name_at graph.now.names.tasks task.0) }
    ensures unknown { IfErr result (λ e. e ≡ TreeToFault.Unknown) }
{
    graph.valid_law();
    if (task.0 as usize) < graph.len() {
        Ok(graph.name(task))
    } else {
        Err(TreeToFault::Unknown)
    }
}

/// The name of a token, where it is the graph's.
fn token_name(graph: &Graph, token: TokenId) -> Result<&str, TreeToFault>
    ensures writes { Writes result (is_id graph.now.names.tokens token.0)
        (λ s. s.now ≡ name_at graph.now.names.tokens token.0) }
    ensures unknown { IfErr result (λ e. e ≡ TreeToFault.Unknown) }
{
    graph.valid_law();
    if (token.0 as usize) < graph.token_count() {
        Ok(graph.token_name(token))
    } else {
        Err(TreeToFault::Unknown)
    }
}

/// The opening of an object, with the key of its first member.
pub(crate) fn open_object(key: &str, out: &mut Writer) -> Result<(), AllocError>
    ensures { OnOk result (Puts (token.begin_object ∷ token.key key.now ∷ []) out.old out.new) }
{
    out.begin_object()?;
    out.key(key)?;
    Ok(())
}

/// The name of a task.
fn write_task(graph: &Graph, task: TaskId, out: &mut Writer) -> Result<(), TreeToFault>
    ensures { Writes result (is_id graph.now.names.tasks task.0)
        (λ _. PutsValue (string (name_at graph.now.names.tasks task.0)) out.old out.new) }
{
    let name = task_name(graph, task)?;
    out.string(name)?;
    Ok(())
}

/// The name of a token.
fn write_token(graph: &Graph, token: TokenId, out: &mut Writer) -> Result<(), TreeToFault>
    ensures { Writes result (is_id graph.now.names.tokens token.0)
        (λ _. PutsValue (string (name_at graph.now.names.tokens token.0)) out.old out.new) }
{
    let name = token_name(graph, token)?;
    out.string(name)?;
    Ok(())
}

/// The tasks of a set in declared order.
fn write_set(graph: &Graph, set: &TaskSet, out: &mut Writer) -> Result<(), TreeToFault>
    ensures { Writes result (list_all (is_id graph.now.names.tasks) set.now)
        (λ _. PutsValue (names_data graph.now.names.tasks set.now) out.old out.new
        × IsTaskSet set.now) }
{
    out.begin_array()?;
    for task in set.members() {
        write_task(graph, task, out)?;
    }
    out.end_array()?;
    Ok(())
}

/// The tokens of a set in declared order.
fn write_tokens(graph: &Graph, set: TokenSet, out: &mut Writer) -> Result<(), TreeToFault>
    ensures { Writes result (list_all (is_id graph.now.names.tokens) (tokens_in set))
        (λ _. PutsValue (names_data graph.now.names.tokens (tokens_in set)) out.old out.new) }
{
    out.begin_array()?;
    for number in 0..MOST_TOKENS {
        let token = TokenId(number as u8);
        if set.contains(token) {
            write_token(graph, token, out)?;
        }
    }
    out.end_array()?;
    Ok(())
}

/// The tasks of a chain in their order.
fn write_chain(graph: &Graph, chain: &[TaskId], out: &mut Writer) -> Result<(), TreeToFault>
    ensures { Writes result (list_all (is_id graph.now.names.tasks) (map task_number chain.now))
        (λ _. PutsValue (names_data graph.now.names.tasks
        (map task_number chain.now)) out.old out.new) }
{
    out.begin_array()?;
    for task in chain {
        write_task(graph, *task, out)?;
    }
    out.end_array()?;
    Ok(())
}

/// The word, where it is to stand.
fn write_word(stands: bool, word: &str, out: &mut Writer) -> Result<(), AllocError>
    ensures { OnOk result (Puts (map token.string (word_if stands word.now)) out.old out.new) }
{
    if stands {
        out.string(word)?;
    }
    Ok(())
}

/// How a task may end.
fn write_ends(ends: Finals, out: &mut Writer) -> Result<(), AllocError>
    ensures { OnOk result (PutsValue (texts_data (words_of ends)) out.old out.new) }
{
    out.begin_array()?;
    write_word(ends.ran, "RanToCompletion", out)?;
    write_word(ends.canceled, "Canceled", out)?;
    write_word(ends.faulted, "Faulted", out)?;
    out.end_array()?;
    Ok(())
}

/// The last member of a row, and its end.
fn close_row(runs: bool, out: &mut Writer) -> Result<(), AllocError>
    ensures { OnOk result (Puts (token.key (codes "runs") ∷ token.boolean runs ∷ token.end_object ∷ [])
        out.old out.new) }
{
    out.key("runs")?;
    out.boolean(runs)?;
    out.end_object()?;
    Ok(())
}

/// The members of a row that don't speak of tokens, and its end.
fn write_members(graph: &Graph, row: &PlainRow, out: &mut Writer) -> Result<(), TreeToFault>
    ensures { Writes result (has_task_ids graph.now.names row.now)
        (λ _. PutsMembers (row_members graph.now.names row.now) out.old out.new
        × HasTaskSets row.now) }
{
    out.key("before")?;
    write_set(graph, row.before(), out)?;
    out.key("chain")?;
    write_chain(graph, row.chain(), out)?;
    out.key("ends")?;
    write_ends(row.ends(), out)?;
    out.key("past")?;
    write_set(graph, row.past(), out)?;
    close_row(row.runs(), out)?;
    Ok(())
}

/// A row that says nothing of tokens, by the rules without tokens.
fn write_plain_row(graph: &Graph, row: &Row, out: &mut Writer) -> Result<(), TreeToFault>
    requires { (row.now.asked ≡ []) × (row.now.asks ≡ []) }
    ensures { Writes result (has_row_ids graph.now.names row.now)
        (λ _. PutsValue (row_data WithoutTokens graph.now.names row.now) out.old out.new
        × HasRowSets row.now) }
{
    row.sets_law();
    out.begin_object()?;
    write_members(graph, row.row(), out)?;
    Ok(())
}

/// A row by the rules with tokens, with its tokens first.
fn write_token_row(graph: &Graph, row: &Row, out: &mut Writer) -> Result<(), TreeToFault>
    ensures { Writes result (has_row_ids graph.now.names row.now)
        (λ _. PutsValue (row_data WithTokens graph.now.names row.now) out.old out.new
        × HasRowSets row.now) }
{
    row.sets_law();
    open_object("asked", out)?;
    write_tokens(graph, row.asked(), out)?;
    out.key("asks")?;
    write_tokens(graph, row.asks(), out)?;
    write_members(graph, row.row(), out)?;
    Ok(())
}

/// A row by the rules.
fn write_row(graph: &Graph, rules: RuleSet, row: &Row, out: &mut Writer) -> Result<(), TreeToFault>
    requires { rules ≡ WithoutTokens → (row.now.asked ≡ []) × (row.now.asks ≡ []) }
    ensures { Writes result (has_row_ids graph.now.names row.now)
        (λ _. PutsValue (row_data rules graph.now.names row.now) out.old out.new
        × HasRowSets row.now) }
{
    match rules {
        RuleSet::WithoutTokens => write_plain_row(graph, row, out),
        RuleSet::WithTokens => write_token_row(graph, row, out),
    }
}

/// The rows of a leaf by the rules.
pub(crate) fn write_rows(
    graph: &Graph,
    rules: RuleSet,
    rows: &[Row],
    out: &mut Writer,
) -> Result<(), TreeToFault>
    requires { rules ≡ WithoutTokens → ArePlain rows.now }
    ensures { Writes result (list_all (has_row_ids graph.now.names) rows.now)
        (λ _. PutsValue (array (items_of (map (row_data rules graph.now.names) rows.now)))
        out.old out.new × All HasRowSets rows.now) }
{
    out.begin_array()?;
    for row in rows {
        write_row(graph, rules, row, out)?;
    }
    out.end_array()?;
    Ok(())
}
