//! Reading a certificate tree with names.

ghost use Rattle.std.specs.Prelude.{◌≡◌, None, map, option_and_then, option_map};
ghost use Rattle.serde_json.specs.Find.{get};
ghost use Rattle.tpl_cert.specs.Prelude.{end_at, input_at, is_least, leaf_at, node_at, row_at, row_names, row_of, tree_of, whole_tree, winner_at};
ghost use Rattle.tpl_json.specs.Prelude.{Gives, each, texts_in, view};
ghost use Rattle.tpl_model.specs.declared.rule_set.RuleSet.TheVariants.{WithoutTokens};

use crate::named::{NamedRow, NamedTree};
use json::Value;
use std::alloc::Global;
use tpl_json::{
    Miss, Shape, bool_in, finals_of, find, has_only, list_of, member_in, read_each, text_in,
    texts_in,
};
use tpl_model::RuleSet;

/// The members of a row: by the rules with tokens it speaks of tokens too.
fn row_names(rules: RuleSet) -> &'static [&'static str]
    ensures { map (λ s. s.now) result.now ≡ row_names rules }
{
    match rules {
        RuleSet::WithoutTokens => &["ends", "runs", "before", "past", "chain"],
        RuleSet::WithTokens => &["ends", "runs", "before", "past", "chain", "asked", "asks"],
    }
}

/// The tokens in a member of a row, which no row of the rules without tokens has.
fn tokens_in<'v, 't>(
    alloc: Global,
    rules: RuleSet,
    value: &'v Value<'t>,
    name: &str,
) -> Result<Vec<&'v str>, Miss<Shape<'v, 't>>>
    requires { rules ≡ WithoutTokens → get name.now (view value.now) ≡ None }
    ensures { Gives (λ v. map (λ s. s.now) v.items) result (texts_in name.now (view value.now)) }
{
    match rules {
        RuleSet::WithoutTokens => Ok(Vec::new(alloc)),
        RuleSet::WithTokens => texts_in(alloc, value, name),
    }
}

#[tactic(auto, unfolding(crate::specs::Reading::row_at))]
fn row_of<'v, 't>(
    alloc: Global,
    rules: RuleSet,
    value: &'v Value<'t>,
) -> Result<NamedRow<'v>, Miss<Shape<'v, 't>>>
    ensures { Gives row_of result (row_at rules (view value.now)) }
{
    if !has_only(value, row_names(rules)) {
        return Err(Miss::Wrong(Shape { at: value }));
    }
    let list = member_in(value, "ends")?;
    let ends = finals_of(list_of(list)?)?;
    let runs = bool_in(value, "runs")?;
    let before = texts_in(alloc, value, "before")?;
    let past = texts_in(alloc, value, "past")?;
    let chain = texts_in(alloc, value, "chain")?;
    let asked = tokens_in(alloc, rules, value, "asked")?;
    let asks = tokens_in(alloc, rules, value, "asks")?;
    Ok(NamedRow {
        ends,
        runs,
        before,
        past,
        chain,
        asked,
        asks,
    })
}

fn rows_of<'v, 't>(
    alloc: Global,
    rules: RuleSet,
    values: &'v [Value<'t>],
) -> Result<Vec<NamedRow<'v>>, Miss<Shape<'v, 't>>>
    ensures { Gives (λ v. map row_of v.items) result (each (row_at rules) (map view values.now)) }
{
    read_each(alloc, values, |_, value| row_of(alloc, rules, value))
}

/// Whether the value is a leaf without rows, which the rules with tokens have.
#[tactic(auto, using(tpl_json::proofs::DataOf::text_is))]
fn is_least(rules: RuleSet, value: &Value<'_>) -> bool
    ensures { result ≡ is_least rules (view value.now) }
{
    match rules {
        RuleSet::WithoutTokens => false,
        RuleSet::WithTokens => match value.as_str() {
            None => false,
            Some(text) => text == "least",
        },
    }
}

#[tactic(auto, unfolding(crate::specs::Reading::leaf_at))]
fn leaf_of<'v, 't>(
    alloc: Global,
    rules: RuleSet,
    value: &'v Value<'t>,
) -> Result<NamedTree<'v>, Miss<Shape<'v, 't>>>
    ensures { Gives tree_of result (leaf_at rules (view value.now)) }
{
    if is_least(rules, value) {
        return Ok(NamedTree::Least);
    }
    if !has_only(value, &["rows"]) {
        return Err(Miss::Wrong(Shape { at: value }));
    }
    let list = member_in(value, "rows")?;
    let rows = rows_of(alloc, rules, list_of(list)?)?;
    Ok(NamedTree::Leaf(rows))
}

#[cycle(tree)]
fn branch_of<'v, 't>(
    alloc: Global,
    rules: RuleSet,
    value: &'v Value<'t>,
    name: &str,
) -> Result<Box<NamedTree<'v>>, Miss<Shape<'v, 't>>>
    ensures { Gives (λ b. tree_of b.value) result
        (option_and_then (whole_tree rules) (get name.now (view value.now))) }
{
    let member = member_in(value, name)?;
    let tree = named_tree(alloc, rules, member)?;
    let boxed = Box::new(alloc, tree)?;
    Ok(boxed)
}

#[cycle(tree)]
#[tactic(auto, unfolding(crate::specs::Reading::input_at))]
fn input_of<'v, 't>(
    alloc: Global,
    rules: RuleSet,
    value: &'v Value<'t>,
) -> Result<NamedTree<'v>, Miss<Shape<'v, 't>>>
    ensures { Gives tree_of result (input_at (whole_tree rules) (view value.now)) }
{
    if !has_only(value, &["split_input", "yes", "no"]) {
        return Err(Miss::Wrong(Shape { at: value }));
    }
    let name = text_in(value, "split_input")?;
    let first = branch_of(alloc, rules, value, "yes")?;
    let second = branch_of(alloc, rules, value, "no")?;
    Ok(NamedTree::SplitInput(name, first, second))
}

#[cycle(tree)]
#[tactic(auto, unfolding(crate::specs::Reading::end_at))]
fn end_of<'v, 't>(
    alloc: Global,
    rules: RuleSet,
    value: &'v Value<'t>,
) -> Result<NamedTree<'v>, Miss<Shape<'v, 't>>>
    ensures { Gives tree_of result (end_at (whole_tree rules) (view value.now)) }
{
    if !has_only(value, &["split_end", "ran", "canceled", "faulted"]) {
        return Err(Miss::Wrong(Shape { at: value }));
    }
    let name = text_in(value, "split_end")?;
    let ran = branch_of(alloc, rules, value, "ran")?;
    let canceled = branch_of(alloc, rules, value, "canceled")?;
    let faulted = branch_of(alloc, rules, value, "faulted")?;
    Ok(NamedTree::SplitEnd(name, ran, canceled, faulted))
}

#[cycle(tree)]
#[tactic(auto, unfolding(crate::specs::Reading::winner_at))]
fn winner_of<'v, 't>(
    alloc: Global,
    rules: RuleSet,
    value: &'v Value<'t>,
) -> Result<NamedTree<'v>, Miss<Shape<'v, 't>>>
    ensures { Gives tree_of result (winner_at (whole_tree rules) (view value.now)) }
{
    if !has_only(value, &["split_winner", "task", "yes", "no"]) {
        return Err(Miss::Wrong(Shape { at: value }));
    }
    let task = text_in(value, "split_winner")?;
    let argument = text_in(value, "task")?;
    let first = branch_of(alloc, rules, value, "yes")?;
    let second = branch_of(alloc, rules, value, "no")?;
    Ok(NamedTree::SplitWinner(task, argument, first, second))
}

#[cycle(tree)]
#[tactic(auto, unfolding(crate::specs::Reading::node_at))]
fn node_of<'v, 't>(
    alloc: Global,
    rules: RuleSet,
    value: &'v Value<'t>,
) -> Result<NamedTree<'v>, Miss<Shape<'v, 't>>>
    ensures { Gives tree_of result (node_at rules (whole_tree rules) (view value.now)) }
{
    if find(value, "split_input").is_some() {
        return input_of(alloc, rules, value);
    }
    if find(value, "split_end").is_some() {
        return end_of(alloc, rules, value);
    }
    if rules == RuleSet::WithTokens && find(value, "split_winner").is_some() {
        return winner_of(alloc, rules, value);
    }
    leaf_of(alloc, rules, value)
}

/// A tree, however deep the value nests. By the rules with tokens it may speak of tokens and of winners.
#[cycle(tree)]
pub(crate) fn named_tree<'v, 't>(
    alloc: Global,
    rules: RuleSet,
    value: &'v Value<'t>,
) -> Result<NamedTree<'v>, Miss<Shape<'v, 't>>>
    ensures { Gives tree_of result (whole_tree rules (view value.now)) }
{
    node_of(alloc, rules, value)
}

/// Whether the value has the shape of a tree, however deep it nests; else the value in it whose shape is wrong. Out of
/// memory is the only other error.
pub fn tree_shape<'v, 't>(
    alloc: Global,
    rules: RuleSet,
    value: &'v Value<'t>,
) -> Result<(), Miss<Shape<'v, 't>>>
    ensures { Gives (λ u. u) result (option_map (λ _. tt) (whole_tree rules (view value.now))) }
{
    let _tree = named_tree(alloc, rules, value)?;
    Ok(())
}
