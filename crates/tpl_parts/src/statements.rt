//! Reading bodies.

ghost use Rattle.std.specs.Prelude.{◌≡◌, map, codes, string_bytes, option_and_then, option_map, IfErr};
ghost use Rattle.serde_json.specs.Find.{get};
ghost use Rattle.tpl_draft.specs.Prelude.{line_of};
ghost use Rattle.tpl_json.specs.Prelude.{Gives, IsShape, each, has_member, view};
ghost use Rattle.tpl_parts.specs.Prelude.{body_at, body_of, bool_or_false, branch_at, else_at, if_at, list_at, name_at, object_at, simple_at, statement_at, when_at, word_at};
ghost use Rattle.tpl_parts.specs.Statements.{work_at};

use crate::pieces::name_of;
use json::Value;
use std::alloc::Global;
use tpl_graph::{DraftBody, DraftStmt};
use tpl_json::{Miss, Shape, bool_of, final_of, find, has_only, list_of, member_in, text_in};

#[tactic(auto, unfolding(crate::specs::Statements::word_at))]
fn word_of(word: &str) -> Option<DraftStmt>
    ensures { option_map line_of result ≡ word_at word.now }
{
    match word {
        "return" => Some(DraftStmt::Return),
        "observe" => Some(DraftStmt::Observe),
        _ => None,
    }
}

/// The name in an object of one member, in memory of its own.
fn own_name<'v, 't>(
    alloc: Global,
    value: &'v Value<'t>,
    member: &str,
) -> Result<String, Miss<Shape<'v, 't>>>
    ensures { Gives string_bytes result (name_at member.now (view value.now)) }
{
    let name = name_of(value, member)?;
    Ok(String::from_str(alloc, name)?)
}

#[tactic(auto, unfolding(crate::specs::Statements::bool_or_false))]
fn bool_or_false<'v, 't>(value: &'v Value<'t>, name: &str) -> Result<bool, Miss<Shape<'v, 't>>>
    ensures gives { Gives (λ b. b) result (bool_or_false (get name.now (view value.now))) }
    ensures shape { IfErr result IsShape }
{
    match find(value, name) {
        None => Ok(false),
        Some(member) => bool_of(member),
    }
}

#[tactic(auto, unfolding(crate::specs::Statements::work_at))]
fn work_of<'v, 't>(alloc: Global, value: &'v Value<'t>) -> Result<DraftStmt, Miss<Shape<'v, 't>>>
    ensures { Gives line_of result (work_at (view value.now)) }
{
    if !has_only(value, &["work", "may_fail"]) {
        return Err(Miss::Wrong(Shape { at: value }));
    }
    let site = text_in(value, "work")?;
    let may_fail = bool_or_false(value, "may_fail")?;
    let site = String::from_str(alloc, site)?;
    Ok(DraftStmt::Work(site, may_fail))
}

/// Statements without lists of their own.
#[tactic(auto, unfolding(crate::specs::Statements::simple_at))]
fn simple_of<'v, 't>(alloc: Global, value: &'v Value<'t>) -> Result<DraftStmt, Miss<Shape<'v, 't>>>
    ensures { Gives line_of result (simple_at (view value.now)) }
{
    if find(value, "throw").is_some() {
        return Ok(DraftStmt::Throw(own_name(alloc, value, "throw")?));
    }
    if find(value, "check").is_some() {
        return Ok(DraftStmt::Check(own_name(alloc, value, "check")?));
    }
    if find(value, "cancel").is_some() {
        return Ok(DraftStmt::Cancel(own_name(alloc, value, "cancel")?));
    }
    if find(value, "start").is_some() {
        return Ok(DraftStmt::Start(own_name(alloc, value, "start")?));
    }
    work_of(alloc, value)
}

fn is_branch(value: &Value<'_>) -> bool
    ensures { result ≡ has_member (codes "then") (view value.now) }
{
    find(value, "then").is_some()
}

#[cycle(body)]
fn first_of<'v, 't>(
    alloc: Global,
    levels: u32,
    value: &'v Value<'t>,
) -> Result<DraftBody, Miss<Shape<'v, 't>>>
    ensures { Gives (λ b. b) result (option_and_then (body_at levels)
        (get (codes "then") (view value.now))) }
{
    let list = member_in(value, "then")?;
    body_of(alloc, levels, list)
}

#[cycle(body)]
#[tactic(auto, unfolding(crate::specs::Statements::else_at))]
fn second_of<'v, 't>(
    alloc: Global,
    levels: u32,
    value: &'v Value<'t>,
) -> Result<DraftBody, Miss<Shape<'v, 't>>>
    ensures { Gives (λ b. b) result (else_at (body_at levels)
        (get (codes "else") (view value.now))) }
{
    match find(value, "else") {
        None => Ok(DraftBody::new(Vec::new(alloc))),
        Some(list) => body_of(alloc, levels, list),
    }
}

#[cycle(body)]
#[tactic(auto, unfolding(crate::specs::Statements::if_at))]
fn if_of<'v, 't>(
    alloc: Global,
    levels: u32,
    value: &'v Value<'t>,
) -> Result<DraftStmt, Miss<Shape<'v, 't>>>
    ensures { Gives line_of result (if_at (body_at levels) (view value.now)) }
{
    if !has_only(value, &["if", "then", "else"]) {
        return Err(Miss::Wrong(Shape { at: value }));
    }
    let input = text_in(value, "if")?;
    let first = first_of(alloc, levels, value)?;
    let second = second_of(alloc, levels, value)?;
    let input = String::from_str(alloc, input)?;
    Ok(DraftStmt::If(input, first, second))
}

#[cycle(body)]
#[tactic(auto, unfolding(crate::specs::Statements::when_at))]
fn when_of<'v, 't>(
    alloc: Global,
    levels: u32,
    value: &'v Value<'t>,
) -> Result<DraftStmt, Miss<Shape<'v, 't>>>
    ensures { Gives line_of result (when_at (body_at levels) (view value.now)) }
{
    if !has_only(value, &["when", "then", "else"]) {
        return Err(Miss::Wrong(Shape { at: value }));
    }
    let status = final_of(member_in(value, "when")?)?;
    let first = first_of(alloc, levels, value)?;
    let second = second_of(alloc, levels, value)?;
    Ok(DraftStmt::When(status, first, second))
}

#[cycle(body)]
#[tactic(auto, unfolding(crate::specs::Statements::branch_at))]
fn branch_of<'v, 't>(
    alloc: Global,
    levels: u32,
    value: &'v Value<'t>,
) -> Result<DraftStmt, Miss<Shape<'v, 't>>>
    ensures { Gives line_of result (branch_at (body_at levels) (view value.now)) }
{
    if find(value, "if").is_some() {
        return if_of(alloc, levels, value);
    }
    when_of(alloc, levels, value)
}

#[cycle(body)]
#[tactic(auto, unfolding(crate::specs::Statements::statement_at, crate::specs::Statements::object_at))]
fn statement_of<'v, 't>(
    alloc: Global,
    levels: u32,
    value: &'v Value<'t>,
) -> Result<DraftStmt, Miss<Shape<'v, 't>>>
    ensures { Gives line_of result (statement_at (body_at levels) (view value.now)) }
{
    match value {
        Value::String(word) => match word_of(word) {
            None => Err(Miss::Wrong(Shape { at: value })),
            Some(statement) => Ok(statement),
        },
        Value::Object(_) => {
            if is_branch(value) {
                branch_of(alloc, levels, value)
            } else {
                simple_of(alloc, value)
            }
        }
        _ => Err(Miss::Wrong(Shape { at: value })),
    }
}

#[cycle(body)]
fn statements_of<'v, 't>(
    alloc: Global,
    levels: u32,
    values: &'v [Value<'t>],
) -> Result<Vec<DraftStmt>, Miss<Shape<'v, 't>>>
    ensures { Gives (λ v. map line_of v.items) result (each (statement_at (body_at levels))
        (map view values.now)) }
{
    let mut statements = Vec::new(alloc);
    for value in values {
        let statement = statement_of(alloc, levels, value)?;
        statements.push(statement)?;
    }
    Ok(statements)
}

#[cycle(body)]
#[tactic(auto, unfolding(crate::specs::Statements::list_at), using(crate::proofs::Bodies::lines_of_all))]
fn list_of_statements<'v, 't>(
    alloc: Global,
    levels: u32,
    value: &'v Value<'t>,
) -> Result<DraftBody, Miss<Shape<'v, 't>>>
    ensures { Gives (λ b. b) result (list_at (body_at levels) (view value.now)) }
{
    let list = list_of(value)?;
    let statements = statements_of(alloc, levels, list)?;
    Ok(DraftBody::new(statements))
}

/// A list of statements, with lists in lists to this depth.
#[cycle(body)]
#[tactic(auto, using(crate::proofs::Bodies::levels))]
pub(crate) fn body_of<'v, 't>(
    alloc: Global,
    levels: u32,
    value: &'v Value<'t>,
) -> Result<DraftBody, Miss<Shape<'v, 't>>>
    ensures { Gives (λ b. b) result (body_at levels (view value.now)) }
{
    if levels == 0 {
        return Err(Miss::Wrong(Shape { at: value }));
    }
    list_of_statements(alloc, levels - 1, value)
}
