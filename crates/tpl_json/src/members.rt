//! Members of an object by their names, and elements of an array.

ghost use Rattle.std.specs.Prelude.{◌≡◌, [], map, option_map, option_and_then, string_bytes, IfErr};
ghost use Rattle.std.specs.List.{list_all};
ghost use Rattle.serde_json.specs.Find.{get, as_str, as_bool, as_number, as_u64};
ghost use Rattle.tpl_json.specs.Prelude.{Gives, IsShape, each, has_only, is_one_of, list_in, list_or_none, members_within, text_in, texts_in, view};

use crate::list::read_each;
use crate::miss::{Miss, Shape};
use crate::number::whole_of;
use json::Value;
use std::alloc::Global;

fn is_one_of(names: &[&str], key: &str) -> bool
    ensures { result ≡ is_one_of (map (λ s. s.now) names.now) key.now }
{
    match names {
        [] => false,
        [first, rest @ ..] => key == *first || is_one_of(rest, key),
    }
}

fn members_within(names: &[&str], members: &[(&str, Value<'_>)]) -> bool
    ensures { result ≡ list_all (λ m. is_one_of (map (λ s. s.now) names.now) m.0.now) members.now }
{
    members.iter().all(|member| is_one_of(names, member.0))
}

/// Whether the value is an object with no other members.
#[tactic(auto, unfolding(crate::specs::Members::has_only))]
pub fn has_only(value: &Value<'_>, names: &[&str]) -> bool
    ensures { result ≡ has_only (map (λ s. s.now) names.now) (view value.now) }
{
    match value {
        Value::Object(members) => members_within(names, members.as_slice()),
        _ => false,
    }
}

/// The member, where the value is an object that has it.
#[tactic(auto, using(crate::proofs::DataOf::member_is))]
pub fn find<'v, 't>(value: &'v Value<'t>, name: &str) -> Option<&'v Value<'t>>
    ensures { option_map (λ v. view v.now) result ≡ get name.now (view value.now) }
{
    value.get(name)
}

/// The member's text.
#[tactic(auto, unfolding(crate::specs::Members::text_in))]
pub fn text_in<'v, 't>(value: &'v Value<'t>, name: &str) -> Result<&'v str, Miss<Shape<'v, 't>>>
    ensures gives { Gives (λ s. s.now) result (text_in name.now (view value.now)) }
    ensures shape { IfErr result IsShape }
{
    let text = text_of(member_in(value, name)?)?;
    Ok(text)
}

/// The member.
pub fn member_in<'v, 't>(
    value: &'v Value<'t>,
    name: &str,
) -> Result<&'v Value<'t>, Miss<Shape<'v, 't>>>
    ensures gives { Gives (λ v. view v.now) result (get name.now (view value.now)) }
    ensures shape { IfErr result IsShape }
{
    match find(value, name) {
        None => Err(Miss::Wrong(Shape { at: value })),
        Some(found) => Ok(found),
    }
}

/// The elements of an array.
#[tactic(auto, using(crate::proofs::DataOf::elements_view))]
pub fn list_of<'v, 't>(value: &'v Value<'t>) -> Result<&'v [Value<'t>], Miss<Shape<'v, 't>>>
    ensures gives { Gives (λ s. map view s.now) result (list_in (view value.now)) }
    ensures shape { IfErr result IsShape }
{
    match value {
        Value::Array(list) => Ok(list.as_slice()),
        _ => Err(Miss::Wrong(Shape { at: value })),
    }
}

/// An empty list, lent as the value is.
fn no_elements<'v, 't>(_value: &'v Value<'t>) -> &'v [Value<'t>]
    ensures { result.now ≡ [] }
{
    &[]
}

/// The elements of the member, an array, and none where it isn't there.
#[tactic(auto, unfolding(crate::specs::Members::list_or_none))]
pub fn list_or_none<'v, 't>(
    value: &'v Value<'t>,
    name: &str,
) -> Result<&'v [Value<'t>], Miss<Shape<'v, 't>>>
    ensures gives { Gives (λ s. map view s.now) result (list_or_none
        (get name.now (view value.now))) }
    ensures shape { IfErr result IsShape }
{
    match find(value, name) {
        None => Ok(no_elements(value)),
        Some(list) => list_of(list),
    }
}

/// The value's text.
#[tactic(auto, using(crate::proofs::DataOf::text_is))]
pub fn text_of<'v, 't>(value: &'v Value<'t>) -> Result<&'v str, Miss<Shape<'v, 't>>>
    ensures gives { Gives (λ s. s.now) result (as_str (view value.now)) }
    ensures shape { IfErr result IsShape }
{
    match value.as_str() {
        None => Err(Miss::Wrong(Shape { at: value })),
        Some(text) => Ok(text),
    }
}

/// The value, true or false.
#[tactic(auto, using(crate::proofs::DataOf::truth_is))]
pub fn bool_of<'v, 't>(value: &'v Value<'t>) -> Result<bool, Miss<Shape<'v, 't>>>
    ensures gives { Gives (λ b. b) result (as_bool (view value.now)) }
    ensures shape { IfErr result IsShape }
{
    match value.as_bool() {
        None => Err(Miss::Wrong(Shape { at: value })),
        Some(truth) => Ok(truth),
    }
}

/// The value, a whole number of 64 bits, written with no sign, point or exponent.
pub fn number_of<'v, 't>(value: &'v Value<'t>) -> Result<u64, Miss<Shape<'v, 't>>>
    ensures gives { Gives (λ n. n) result (option_and_then as_u64 (as_number (view value.now))) }
    ensures shape { IfErr result IsShape }
{
    match value {
        Value::Number(text) => match whole_of(text) {
            None => Err(Miss::Wrong(Shape { at: value })),
            Some(number) => Ok(number),
        },
        _ => Err(Miss::Wrong(Shape { at: value })),
    }
}

/// The member, true or false.
pub fn bool_in<'v, 't>(value: &'v Value<'t>, name: &str) -> Result<bool, Miss<Shape<'v, 't>>>
    ensures gives { Gives (λ b. b) result (option_and_then as_bool
        (get name.now (view value.now))) }
    ensures shape { IfErr result IsShape }
{
    let truth = bool_of(member_in(value, name)?)?;
    Ok(truth)
}

/// The texts of an array.
pub fn texts_of<'v, 't>(
    alloc: Global,
    values: &'v [Value<'t>],
) -> Result<Vec<&'v str>, Miss<Shape<'v, 't>>>
    ensures { Gives (λ v. map (λ s. s.now) v.items) result (each as_str (map view values.now)) }
{
    read_each(alloc, values, |_, value| text_of(value))
}

/// The value's text, in memory of its own.
fn owned_text<'v, 't>(alloc: Global, value: &'v Value<'t>) -> Result<String, Miss<Shape<'v, 't>>>
    ensures { Gives string_bytes result (as_str (view value.now)) }
{
    let text = text_of(value)?;
    Ok(String::from_str(alloc, text)?)
}

/// The texts of an array, in memory of their own.
pub fn owned_texts<'v, 't>(
    alloc: Global,
    values: &'v [Value<'t>],
) -> Result<Vec<String>, Miss<Shape<'v, 't>>>
    ensures { Gives (λ v. map string_bytes v.items) result (each as_str (map view values.now)) }
{
    read_each(alloc, values, |_, value| owned_text(alloc, value))
}

/// The texts of the member, an array, and none where it isn't there.
#[tactic(auto, unfolding(crate::specs::Members::texts_in))]
pub fn texts_in<'v, 't>(
    alloc: Global,
    value: &'v Value<'t>,
    name: &str,
) -> Result<Vec<&'v str>, Miss<Shape<'v, 't>>>
    ensures { Gives (λ v. map (λ s. s.now) v.items) result (texts_in name.now (view value.now)) }
{
    let list = list_or_none(value, name)?;
    let texts = texts_of(alloc, list)?;
    Ok(texts)
}
