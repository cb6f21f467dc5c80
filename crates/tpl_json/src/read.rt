//! From bytes to a value of JSON.

ghost use Rattle.std.specs.Prelude.{◌≡◌, ◌≢◌, ◌≤◌, Some, None, IfOk, IfErr, IsUtf8};
ghost use Rattle.json.specs.Value.{value_view, items_view, members_view};
ghost use Rattle.serde_json.specs.Data.{depth};
ghost use Rattle.serde_json.specs.Read.{read};
ghost use Rattle.tpl_json.specs.Prelude.{in_range, items_in_range, members_in_range, view};

use crate::number::is_in_range;
use json::{Error, Reader, Scratch, Value};
use std::alloc::Global;

/// How deep arrays and objects of a text may nest, in levels, as serde_json has it.
pub const MOST_NESTED: usize = 127;

/// Why bytes were not read.
#[derive(Clone, Copy, Debug, Drop, PartialEq, Eq)]
pub enum NotRead {
    /// They are no UTF-8.
    NotUtf8,
    /// They are no JSON, or nest too deep. The text is read as far as this byte, counted from 0; the first that can't
    /// stand where it does, or the text's length where it ends too early.
    NotJson(usize),
    /// A number is too large for a float.
    TooLarge,
    /// Memory ran out.
    Memory,
}

#[cycle(in_range)]
fn in_range(value: &Value<'_>) -> bool
    ensures { result ≡ in_range (value_view value.now) }
{
    match value {
        Value::Number(text) => is_in_range(text),
        Value::Array(items) => items_in_range(items.as_slice()),
        Value::Object(members) => members_in_range(members.as_slice()),
        _ => true,
    }
}

#[cycle(in_range)]
fn items_in_range(items: &[Value<'_>]) -> bool
    ensures { result ≡ items_in_range (items_view items.now) }
{
    for item in items {
        if !in_range(item) {
            return false;
        }
    }
    true
}

#[cycle(in_range)]
fn members_in_range(members: &[(&str, Value<'_>)]) -> bool
    ensures { result ≡ members_in_range (members_view members.now) }
{
    for member in members {
        if !in_range(&member.1) {
            return false;
        }
    }
    true
}

fn text_read<'t>(
    alloc: Global,
    text: &'t str,
    scratch: &'t mut Scratch,
) -> Result<Value<'t>, NotRead>
    ensures ok { IfOk result (λ v. read text.now ≡ Some (view v)) }
    ensures err { IfErr result (λ e. e ≢ NotRead.Memory → read text.now ≡ None) }
{
    let Ok(mut reader) = Reader::new(text, scratch) else {
        return Err(NotRead::Memory);
    };
    let value = match Value::read(alloc, &mut reader, MOST_NESTED) {
        Ok(value) => value,
        Err(Error::OutOfMemory) => return Err(NotRead::Memory),
        Err(_) => return Err(NotRead::NotJson(reader.offset())),
    };
    if reader.next().is_some() {
        return Err(NotRead::NotJson(reader.offset()));
    }
    if in_range(&value) {
        Ok(value)
    } else {
        Err(NotRead::TooLarge)
    }
}

/// The value that bytes spell in UTF-8, as serde_json reads them. Of several members of one name the
/// last counts, and arrays and objects nest at most `MOST_NESTED` deep. A text without escapes borrows
/// the bytes, and one with escapes the scratch.
pub fn value_from<'t>(
    alloc: Global,
    bytes: &'t [u8],
    scratch: &'t mut Scratch,
) -> Result<Value<'t>, NotRead>
    ensures ok { IfOk result (λ v. IsUtf8 bytes.now × (read bytes.now ≡ Some (view v))) }
    ensures nests { IfOk result (λ v. depth (view v) ≤ MOST_NESTED) }
    ensures err { IfErr result (λ e. e ≢ NotRead.Memory → IsUtf8 bytes.now → read bytes.now ≡ None) }
{
    match std::str::from_utf8(bytes) {
        Ok(text) => text_read(alloc, text, scratch),
        Err(_) => Err(NotRead::NotUtf8),
    }
}
