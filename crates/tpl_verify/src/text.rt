//! The text of a document with a run.

ghost use Rattle.std.specs.Prelude.{◌≡◌, ◌≤◌, ◌++◌, ℕ, List, IfOk, codes, length, string_bytes};
ghost use Rattle.json.specs.Lex.{tokens};
ghost use Rattle.json.specs.Print.{print};
ghost use Rattle.serde_json.specs.Data.{depth};
ghost use Rattle.serde_json.specs.View.{view};
ghost use Rattle.tpl_reader.specs.Prelude.{Reads, Spells, doc_of, without_returns};
ghost use Rattle.tpl_verify.specs.Prelude.{HasForm, IsFilled, IsTextOf, IsUnseen, IsUnseenOf, with_run};

use crate::start::start_with;
use serde_json::Value;
use std::alloc::{AllocError, Global};
use tpl_json::MOST_NESTED;
use tpl_model::Inputs;
use tpl_reader::{Document, behind_mark};

/// What the bytes of a document read as.
fn read_value(alloc: Global, bytes: &[u8], document: &Document) -> Result<Value, AllocError>
    requires { Spells bytes.now (doc_of document.now) }
    ensures reads { IfOk result (λ v. Reads bytes.now (view v)) }
    ensures nests { IfOk result (λ v. depth (view v) ≤ MOST_NESTED) }
{
    let _ = document;
    match Value::from_slice(alloc, behind_mark(bytes)) {
        Ok(value) => Ok(value),
        Err(fault) => {
            if fault.is_memory() {
                Err(AllocError)
            } else {
                unreachable!()
            }
        }
    }
}

/// The document without what was seen of a run: how tasks ended, and when the lines of the journal were written.
fn without_seen(document: Value) -> Value
    requires { HasForm (view document) }
    ensures { IsUnseen (view document) (view result) }
{
    let mut document = document;
    if let Some(members) = document.as_object_mut() {
        drop(members.remove("ended"));
        drop(members.remove("times"));
    }
    document
}

/// What the bytes of a document read as, without what was seen of a run.
fn value_of(alloc: Global, bytes: &[u8], document: &Document) -> Result<Value, AllocError>
    requires { Spells bytes.now (doc_of document.now) }
    ensures reads { IfOk result (λ v. IsUnseenOf bytes.now (view v)) }
    ensures form { IfOk result (λ v. HasForm (view v)) }
    ensures nests { IfOk result (λ v. depth (view v) ≤ MOST_NESTED) }
{
    let value = read_value(alloc, bytes, document)?;
    Ok(without_seen(value))
}

/// The document with this start and this journal.
fn filled(
    alloc: Global,
    document: Value,
    start: Value,
    journal: String,
) -> Result<Value, AllocError>
    requires { HasForm (view document) }
    ensures { IfOk result (λ v. IsFilled (view start) (string_bytes journal) (view document)
        (view v)) }
{
    let mut document = document;
    if let Some(members) = document.as_object_mut() {
        members.insert(String::from_str(alloc, "start")?, start)?;
        members.insert(String::from_str(alloc, "journal")?, Value::String(journal))?;
    }
    Ok(document)
}

/// A document with these inputs and this journal, of which no line ends with CR LF, as JSON with no space between its tokens, and a line break. Out of memory
/// is the only error.
pub fn text_with(
    alloc: Global,
    bytes: &[u8],
    document: &Document,
    inputs: &Inputs,
    journal: String,
) -> Result<String, AllocError>
    requires spelled { Spells bytes.now (doc_of document.now) }
    requires inputs { length inputs.now ≡ document.now.graph.graph.inputs }
    requires plain { without_returns (string_bytes journal) ≡ string_bytes journal }
    ensures text { IfOk result (λ text. IsTextOf (string_bytes text)
        (with_run (doc_of document.now) inputs.now (string_bytes journal))) }
    ensures compact { IfOk result (λ text. (json : List ℕ) × (json ≡ print (tokens json))
        × (string_bytes text ≡ json ++ codes "\n")) }
{
    document.graph.valid_law();
    let value = value_of(alloc, bytes, document)?;
    let start = start_with(alloc, &value, &document.graph, inputs)?;
    let mut text = filled(alloc, value, start, journal)?.to_string(alloc)?;
    text.push_str("\n")?;
    Ok(text)
}
