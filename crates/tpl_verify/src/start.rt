//! Where a run starts, with the inputs of another run.

ghost use Rattle.std.specs.Prelude.{◌≡◌, IfOk, codes, length};
ghost use Rattle.serde_json.specs.Find.{get};
ghost use Rattle.serde_json.specs.View.{view, members_view};
ghost use Rattle.tpl_verify.specs.Prelude.{AreFirst, HasForm, IsStartWith, start_data};

use serde_json::{Map, Value};
use std::alloc::{AllocError, Global};
use tpl_graph::Graph;
use tpl_model::{InputId, Inputs};

/// A member for each input of the graph, with its value. Out of memory is the only error.
pub fn input_members(
    alloc: Global,
    graph: &Graph,
    inputs: &Inputs,
) -> Result<Map<String, Value>, AllocError>
    ensures { IfOk result (λ m. AreFirst graph.now.names.inputs inputs.now
        (length graph.now.names.inputs) (members_view m.entries)) }
{
    graph.valid_law();
    let mut members = Map::new(alloc);
    for number in 0..graph.input_count() {
        let input = InputId(number as u8);
        let name = String::from_str(alloc, graph.input_name(input))?;
        members.insert(name, Value::Bool(inputs.get(input)))?;
    }
    Ok(members)
}

/// The start of a document, or an empty one.
fn start_of(alloc: Global, document: &Value) -> Result<Value, AllocError>
    ensures { IfOk result (λ v.
        view v ≡ start_data (get (codes "start") (view document.now))) }
{
    match document.get("start") {
        Some(start) => start.clone(),
        None => Ok(Value::Object(Map::new(alloc))),
    }
}

/// The start of a document with these inputs, and all else of it as it was.
pub(crate) fn start_with(
    alloc: Global,
    document: &Value,
    graph: &Graph,
    inputs: &Inputs,
) -> Result<Value, AllocError>
    requires { HasForm (view document.now) }
    ensures { IfOk result (λ v. IsStartWith graph.now.names.inputs inputs.now
        (get (codes "start") (view document.now)) (view v)) }
{
    let mut start = start_of(alloc, document)?;
    let values = Value::Object(input_members(alloc, graph, inputs)?);
    if let Some(members) = start.as_object_mut() {
        members.insert(String::from_str(alloc, "inputs")?, values)?;
    }
    Ok(start)
}
