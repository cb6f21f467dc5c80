//! The document with a certificate that was found.

ghost use Rattle.std.specs.Prelude.{◌≡◌, true, IfOk, string_bytes, All};
ghost use Rattle.std.specs.List.{list_all};
ghost use Rattle.serde_json.specs.View.{view};
ghost use Rattle.tpl_cert.specs.Prelude.{has_ids};
ghost use Rattle.tpl_commands.specs.Prelude.{IsCertifying, IsFoundBy, IsObject, IsRead, IsSearchOf, IsSized, IsTextOfObject, IsWholeText, proof_data, rules_for, trees_of};
ghost use Rattle.tpl_model.specs.Prelude.{IsPlain};
ghost use Rattle.tpl_model.specs.declared.rule_set.RuleSet.TheVariants.{WithoutTokens};
ghost use Rattle.tpl_reader.specs.Prelude.{HasCertificate, HoldsCertificate, Reads, Spells, doc_of};

use crate::answer::Answer;
use crate::exit::Exit;
use crate::proof::{Proof, array_text};
use crate::searching::{Outcome, Searched, found_law, missed_answer};
use serde_json::Value;
use std::alloc::{AllocError, Global};
use tpl_analyser::{Depth, Form};
use tpl_graph::Graph;
use tpl_reader::{Document, LONGEST, behind_mark};

/// The document of these bytes with the certificate that was found.
fn certified(
    alloc: Global,
    bytes: &[u8],
    document: &Document,
    depth: Depth,
    form: Form,
    proof: &Proof,
) -> Result<Answer, AllocError>
    requires spelled { Spells bytes.now (doc_of document.now) }
    requires found { IsFoundBy depth form (doc_of document.now) proof.now }
    ensures { IfOk result (λ given.
        IsCertifying depth form (doc_of document.now) given.exit (string_bytes given.text)
        × IsWholeText document.now.graph.names (Outcome.Certificate proof.now)
        (string_bytes given.text)) }
{
    let _ = (depth, form);
    found_law(document, proof);
    let text = whole_text(alloc, bytes, &document.graph, proof)?;
    sized(alloc, text)
}

/// The document of these bytes with the certificate that was found, or the line that names the claim for which none was.
pub(crate) fn certified_answer(
    alloc: Global,
    bytes: &[u8],
    document: &Document,
    searched: &Searched,
) -> Result<Answer, AllocError>
    requires spelled { Spells bytes.now (doc_of document.now) }
    requires found { IsSearchOf (doc_of document.now) searched.now }
    ensures { IfOk result (λ given.
        IsCertifying searched.now.depth searched.now.form (doc_of document.now) given.exit
        (string_bytes given.text)
        × IsWholeText document.now.graph.names searched.now.outcome (string_bytes given.text)) }
{
    match &searched.outcome {
        Outcome::Certificate(proof) => {
            let (depth, form) = (searched.depth, searched.form);
            certified(alloc, bytes, document, depth, form, proof)
        }
        Outcome::Missed { claim, .. } => missed_answer(alloc, *claim),
    }
}

/// The text, if it can be read back, else that it is too long.
fn sized(alloc: Global, text: String) -> Result<Answer, AllocError>
    ensures { IfOk result (IsSized (string_bytes text)) }
{
    if text.len() <= LONGEST {
        Ok(Answer {
            exit: Exit::Success,
            text,
        })
    } else {
        Ok(Answer {
            exit: Exit::Failure,
            text: String::from_str(alloc, "too long\n")?,
        })
    }
}

/// The text of the document of these bytes with these trees as its certificate, and a line break.
fn whole_text(
    alloc: Global,
    bytes: &[u8],
    graph: &Graph,
    proof: &Proof,
) -> Result<String, AllocError>
    requires json { IsTextOfObject bytes.now }
    requires ids { list_all (has_ids graph.now.names) (trees_of proof.now) ≡ true }
    requires plain { rules_for proof.now ≡ WithoutTokens → All IsPlain (trees_of proof.now) }
    ensures holds { IfOk result (λ text.
        HoldsCertificate bytes.now (proof_data graph.now.names proof.now) (string_bytes text)) }
    ensures read { IfOk result (λ _.
        All (IsRead (rules_for proof.now) graph.now.names) (trees_of proof.now)) }
{
    proof.limits_law();
    let certificate = certificate_value(alloc, graph, proof)?;
    let value = document_value(alloc, bytes)?;
    let mut text = with_certificate(alloc, value, certificate)?.to_string(alloc)?;
    text.push_str("\n")?;
    Ok(text)
}

/// The JSON value of the trees as one array.
fn certificate_value(alloc: Global, graph: &Graph, proof: &Proof) -> Result<Value, AllocError>
    requires ids { list_all (has_ids graph.now.names) (trees_of proof.now) ≡ true }
    requires plain { rules_for proof.now ≡ WithoutTokens → All IsPlain (trees_of proof.now) }
    ensures written { IfOk result (λ value. view value ≡ proof_data graph.now.names proof.now) }
    ensures read { IfOk result (λ _.
        All (IsRead (rules_for proof.now) graph.now.names) (trees_of proof.now)) }
{
    let text = array_text(alloc, graph, proof)?;
    match Value::from_str(alloc, text.as_str()) {
        Ok(value) => Ok(value),
        Err(error) if error.is_memory() => Err(AllocError),
        Err(_) => unreachable!(),
    }
}

/// The JSON value of a document's bytes.
fn document_value(alloc: Global, bytes: &[u8]) -> Result<Value, AllocError>
    requires { IsTextOfObject bytes.now }
    ensures reads { IfOk result (λ value. Reads bytes.now (view value)) }
    ensures object { IfOk result (λ value. IsObject (view value)) }
{
    match Value::from_slice(alloc, behind_mark(bytes)) {
        Ok(value) => Ok(value),
        Err(error) if error.is_memory() => Err(AllocError),
        Err(_) => unreachable!(),
    }
}

/// The object with this member `certificate`, and all else as it was.
fn with_certificate(alloc: Global, value: Value, certificate: Value) -> Result<Value, AllocError>
    requires { IsObject (view value) }
    ensures { IfOk result (λ with. HasCertificate (view value) (view certificate) (view with)) }
{
    match value {
        Value::Object(mut members) => {
            let name = String::from_str(alloc, "certificate")?;
            members.insert(name, certificate)?;
            Ok(Value::Object(members))
        }
        _ => unreachable!(),
    }
}
