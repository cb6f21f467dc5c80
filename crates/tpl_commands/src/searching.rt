//! The search for a certificate of a document's claims.

ghost use Rattle.std.specs.Prelude.{◌≡◌, ◌++◌, true, Some, codes, IfOk, string_bytes, All};
ghost use Rattle.std.specs.List.{list_all};
ghost use Rattle.serde_json.specs.Read.{read};
ghost use Rattle.serde_json.specs.Written.{compact_text};
ghost use Rattle.tpl_cert.specs.Prelude.{has_ids};
ghost use Rattle.tpl_commands.specs.Prelude.{ClaimsHold, IsBackWhereRead, IsFoundBy, IsOutcomeText, IsProofOf, IsRead, IsSearchOf, IsSearching, proof_data, rules_for, trees_of};
ghost use Rattle.tpl_commands.specs.Texts.{not_found as not_found_line};
ghost use Rattle.tpl_graph.specs.Prelude.{Fits};
ghost use Rattle.tpl_model.specs.Prelude.{IsPlain};
ghost use Rattle.tpl_model.specs.declared.rule_set.RuleSet.TheVariants.{WithoutTokens};
ghost use Rattle.tpl_reader.specs.Prelude.{doc_of};

use crate::answer::Answer;
use crate::exit::Exit;
use crate::proof::{Proof, array_text, find_proof};
use crate::rules::rules_of;
use crate::text::not_found;
use std::alloc::{AllocError, Global};
use tpl_analyser::{Budget, Depth, Form, Gap, Leaves, RanOut, Watch};
use tpl_graph::Graph;
use tpl_reader::{Document, certificate_is_read_back, one_document};

/// How a search for a certificate ends.
#[derive(Drop)]
pub enum Outcome {
    /// This certificate was found.
    Certificate(Proof),
    /// The first claim for which no tree was found, and what ran out before; claims count from 1.
    Missed { claim: usize, ran_out: RanOut },
}

/// A search for a certificate of a document's claims.
#[derive(Drop)]
pub struct Searched {
    /// The most splits on each path.
    pub depth: Depth,
    /// What the leaves are to say.
    pub form: Form,
    /// How it ended.
    pub outcome: Outcome,
}

/// Searches for a certificate of the document's claims. The certificate that the document has, if any, isn't used. The
/// watcher is told how far the search is. Out of memory is the only error.
pub(crate) fn search<T: Watch>(
    alloc: Global,
    document: &Document,
    depth: Depth,
    form: Form,
    watch: T,
) -> Result<Searched, AllocError>
    requires claims { All (Fits document.now.graph.graph) document.now.claims.items }
    ensures found { IfOk result (IsSearchOf (doc_of document.now)) }
    ensures asked { IfOk result (λ it. (it.depth ≡ depth) × (it.form ≡ form)) }
{
    let (graph, claims) = (&document.graph, &document.claims);
    let rules = rules_of(document);
    let mut budget = Budget::new(watch, Leaves::USUAL);
    match find_proof(alloc, graph, claims, rules, depth, form, &mut budget) {
        Ok(proof) => Ok(Searched {
            depth,
            form,
            outcome: Outcome::Certificate(proof),
        }),
        Err(Gap::NotFound { claim }) => {
            let ran_out = budget.ran_out();
            Ok(Searched {
                depth,
                form,
                outcome: Outcome::Missed { claim, ran_out },
            })
        }
        Err(Gap::Memory) => Err(AllocError),
    }
}

/// The answer that names a claim.
pub(crate) fn missed_answer(alloc: Global, claim: usize) -> Result<Answer, AllocError>
    ensures { IfOk result (λ given. (given.exit ≡ Exit.Failure)
        × (string_bytes given.text ≡ not_found_line claim)) }
{
    Ok(Answer {
        exit: Exit::Failure,
        text: not_found(alloc, claim)?,
    })
}

/// A certificate that is accepted can be written, the claims hold, and what is written of it is taken back.
pub(crate) fn found_law(document: &Document, proof: &Proof)
    requires { IsProofOf (doc_of document.now) proof.now }
    ensures ids { list_all (has_ids document.now.graph.names) (trees_of proof.now) ≡ true }
    ensures plain { rules_for proof.now ≡ WithoutTokens → All IsPlain (trees_of proof.now) }
    ensures hold { ClaimsHold (doc_of document.now) }
    ensures back { IsBackWhereRead (doc_of document.now) (trees_of proof.now) }
{
    document.graph.valid_law();
    tpl_laws::sound_by_rules();
    tpl_laws::tokens_accept_more();
    one_document();
    certificate_is_read_back();
    proof.limits_law();
}

/// The certificate that was found, as the answer.
fn certificate_answer(
    alloc: Global,
    document: &Document,
    depth: Depth,
    form: Form,
    proof: &Proof,
) -> Result<Answer, AllocError>
    requires { IsFoundBy depth form (doc_of document.now) proof.now }
    ensures { IfOk result (λ given.
        IsSearching depth form (doc_of document.now) given.exit (string_bytes given.text)
        × IsOutcomeText document.now.graph.names (Outcome.Certificate proof.now)
        (string_bytes given.text)) }
{
    let _ = (depth, form);
    found_law(document, proof);
    let text = certificate_text(alloc, &document.graph, proof)?;
    Ok(Answer {
        exit: Exit::Success,
        text,
    })
}

/// The text of the certificate that was found, or the line that names the claim for which none was.
pub(crate) fn found_answer(
    alloc: Global,
    document: &Document,
    searched: &Searched,
) -> Result<Answer, AllocError>
    requires { IsSearchOf (doc_of document.now) searched.now }
    ensures { IfOk result (λ given.
        IsSearching searched.now.depth searched.now.form (doc_of document.now) given.exit
        (string_bytes given.text)
        × IsOutcomeText document.now.graph.names searched.now.outcome (string_bytes given.text)) }
{
    match &searched.outcome {
        Outcome::Certificate(proof) => {
            let (depth, form) = (searched.depth, searched.form);
            certificate_answer(alloc, document, depth, form, proof)
        }
        Outcome::Missed { claim, .. } => missed_answer(alloc, *claim),
    }
}

/// The trees as one array, and a line break.
fn certificate_text(alloc: Global, graph: &Graph, proof: &Proof) -> Result<String, AllocError>
    requires ids { list_all (has_ids graph.now.names) (trees_of proof.now) ≡ true }
    requires plain { rules_for proof.now ≡ WithoutTokens → All IsPlain (trees_of proof.now) }
    ensures written { IfOk result (λ text.
        string_bytes text ≡ compact_text (proof_data graph.now.names proof.now) ++ codes "\n") }
    ensures read { IfOk result (λ _.
        All (IsRead (rules_for proof.now) graph.now.names) (trees_of proof.now)) }
    ensures value { IfOk result (λ _. read (compact_text (proof_data graph.now.names proof.now))
        ≡ Some (proof_data graph.now.names proof.now)) }
{
    let mut text = array_text(alloc, graph, proof)?;
    text.push_str("\n")?;
    Ok(text)
}
