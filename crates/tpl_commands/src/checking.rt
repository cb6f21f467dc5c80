//! The answer to the check of a document's certificate.

ghost use Rattle.std.specs.Prelude.{◌≡◌, IfOk, string_bytes, All};
ghost use Rattle.tpl_commands.specs.Prelude.{IsCheckOf, IsRefusal, IsVerdict, IsVerdictText, NamesTask, rules_of};
ghost use Rattle.tpl_graph.specs.Prelude.{Fits};
ghost use Rattle.tpl_model.specs.declared.rule_set.RuleSet.TheVariants.{WithoutTokens, WithTokens};
ghost use Rattle.tpl_reader.specs.Prelude.{doc_of};

use crate::answer::Answer;
use crate::exit::Exit;
use crate::rules::rules_of;
use crate::text::{refused_claim, refused_leaf, refused_shape};
use std::alloc::{AllocError, Global};
use tpl_checker::check;
use tpl_graph::Graph;
use tpl_model::{CertFault, RuleSet};
use tpl_reader::Document;
use tpl_token_check::{TokenFault, check_tokens};

/// What the check says of the document's certificate by the rules of its version: nothing where it is accepted, else its
/// first fault. Out of memory is the only error.
pub fn check_document(
    alloc: Global,
    document: &Document,
) -> Result<Result<(), CertFault>, AllocError>
    requires { All (Fits document.now.graph.graph) document.now.claims.items }
    ensures { IfOk result (IsCheckOf (doc_of document.now)) }
{
    match rules_of(document) {
        RuleSet::WithoutTokens => Ok(check_without_tokens(document)),
        RuleSet::WithTokens => check_with_tokens(alloc, document),
    }
}

/// The same by the rules without tokens.
fn check_without_tokens(document: &Document) -> Result<(), CertFault>
    requires claims { All (Fits document.now.graph.graph) document.now.claims.items }
    requires rules { rules_of (doc_of document.now) ≡ WithoutTokens }
    ensures { IsCheckOf (doc_of document.now) result }
{
    let (graph, claims) = (&document.graph, &document.claims);
    check(graph, claims, &document.certificate)
}

/// The same by the rules with tokens.
fn check_with_tokens(
    alloc: Global,
    document: &Document,
) -> Result<Result<(), CertFault>, AllocError>
    requires claims { All (Fits document.now.graph.graph) document.now.claims.items }
    requires rules { rules_of (doc_of document.now) ≡ WithTokens }
    ensures { IfOk result (IsCheckOf (doc_of document.now)) }
{
    document.graph.valid_law();
    document.certificate.limits_law();
    tpl_laws::token_fault_is_first();
    let (graph, claims) = (&document.graph, &document.claims);
    match check_tokens(alloc, graph, claims, document.certificate.trees()) {
        Ok(()) => Ok(Ok(())),
        Err(TokenFault::Fails(fault)) => Ok(Err(fault)),
        Err(TokenFault::Memory) => Err(AllocError),
    }
}

/// The answer where the check says this of the document's certificate.
pub(crate) fn verdict_answer(
    alloc: Global,
    document: &Document,
    verdict: &Result<(), CertFault>,
) -> Result<Answer, AllocError>
    requires { IsCheckOf (doc_of document.now) verdict.now }
    ensures { IfOk result (λ given.
        IsVerdict (doc_of document.now) given.exit (string_bytes given.text)
        × IsVerdictText document.now.graph.names.tasks verdict.now (string_bytes given.text)) }
{
    match verdict {
        Ok(()) => Ok(Answer {
            exit: Exit::Success,
            text: String::from_str(alloc, "accepted\n")?,
        }),
        Err(fault) => refused_answer(alloc, &document.graph, *fault),
    }
}

/// The answer to a certificate that has this fault.
pub fn refused_answer(alloc: Global, graph: &Graph, fault: CertFault) -> Result<Answer, AllocError>
    requires { NamesTask graph.now.graph fault }
    ensures { IfOk result (λ given. (given.exit ≡ Exit.Failure)
        × IsRefusal graph.now.names.tasks fault (string_bytes given.text)) }
{
    Ok(Answer {
        exit: Exit::Failure,
        text: refusal(alloc, graph, fault)?,
    })
}

/// The line for the first fault of a certificate.
fn refusal(alloc: Global, graph: &Graph, fault: CertFault) -> Result<String, AllocError>
    requires { NamesTask graph.now.graph fault }
    ensures { IfOk result (λ text.
        IsRefusal graph.now.names.tasks fault (string_bytes text)) }
{
    match fault {
        CertFault::Shape { claim } => refused_shape(alloc, claim),
        CertFault::NotClosed {
            claim,
            leaf,
            task,
            rule,
        } => refused_leaf(alloc, claim, leaf, graph.name(task), rule),
        CertFault::ClaimNot { claim, leaf } => refused_claim(alloc, claim, leaf),
    }
}
