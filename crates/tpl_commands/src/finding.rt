//! What was found for the bytes of a document. The answer and its reason follow from it.

ghost use Rattle.std.specs.Prelude.{IfOk, string_bytes, All};
ghost use Rattle.tpl_audit.specs.Prelude.{AreTasksOf};
ghost use Rattle.tpl_commands.specs.Prelude.{IsAnswer, IsAnswerTo, IsAskedFor, IsFindingOf, IsFoundFor, IsFoundOf, ended_of};
ghost use Rattle.tpl_graph.specs.Prelude.{Fits};
ghost use Rattle.tpl_reader.specs.Prelude.{Spells, doc_of};

use crate::answer::Answer;
use crate::ask::Ask;
use crate::auditing::{Audit, audit_answer, audit_document};
use crate::certifying::certified_answer;
use crate::checking::{check_document, verdict_answer};
use crate::drawing::drawing_answer;
use crate::listening::Listen;
use crate::searching::{Searched, found_answer, search};
use crate::unreadable::unreadable_answer;
use std::alloc::{AllocError, Global};
use tpl_analyser::{Form, Watch};
use tpl_draw::Language;
use tpl_model::CertFault;
use tpl_reader::{Document, Misread, ReadFault, read_document_heard};

/// What was found for a document.
#[derive(Drop)]
pub enum Found {
    /// Its certificate is accepted, or this is its first fault.
    Checked(Result<(), CertFault>),
    /// The same, where a picture in this language is asked for.
    Drawn(Language, Result<(), CertFault>),
    /// How the search for a certificate ended.
    Searched(Searched),
    /// The same, where the document with the certificate is asked for.
    Certified(Searched),
    /// What the audit says of its journal.
    Audited(Audit),
}

/// What was found for bytes.
#[derive(Drop)]
pub enum Finding {
    /// They spell no document, for this reason, which isn't that memory ran out.
    Unread(Misread),
    /// They spell this document, for which this was found.
    Read(Document, Found),
}

/// What is found for a document where this is asked. Out of memory is the only error.
fn found_in<T: Watch>(
    alloc: Global,
    ask: Ask,
    watch: T,
    document: &Document,
) -> Result<Found, AllocError>
    requires claims { All (Fits document.now.graph.graph) document.now.claims.items }
    requires tasks { AreTasksOf document.now.graph.graph (ended_of (doc_of document.now)) }
    ensures found { IfOk result (IsFoundOf (doc_of document.now)) }
    ensures asked { IfOk result (IsFoundFor ask) }
{
    match ask {
        Ask::Check => Ok(Found::Checked(check_document(alloc, document)?)),
        Ask::Analyse(depth) => {
            let searched = search(alloc, document, depth, Form::Full, watch)?;
            Ok(Found::Searched(searched))
        }
        Ask::AnalyseIn(depth, form) => {
            let searched = search(alloc, document, depth, form, watch)?;
            Ok(Found::Searched(searched))
        }
        Ask::Certify(depth, form) => {
            let searched = search(alloc, document, depth, form, watch)?;
            Ok(Found::Certified(searched))
        }
        Ask::Audit => Ok(Found::Audited(audit_document(alloc, document)?)),
        Ask::Draw(language) => Ok(Found::Drawn(language, check_document(alloc, document)?)),
    }
}

/// What is found for bytes where this is asked. The listener is told how far a search is, and asked for words where the
/// bytes spell no document. Out of memory is the only error.
pub fn find<L: Listen>(
    alloc: Global,
    ask: Ask,
    listener: L,
    bytes: &[u8],
) -> Result<Finding, AllocError>
    ensures found { IfOk result (IsFindingOf bytes.now) }
    ensures asked { IfOk result (IsAskedFor ask) }
{
    match read_document_heard(alloc, bytes, listener) {
        Ok(document) => {
            let found = found_in(alloc, ask, listener, &document)?;
            Ok(Finding::Read(document, found))
        }
        Err(misread) => {
            if misread.fault == ReadFault::Memory {
                return Err(AllocError);
            }
            Ok(Finding::Unread(misread))
        }
    }
}

/// The answer to a document for which this was found.
fn answer_to(
    alloc: Global,
    bytes: &[u8],
    document: &Document,
    found: &Found,
) -> Result<Answer, AllocError>
    requires spelled { Spells bytes.now (doc_of document.now) }
    requires claims { All (Fits document.now.graph.graph) document.now.claims.items }
    requires found { IsFoundOf (doc_of document.now) found.now }
    ensures { IfOk result (λ given. IsAnswerTo (doc_of document.now) found.now given.exit
        (string_bytes given.text)) }
{
    match found {
        Found::Checked(verdict) => verdict_answer(alloc, document, verdict),
        Found::Drawn(language, verdict) => drawing_answer(alloc, document, *language, verdict),
        Found::Searched(searched) => found_answer(alloc, document, searched),
        Found::Certified(searched) => certified_answer(alloc, bytes, document, searched),
        Found::Audited(audited) => audit_answer(alloc, document, *audited),
    }
}

/// The answer to bytes for which this was found. Out of memory is the only error.
pub fn answer_of(alloc: Global, bytes: &[u8], finding: &Finding) -> Result<Answer, AllocError>
    requires { IsFindingOf bytes.now finding.now }
    ensures { IfOk result (λ given. IsAnswer finding.now given.exit (string_bytes given.text)) }
{
    match finding {
        Finding::Unread(misread) => unreadable_answer(alloc, misread.fault),
        Finding::Read(document, found) => answer_to(alloc, bytes, document, found),
    }
}
