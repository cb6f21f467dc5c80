//! Why the program's answer is what it is.

ghost use Rattle.std.specs.Prelude.{◌≡◌, ◌≢◌, [], IfOk, IfSome, string_bytes, All, option_map};
ghost use Rattle.tpl_commands.specs.Prelude.{IsFindingOf};
ghost use Rattle.tpl_graph.specs.Prelude.{Fits};
ghost use Rattle.tpl_reasons.specs.Prelude.{IsShown, found_reason, reason_of};

use crate::auditing::{
    audit_reason, ends_otherwise_text, no_journal_text, no_start_text, not_allowed_text,
    not_complete_text, run_text,
};
use crate::checking::{check_reason, fault_text};
use crate::reason::Reason;
use crate::searching::{not_found_text, search_reason};
use crate::shown::said;
use crate::unread::unread_text;
use crate::words::Said;
use std::alloc::{AllocError, Global};
use tpl_commands::{Finding, Found};
use tpl_reader::Document;

/// What is said of a document without tasks, and of one without claims.
const NO_TASK: &str = "there is no task and no claim, so nothing is shown\n";

const NO_CLAIM: &str = "no claim was asked, so nothing is shown\n";

/// Why the program's answer is what it is.
#[derive(Drop)]
pub struct Reasoned {
    /// What the explanation is made of.
    pub reason: Reason,
    /// The explanation in words, a line or two, or more where each claim has one. It ends with a line break.
    pub text: String,
}

/// The reason of the answer to a document for which this was found, if there is something to say.
fn found_reason(document: &Document, found: &Found) -> Option<Reason>
    ensures { result ≡ found_reason document.now.claims.items found.now }
{
    match found {
        Found::Checked(verdict) => check_reason(document, verdict),
        Found::Drawn(_, _) => None,
        Found::Searched(searched) => search_reason(document, searched),
        Found::Certified(searched) => search_reason(document, searched),
        Found::Audited(audit) => audit_reason(*audit),
    }
}

/// The reason of an answer, if there is something to say.
fn reason_of(finding: &Finding) -> Option<Reason>
    ensures { result ≡ reason_of finding.now }
{
    match finding {
        Finding::Unread(misread) => Some(Reason::Unreadable(misread.fault)),
        Finding::Read(document, found) => found_reason(document, found),
    }
}

/// The words for a claim without a certificate, where a search found this.
fn missed_text(alloc: Global, document: &Document, found: &Found) -> Said
    requires claims { All (Fits document.now.graph.graph) document.now.claims.items }
{
    match found {
        Found::Searched(searched) | Found::Certified(searched) => {
            not_found_text(alloc, document, searched)
        }
        Found::Checked(_) | Found::Drawn(_, _) | Found::Audited(_) => Ok(String::new(alloc)),
    }
}

/// The words for the reason of the answer to a document for which this was found.
fn found_text(alloc: Global, document: &Document, found: &Found, reason: Reason) -> Said
    requires claims { All (Fits document.now.graph.graph) document.now.claims.items }
{
    match reason {
        Reason::Unreadable(_) => Ok(String::new(alloc)),
        Reason::Unchecked(fault) => fault_text(alloc, document, fault),
        Reason::NotFound(_) => missed_text(alloc, document, found),
        Reason::NoStart => no_start_text(alloc, document),
        Reason::NoJournal(fault) => no_journal_text(alloc, document, fault),
        Reason::NotAllowed(line) => not_allowed_text(alloc, document, line),
        Reason::Fails(failure, other_end) => run_text(alloc, document, failure, other_end),
        Reason::EndsOtherwise { other, complete } => {
            ends_otherwise_text(alloc, document, other, complete)
        }
        Reason::NotComplete => not_complete_text(alloc, document),
        Reason::NothingAsked if document.graph.len() == 0 => String::from_str(alloc, NO_TASK),
        Reason::NothingAsked => String::from_str(alloc, NO_CLAIM),
    }
}

/// The words for the reason of an answer.
fn text_of(alloc: Global, bytes: &[u8], finding: &Finding, reason: Reason) -> Said
    requires { IsFindingOf bytes.now finding.now }
{
    match finding {
        Finding::Unread(misread) => unread_text(alloc, bytes, misread),
        Finding::Read(document, found) => found_text(alloc, document, found, reason),
    }
}

/// Why the answer to these bytes, for which this was found, is what it is, in words; none, where the answer says all. What
/// stands in the document and would change how a terminal shows the words, as a control character, is escaped. Out of
/// memory is the only error.
pub fn explain(
    alloc: Global,
    bytes: &[u8],
    finding: &Finding,
) -> Result<Option<Reasoned>, AllocError>
    requires { IsFindingOf bytes.now finding.now }
    ensures reason { IfOk result (λ o. option_map (λ r. r.reason) o ≡ reason_of finding.now) }
    ensures text { IfOk result (λ o. IfSome o (λ r. string_bytes r.text ≢ [])) }
    ensures shown { IfOk result (λ o. IfSome o (λ r. IsShown (string_bytes r.text))) }
{
    match reason_of(finding) {
        Some(reason) => {
            let text = text_of(alloc, bytes, finding, reason)?;
            let text = said(alloc, text.as_str())?;
            Ok(Some(Reasoned { reason, text }))
        }
        None => Ok(None),
    }
}
