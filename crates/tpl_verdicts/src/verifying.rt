//! The verdicts on the claims of a document, as one text.

ghost use Rattle.std.specs.Prelude.{◌≡◌, ◌↔◌, ◌<◌, None, IfOk, IsTrue, IsUtf8, string_bytes, All};
ghost use Rattle.std.specs.List.{AllZip};
ghost use Rattle.tpl_commands.specs.Prelude.{is_verdict, rules_of};
ghost use Rattle.tpl_graph.specs.Prelude.{Fits};
ghost use Rattle.tpl_reader.specs.Prelude.{Spells, behind_mark, doc_of};
ghost use Rattle.tpl_verdicts.specs.Prelude.{AreRight, IsExit, IsStyled, IsVerified, SaysHolds, Verifies, all_told, told};
ghost use Rattle.tpl_verify.specs.Prelude.{IsVerdict, KeepsTo};

use crate::html::html_of;
use crate::json::json_of;
use crate::judgement::Judgements;
use crate::junit::junit_of;
use crate::searched::Searched;
use crate::style::Style;
use crate::text::text_of;
use crate::verification::Verification;
use crate::word::{Word, words_of};
use std::alloc::{AllocError, Global};
use std::thread::Threads;
use tpl_commands::{Answer, Answered, Command, Exit, rules_of, unread};
use tpl_reader::{Document, Unheard, read_document_heard};
use tpl_verify::{Attend, Limits, Verdict, verify, verify_beside};

/// Each claim holds, and none is known to be empty.
fn each_holds(words: &[Word]) -> bool
    ensures { IsTrue result ↔ All SaysHolds words.now }
{
    words.iter().all(|word| word.says_holds())
}

/// How the program ends with these words for the verdicts. Where there is none, nothing was verified, which is no success.
pub(crate) fn exit_of(words: &[Word]) -> Exit
    ensures ends { IsExit words.now result }
    ensures answered { IsTrue (is_verdict result) }
{
    if !words.is_empty() && each_holds(words) {
        Exit::Success
    } else {
        Exit::Failure
    }
}

/// The verdicts on the claims of the document that these bytes spell, in this style.
fn styled(
    alloc: Global,
    style: Style,
    bytes: &[u8],
    all: &Judgements<'_>,
) -> Result<String, AllocError>
    requires document { IsUtf8 (behind_mark bytes.now) }
    requires right { AreRight all.now }
    ensures { IfOk result (λ text.
        IsStyled style (behind_mark bytes.now) all.now.searched.rules all.now.graph.now.names
        (all_told all.now) all.now.verdicts.now (string_bytes text)) }
{
    match style {
        Style::Text => text_of(alloc, all),
        Style::Json => json_of(alloc, all),
        Style::Junit => junit_of(alloc, all),
        Style::Html => html_of(alloc, bytes, all),
    }
}

/// The claims of the document with these verdicts.
pub(crate) fn judgements_of<'d>(
    document: &'d Document,
    verdicts: &'d [Verdict],
    limits: &Limits,
) -> Judgements<'d>
    requires claims { All (Fits document.now.graph.graph) document.now.claims.items }
    requires verdicts { AllZip (IsVerdict (rules_of (doc_of document.now))
        document.now.graph.graph) document.now.claims.items verdicts.now }
    ensures right { AreRight result }
    ensures rules { result.searched.rules ≡ rules_of (doc_of document.now) }
    ensures graph { result.graph.now ≡ document.now.graph }
    ensures claims { result.claims.now ≡ document.now.claims.items }
    ensures verdicts { result.verdicts.now ≡ verdicts.now }
    ensures told { all_told result ≡ told document.now.claims.items (doc_of document.now).names
        verdicts.now }
{
    let rules = rules_of(document);
    Judgements {
        graph: &document.graph,
        claims: &document.claims,
        names: &document.names,
        verdicts,
        searched: Searched {
            depth: limits.depth,
            runs: limits.runs,
            rules,
        },
    }
}

/// The answer where these are the verdicts on the claims of the document that the bytes spell.
fn answer_of(
    alloc: Global,
    limits: &Limits,
    style: Style,
    bytes: &[u8],
    document: &Document,
    verdicts: &[Verdict],
) -> Result<Answered, AllocError>
    requires spelled { Spells bytes.now (doc_of document.now) }
    requires claims { All (Fits document.now.graph.graph) document.now.claims.items }
    requires verdicts { AllZip (IsVerdict (rules_of (doc_of document.now))
        document.now.graph.graph) document.now.claims.items verdicts.now }
    requires within { All (KeepsTo limits.now.depth limits.now.runs) verdicts.now }
    ensures answer { IfOk result (λ it. IsVerified limits.now.depth limits.now.runs style
        bytes.now (doc_of document.now) it.answer.exit (string_bytes it.answer.text)) }
    ensures found { IfOk result (λ it. it.finding ≡ None) }
{
    let all = judgements_of(document, verdicts, limits);
    let text = styled(alloc, style, bytes, &all)?;
    let words = words_of(alloc, verdicts)?;
    let exit = exit_of(&words);
    let (answer, finding) = (Answer { exit, text }, None);
    Ok(Answered { answer, finding })
}

/// Answers each claim of a document, one after another, with no thread of its own.
#[derive(Clone, Copy, Debug, Drop)]
pub struct OneByOne {
    /// How much is tried for each claim at most.
    pub limits: Limits,
    /// How the verdicts are written.
    pub style: Style,
}

impl Command for OneByOne {
    ghost answers = { λ this. Verifies this.limits.depth this.limits.runs this.style };

    fn answer(&self, alloc: Global, bytes: &[u8]) -> Result<Answered, AllocError> {
        let OneByOne { limits, style } = self;
        match read_document_heard(alloc, bytes, Unheard) {
            Ok(document) => {
                let (graph, rules) = (&document.graph, rules_of(&document));
                let verdicts = verify(alloc, graph, &document.claims, rules, limits)?;
                answer_of(alloc, limits, *style, bytes, &document, &verdicts)
            }
            Err(misread) => unread(alloc, bytes, misread),
        }
    }
}

/// The answer to the document that the bytes spell, whose claims are searched by several threads.
pub(crate) fn answer_beside<T: Threads + Sync, A: Attend + Sync>(
    rt: &T,
    alloc: Global,
    asked: Verification,
    attend: &A,
    bytes: &[u8],
    document: &Document,
) -> Result<Answered, AllocError>
    requires jobs { 0 < asked.jobs }
    requires spelled { Spells bytes.now (doc_of document.now) }
    requires claims { All (Fits document.now.graph.graph) document.now.claims.items }
    ensures answer { IfOk result (λ it. IsVerified asked.limits.depth asked.limits.runs asked.style
        bytes.now (doc_of document.now) it.answer.exit (string_bytes it.answer.text)) }
    ensures found { IfOk result (λ it. it.finding ≡ None) }
{
    let (graph, claims) = (&document.graph, document.claims.as_slice());
    let (rules, limits) = (rules_of(document), &asked.limits);
    let verdicts = verify_beside(rt, alloc, graph, claims, rules, limits, asked.jobs, attend)?;
    answer_of(alloc, limits, asked.style, bytes, document, &verdicts)
}
