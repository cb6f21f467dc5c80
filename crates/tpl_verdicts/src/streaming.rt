//! The verdicts on the claims of a document, each written as soon as those before it are, from a reader to a writer.

ghost use Rattle.std.specs.Prelude.{◌≡◌, ◌≢◌, ◌⊎◌, ◌+◌, ◌≤◌, ◌<◌, ℕ, List, None, codes, length, IfOk, IsTrue, MatchResult, string_bytes, All};
ghost use Rattle.std.specs.List.{AllZip};
ghost use Rattle.tpl_commands.specs.Prelude.{Puts, Responds, is_verdict, rules_of};
ghost use Rattle.tpl_graph.specs.Prelude.{Fits};
ghost use Rattle.tpl_journal.specs.Prelude.{calls_of};
ghost use Rattle.tpl_reader.specs.Prelude.{Spells, doc_of, longest};
ghost use Rattle.tpl_series.specs.Prelude.{IsStopped, TellsAll};
ghost use Rattle.tpl_verdicts.specs.Prelude.{AnswersBytes, IsExit, IsStreamed, Judged, PutsStop, PutsSums, Streams, TellsFirst, Verified, sums_line};
ghost use Rattle.tpl_verdicts.specs.declared.asked.Asked.{Asked};
ghost use Rattle.tpl_verify.specs.Prelude.{IsVerdict, KeepsTo};

use crate::asked::Asked;
use crate::searched::Searched;
use crate::style::Style;
use crate::sums::sums_line;
use crate::verification::Verification;
use crate::verifying::{answer_beside, exit_of};
use crate::word::Word;
use std::alloc::{AllocError, Global};
use std::io::{Read, Write};
use std::sync::Wait;
use std::thread::Threads;
use tpl_commands::{Answer, Answered, Exit, Listen, put_answered, read_input, rules_of, unread};
use tpl_journal::Counting;
use tpl_reader::{Document, read_document_heard};
use tpl_series::Stop;
use tpl_verify::{Attend, verify_in_order};

/// What stands behind the lines for all claims, with these words for the verdicts on them, and how the program ends.
fn ending_of(alloc: Global, words: &[Word]) -> Result<Answered, AllocError>
    ensures ends { IfOk result (λ it. IsExit words.now it.answer.exit) }
    ensures text { IfOk result (λ it. string_bytes it.answer.text ≡ sums_line words.now) }
    ensures found { IfOk result (λ it. it.finding ≡ None) }
{
    let text = sums_line(alloc, words)?;
    let exit = exit_of(words);
    Ok(Answered {
        answer: Answer { exit, text },
        finding: None,
    })
}

/// Writes what stands behind the lines for the claims that were told, with these words for the verdicts on them.
fn put_ending<L: Listen, W: Write>(
    alloc: Global,
    listener: L,
    bytes: &[u8],
    told: Result<Vec<Word>, Stop>,
    to: &mut Counting<W>,
) -> Exit
    ensures { MatchResult told
        (λ words. PutsSums W.contents to.old to.new words.items result)
        (λ stop. PutsStop W.contents to.old to.new stop result) }
{
    match told {
        Ok(words) => {
            let ending = ending_of(alloc, &words);
            put_answered(ending, listener, bytes, to)
        }
        Err(Stop::Memory) => put_answered(Err(AllocError), listener, bytes, to),
        Err(Stop::Device) => {
            listener.found();
            Exit::Device
        }
    }
}

/// Writes the verdict on each claim of the document that the bytes spell as soon as those before it are written, and then how
/// many there are.
fn stream<T: Threads + Wait + Sync, A: Attend + Sync, L: Listen, W: Write + Send>(
    rt: &T,
    alloc: Global,
    asked: Verification,
    attend: &A,
    listener: L,
    bytes: &[u8],
    document: &Document,
    to: &mut Counting<W>,
) -> Exit
    requires jobs { 0 < asked.jobs }
    requires spelled { Spells bytes.now (doc_of document.now) }
    requires claims { All (Fits document.now.graph.graph) document.now.claims.items }
    ensures { IsStreamed W.contents to.old to.new asked.limits.depth asked.limits.runs
        bytes.now (doc_of document.now) result }
{
    let (graph, claims) = (&document.graph, document.claims.as_slice());
    let (rules, limits) = (rules_of(document), &asked.limits);
    let telling = Asked {
        graph,
        claims,
        names: &document.names,
        searched: Searched {
            depth: limits.depth,
            runs: limits.runs,
            rules,
        },
    };
    let told = verify_in_order(
        rt, alloc, graph, claims, rules, limits, asked.jobs, attend, &telling, to,
    );
    put_ending(alloc, listener, bytes, told, to)
}

/// Writes the answer to the document that the bytes spell.
fn answer_document<T: Threads + Wait + Sync, A: Attend + Sync, L: Listen, W: Write + Send>(
    rt: &T,
    alloc: Global,
    asked: Verification,
    attend: &A,
    listener: L,
    bytes: &[u8],
    document: &Document,
    to: &mut Counting<W>,
) -> Exit
    requires jobs { 0 < asked.jobs }
    requires short { length bytes.now ≤ longest }
    requires spelled { Spells bytes.now (doc_of document.now) }
    requires claims { All (Fits document.now.graph.graph) document.now.claims.items }
    ensures { AnswersBytes W.contents to.old to.new asked.limits.depth asked.limits.runs
        asked.style bytes.now result }
{
    match asked.style {
        Style::Text => stream(rt, alloc, asked, attend, listener, bytes, document, to),
        Style::Json | Style::Junit | Style::Html => {
            let answered = answer_beside(rt, alloc, asked, attend, bytes, document);
            put_answered(answered, listener, bytes, to)
        }
    }
}

/// Writes the answer to bytes.
fn answer_bytes<T: Threads + Wait + Sync, A: Attend + Sync, L: Listen, W: Write + Send>(
    rt: &T,
    alloc: Global,
    asked: Verification,
    attend: &A,
    listener: L,
    bytes: &[u8],
    to: &mut Counting<W>,
) -> Exit
    requires jobs { 0 < asked.jobs }
    requires short { length bytes.now ≤ longest }
    ensures { AnswersBytes W.contents to.old to.new asked.limits.depth asked.limits.runs
        asked.style bytes.now result }
{
    match read_document_heard(alloc, bytes, listener) {
        Ok(document) => answer_document(rt, alloc, asked, attend, listener, bytes, &document, to),
        Err(misread) => put_answered(unread(alloc, bytes, misread), listener, bytes, to),
    }
}

/// Reads a document to its end, at most 16,777,216 bytes, and writes a verdict on each of its claims: it holds, it fails,
/// it is empty, or neither is known. It is no success where there is no claim. Whatever the number of threads, the answer is the same.
///
/// As text, the lines for a claim are written as soon as its verdict is found and those before it are written; if memory is
/// refused behind them, the line `out of memory` follows them. In the other styles the text is made whole before its first
/// byte is written. A failed read ends the reading, and then nothing is
/// written; after a failed write no more is. Who attends is told of each verdict as soon as it is found; where the
/// document can't be read, the listener is told why.
pub fn verify_document<
    T: Threads + Wait + Sync,
    A: Attend + Sync,
    L: Listen,
    I: Read,
    O: Write + Send,
>(
    rt: &T,
    alloc: Global,
    asked: Verification,
    attend: &A,
    listener: L,
    from: &mut Counting<I>,
    to: &mut Counting<O>,
) -> Exit
    requires jobs { 0 < asked.jobs }
    ensures streams { Streams I.remaining from.old from.new O.contents to.old to.new
        asked.limits.depth asked.limits.runs asked.style result }
    ensures reads { calls_of from.new ≤ calls_of from.old + (longest + 2) }

    // With success or failure a true verdict on each claim was written.
    ensures judged { (result ≡ Exit.Success) ⊎ (result ≡ Exit.Failure)
        → Judged I.remaining from.old from.new O.contents to.old to.new asked.style result }

    // A claim is said to hold where a certificate of it is accepted; with success there is a claim, and each holds in each run of the
    // graph, for all inputs and whatever comes from outside, and none is known to be empty. Of a claim of which nothing is known at
    // most so many random runs were made, and fewer only where it is said that the events ran out.
    ensures verified { (result ≡ Exit.Success) ⊎ (result ≡ Exit.Failure)
        → Verified I.remaining from.old from.new O.contents to.old to.new asked.limits.depth
        asked.limits.runs asked.style result }
{
    match read_input(alloc, from, to) {
        Ok(bytes) => answer_bytes(rt, alloc, asked, attend, listener, &bytes, to),
        Err(exit) => {
            listener.unread(exit);
            exit
        }
    }
}
