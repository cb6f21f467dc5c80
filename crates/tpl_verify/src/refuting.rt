//! The search for runs in which the claims of a document fail, from a reader to a writer.

ghost use Rattle.std.specs.Prelude.{◌≡◌, ◌+◌, ◌≤◌, IfOk, string_bytes, All};
ghost use Rattle.tpl_commands.specs.Prelude.{Responds};
ghost use Rattle.tpl_graph.specs.Prelude.{Fits};
ghost use Rattle.tpl_journal.specs.Prelude.{calls_of};
ghost use Rattle.tpl_reader.specs.Prelude.{Spells, doc_of, longest};
ghost use Rattle.tpl_verify.specs.Prelude.{IsFound, IsSearched, Refuted, Searches, ShowsFailure, Unrefuted};

use crate::Attend;
use crate::aside::{tell_causes, tell_missing, tell_run};
use crate::finding::{Found, find};
use crate::journal::journal_text;
use crate::search::{Search, has_claim};
use crate::text::text_with;
use std::alloc::{AllocError, Global};
use std::io::{Read, Write};
use tpl_commands::{Answer, Answered, Command, Exit, Listen, respond, unread};
use tpl_journal::{Counting, fault_is_no_journal, spells_run, text_is_unambiguous};
use tpl_reader::{Document, LONGEST, one_document, read_document_heard};

/// The document with the run that was found.
fn refutation<L: Listen>(
    alloc: Global,
    search: Search,
    listener: L,
    bytes: &[u8],
    document: &Document,
    found: Found,
) -> Result<Answer, AllocError>
    requires spelled { Spells bytes.now (doc_of document.now) }
    requires found { IsFound search.claim (doc_of document.now) found.number found.run.inputs
        found.run.events.items }
    ensures { IfOk result (λ given.
        IsSearched search.claim (doc_of document.now) given.exit (string_bytes given.text)) }
{
    document.graph.valid_law();
    one_document();
    spells_run();
    text_is_unambiguous();
    fault_is_no_journal();
    tpl_laws::is_bounded();
    tpl_laws::prefix_is_run();
    tpl_laws::sound_by_rules();
    let events = found.run.events.as_slice();
    let journal = journal_text(alloc, &document.graph, events)?;
    tell_run(alloc, found.number, journal.as_str(), listener)?;
    tell_causes(alloc, search, document, &found, listener)?;
    let text = text_with(alloc, bytes, document, &found.run.inputs, journal)?;
    if text.len() > LONGEST {
        return Ok(Answer {
            exit: Exit::Unreadable,
            text: String::from_str(alloc, "unreadable: too long\n")?,
        });
    }
    Ok(Answer {
        exit: Exit::Failure,
        text,
    })
}

/// The answer to a document.
fn answer_for<L: Listen, A: Attend>(
    alloc: Global,
    search: Search,
    listener: L,
    attend: &A,
    bytes: &[u8],
    document: &Document,
) -> Result<Answer, AllocError>
    requires spelled { Spells bytes.now (doc_of document.now) }
    requires claims { All (Fits document.now.graph.graph) document.now.claims.items }
    ensures { IfOk result (λ given.
        IsSearched search.claim (doc_of document.now) given.exit (string_bytes given.text)) }
{
    if let Some(number) = search.claim {
        if !has_claim(document, number) {
            tell_missing(alloc, number, document.claims.len(), listener)?;
            return Ok(Answer {
                exit: Exit::Unreadable,
                text: format!(in alloc; "unreadable: claim {number} Missing\n")?,
            });
        }
    }
    match find(alloc, search, document, listener, attend)? {
        Some(found) => refutation(alloc, search, listener, bytes, document, found),
        None => Ok(Answer {
            exit: Exit::Success,
            text: String::from_str(alloc, "not refuted\n")?,
        }),
    }
}

/// The search for a run in which a claim fails, and who is told of it.
#[derive(Drop)]
struct Refuting<'a, L, A> {
    search: Search,
    listener: L,
    attend: &'a A,
}

impl<L: Listen, A: Attend> Command for Refuting<'_, L, A> {
    ghost answers = { λ this. Searches this.search.claim };

    fn answer(&self, alloc: Global, bytes: &[u8]) -> Result<Answered, AllocError> {
        match read_document_heard(alloc, bytes, self.listener) {
            Ok(document) => {
                let (search, attend) = (self.search, self.attend);
                let answer = answer_for(alloc, search, self.listener, attend, bytes, &document)?;
                let finding = None;
                Ok(Answered { answer, finding })
            }
            Err(misread) => unread(alloc, bytes, misread),
        }
    }
}

/// Reads a document to its end, at most 16,777,216 bytes, and searches for a run in which one of its claims fails, or
/// the claim that is asked for. Writes the document itself with `start.inputs` and `journal` filled in, as one line of
/// JSON; or `not refuted`, where no such run was found. A claim that isn't there is answered by
/// `unreadable: claim N Missing`, and a document that is too long with its journal by `unreadable: too long`.
///
/// The text is made whole before its first byte is written. A failed read ends the reading, and then nothing is
/// written; after a failed write no more is. The listener is told the run itself, with the place where the claim
/// fails, and where reasons are asked for how it came there; and where the document can't be read, why. Who attends is told of the verdict on each claim that was searched.
pub fn refute_document<L: Listen, A: Attend, I: Read, O: Write>(
    alloc: Global,
    search: Search,
    listener: L,
    attend: &A,
    from: &mut Counting<I>,
    to: &mut Counting<O>,
) -> Exit
    ensures responds { Responds (Searches search.claim) I.remaining from.old from.new
        O.contents to.old to.new result }
    ensures reads { calls_of from.new ≤ calls_of from.old + (longest + 2) }

    // Where the claim is refuted, what was written spells the same claims with a run in which the claim fails.
    ensures fails { result ≡ Exit.Failure → ShowsFailure I.remaining from.old from.new
        O.contents to.old to.new search.claim }

    // It spells the same document with that run: the audit says so, and no certificate of its claims is accepted.
    ensures refuted { result ≡ Exit.Failure → Refuted I.remaining from.old from.new
        O.contents to.old to.new search.claim }

    // Success says no more than that the claim is there and that no such run was found.
    ensures unrefuted { result ≡ Exit.Success → Unrefuted I.remaining from.old from.new
        O.contents to.old to.new search.claim }
{
    let command = Refuting {
        search,
        listener,
        attend,
    };
    respond(&command, alloc, listener, from, to)
}
