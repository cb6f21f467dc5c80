//! What is said on the standard error, for people: how far a search is, and why an answer is what it is. It changes
//! nothing of the answer.

ghost use Rattle.std.specs.Prelude.{◌≡◌, IfOk, IfSome, All};
ghost use Rattle.tpl_commands.specs.Prelude.{IsFoundOf};
ghost use Rattle.tpl_graph.specs.Prelude.{Fits};
ghost use Rattle.tpl_reader.specs.Prelude.{Spells, doc_of};

use crate::line::Line;
use crate::progress::clear;
use crate::seen::Seen;
use json::Value;
use std::alloc::{AllocError, Global};
use std::io::IsTerminal;
use tpl_analyser::Watch;
use tpl_commands::{Ask, Audit, Exit, Finding, Found, Listen, check_document};
use tpl_reader::{Document, Hear, LONGEST, NotRead, ReadFault};
use tpl_reasons::{explain, no_document_text, no_json_text, twice_text};

/// Whether the words ask for reasons.
pub(crate) fn asks_why(words: &[&str]) -> bool {
    words.contains(&"--explain")
}

/// What a command says of a document without claims.
const NO_CLAIM: &str = "no claim was asked, so nothing is shown\n";

/// What a command says of a document without a journal.
const NO_JOURNAL: &str = "the document has no journal, so nothing was recorded\n";

/// What is said where each line is to be a document, and the first one ends in the middle of one.
const ONE_LINE: &str =
    "taskgraph: --each reads a document from each line, and the first line ends in the middle of one; `jq -c . document.json` writes it on one line, and so does `python3 -c 'import json, sys; print(json.dumps(json.load(sys.stdin)))' < document.json`\n";

/// What is said where a claim of an older document is unknown.
const NEWER: &str =
    "taskgraph: version 3 has rules that prove more; write `\"version\": 3` in the document, and ask again\n";

/// What a command answers about. Where a document has nothing of it, the answer says nothing.
#[derive(Clone, Copy, Debug, Drop, PartialEq, Eq)]
enum Subject {
    /// The claims. The reasons of the answer say where there is none.
    Claims,
    /// The claims, each with a verdict. No reasons are given.
    Verdicts,
    /// The journal.
    Journal,
    /// Something that each document has.
    Graph,
}

/// What is answered about where this is asked of a document.
fn subject_of(line: &Line) -> Subject {
    match line {
        Line::Serve(Ask::Check | Ask::Analyse(_) | Ask::AnalyseIn(_, _) | Ask::Certify(_, _)) => {
            Subject::Claims
        }
        Line::Serve(Ask::Audit) | Line::Trace | Line::AuditPage => Subject::Journal,
        Line::Verify { .. } => Subject::Verdicts,
        Line::Serve(Ask::Draw(_)) | Line::Each(_, _) | Line::Run { .. } | Line::Refute { .. } => {
            Subject::Graph
        }
    }
}

/// Tells how far a search is, where that shows something, why an answer is what it is, where that is asked for, and always
/// where a document has nothing of what is answered about. What the standard error doesn't take isn't said, nor that for
/// which there is no memory.
#[derive(Clone, Copy, Drop)]
pub(crate) struct Teller<'a> {
    rt: &'a HostRuntime,
    shows: bool,
    explains: bool,
    subject: Subject,
    seen: &'a Seen,
}

impl<'a> Teller<'a> {
    /// Tells nothing of a search; and reasons of what this line answers, where they are asked for. The document that it hears
    /// of is seen.
    pub(crate) fn new(
        rt: &'a HostRuntime,
        line: &Line,
        explains: bool,
        seen: &'a Seen,
    ) -> Teller<'a>
        ensures { result.explains ≡ explains }
    {
        Teller {
            rt,
            shows: false,
            explains,
            subject: subject_of(line),
            seen,
        }
    }

    /// What is seen of the document, and of what is found for it.
    pub(crate) fn seen(self) -> &'a Seen {
        self.seen
    }

    /// Tells also how far a search is, on a terminal alone.
    pub(crate) fn of_search(self) -> Teller<'a>
        ensures { result.explains ≡ self.entry.explains }
    {
        Teller {
            shows: self.rt.stderr().is_terminal(),
            ..self
        }
    }

    /// Tells what there is to tell where this is asked: of a search also how far it is.
    pub(crate) fn of_ask(self, ask: &Ask) -> Teller<'a>
        ensures { result.explains ≡ self.entry.explains }
    {
        match ask {
            Ask::Analyse(_) | Ask::AnalyseIn(_, _) | Ask::Certify(_, _) => self.of_search(),
            Ask::Check | Ask::Audit | Ask::Draw(_) => self,
        }
    }

    /// What is said of a document that has nothing of what is answered about, if anything.
    fn lack_of(self, document: &Document) -> Option<&'static str> {
        match self.subject {
            Subject::Claims if self.explains => None,
            Subject::Claims | Subject::Verdicts if document.claims.is_empty() => Some(NO_CLAIM),
            Subject::Journal if document.journal.is_empty() => Some(NO_JOURNAL),
            _ => None,
        }
    }

    /// Tells why a document isn't run, or not to its end.
    pub(crate) fn ran(self, exit: Exit, bytes: &[u8], document: Document)
        requires spelled { Spells bytes.now (doc_of document) }
        requires claims { All (Fits document.graph.graph) document.claims.items }
    {
        if self.explains && (exit == Exit::Failure || exit == Exit::Unreadable) {
            if let Ok(Some(found)) = why_no_run(self.rt.alloc(), &document) {
                self.answered(bytes, &Finding::Read(document, found));
            }
        }
    }
}

impl Watch for Teller<'_> {
    fn tries(&mut self, claim: usize, leaves: u32) {
        if self.shows {
            let _ = eprint!(self.rt; "\rclaim {claim}: {leaves} leaves tried\x1b[K");
        }
    }
}

impl Hear for Teller<'_> {
    fn document(self, alloc: Global, value: &Value<'_>, document: &Document) {
        self.seen.read(document.version);
        if let Some(text) = self.lack_of(document) {
            let _ = eprint!(self.rt; "{text}");
        }
        if self.explains {
            if let Ok(Some(text)) = twice_text(alloc, value) {
                let _ = eprint!(self.rt; "{text}");
            }
        }
    }

    fn no_json(self, alloc: Global, bytes: &[u8], why: NotRead) -> Option<String> {
        if self.explains {
            no_json_text(alloc, bytes, why).ok()
        } else {
            None
        }
    }

    fn no_document(self, alloc: Global, value: &Value<'_>, fault: ReadFault) -> Option<String> {
        if self.explains {
            no_document_text(alloc, value, fault).ok()
        } else {
            None
        }
    }
}

impl Listen for Teller<'_> {
    fn found(self) {
        if self.shows {
            clear(self.rt);
        }
    }

    fn answered(self, bytes: &[u8], finding: &Finding) {
        if self.explains {
            if let Ok(Some(reasoned)) = explain(self.rt.alloc(), bytes, finding) {
                let _ = eprint!(self.rt; "{}", reasoned.text);
            }
        }
    }

    fn unread(self, exit: Exit) {
        if self.explains && exit == Exit::Unreadable {
            let _ = eprint!(self.rt;
                "the document is longer than {LONGEST} bytes, the most that is read; --slim makes shorter certificates\n"
            );
        }
    }

    fn tells(self, line: &str) {
        if self.shows {
            clear(self.rt);
        }
        let _ = eprint!(self.rt; "{line}");
    }
}

/// Why a document isn't run: nothing says which values its inputs have, or its certificate is refused. Out of memory is the
/// only error.
fn why_no_run(alloc: Global, document: &Document) -> Result<Option<Found>, AllocError>
    requires { All (Fits document.now.graph.graph) document.now.claims.items }
    ensures { IfOk result (λ found. IfSome found (IsFoundOf (doc_of document.now))) }
{
    match document.inputs() {
        None => Ok(Some(Found::Audited(Audit::NoStart))),
        Some(_) => match check_document(alloc, document)? {
            Ok(()) => Ok(None),
            Err(fault) => Ok(Some(Found::Checked(Err(fault)))),
        },
    }
}

/// Says that a document is waited for, where it is to be typed.
pub(crate) fn say_what_is_read(rt: &HostRuntime) {
    if rt.stdin().is_terminal() {
        let _ = eprint!(rt; "taskgraph: reading the document from the standard input\n");
    }
}

/// Whether the line asks for the document on each line.
pub(crate) fn reads_each(line: &Line) -> bool {
    match line {
        Line::Each(_, _) => true,
        Line::Verify { is_each, .. } => *is_each,
        _ => false,
    }
}

/// Says that a document stands on one line where each line is read, and how it gets there.
pub(crate) fn say_one_line(rt: &HostRuntime) {
    let _ = eprint!(rt; "{ONE_LINE}");
}

/// Says that a newer version may prove more.
pub(crate) fn say_newer(rt: &HostRuntime) {
    let _ = eprint!(rt; "{NEWER}");
}
