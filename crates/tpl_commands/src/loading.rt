//! The document of a run.

ghost use Rattle.std.specs.Prelude.{◌≡◌, ◌+◌, ◌≤◌, IfOk, IfErr, All};
ghost use Rattle.tpl_commands.specs.Prelude.{Loads, NoDocument, RequestsTokens, Responds};
ghost use Rattle.tpl_graph.specs.Prelude.{Fits};
ghost use Rattle.tpl_journal.specs.Prelude.{calls_of};
ghost use Rattle.tpl_reader.specs.Prelude.{Spells, doc_of, longest};
ghost use Rattle.tpl_trees.specs.Prelude.{IsWithinLimits};

use crate::exit::Exit;
use crate::listening::{Listen, Nobody};
use crate::responding::{put_answered, read_input, unread};
use std::alloc::Global;
use std::io::{Read, Write};
use tpl_journal::Counting;
use tpl_reader::{Document, read_document_heard};

/// A document that was read, and its bytes.
#[derive(Drop)]
pub struct Loaded {
    /// The document.
    pub document: Document,
    /// The bytes that spell it.
    pub bytes: Vec<u8>,
}

/// Reads a document to its end, at most 16,777,216 bytes. Where reading fails, or the bytes spell no document, the
/// line for that is written and its exit returned. The line is made whole before its first byte is written, so the
/// line `out of memory` stands alone.
pub fn load<R: Read, W: Write>(
    alloc: Global,
    from: &mut Counting<R>,
    to: &mut Counting<W>,
) -> Result<Document, Exit>
    ensures document { IfOk result (λ d. Loads R.remaining from.old from.new (doc_of d)
        × (to.new ≡ to.old)) }
    ensures claims { IfOk result (λ d. All (Fits d.graph.graph) d.claims.items) }
    ensures trees { IfOk result (λ d. All IsWithinLimits d.certificate) }
    ensures tokens { IfOk result (λ d. RequestsTokens (doc_of d)) }
    ensures err { IfErr result
        (Responds NoDocument R.remaining from.old from.new W.contents to.old to.new) }
    ensures reads { calls_of from.new ≤ calls_of from.old + (longest + 2) }
{
    match load_watched(alloc, Nobody, from, to) {
        Ok(loaded) => Ok(loaded.document),
        Err(exit) => Err(exit),
    }
}

/// Reads a document as [`load`] does. Where there is none, the listener is told why.
pub fn load_watched<L: Listen, R: Read, W: Write>(
    alloc: Global,
    listener: L,
    from: &mut Counting<R>,
    to: &mut Counting<W>,
) -> Result<Loaded, Exit>
    ensures document { IfOk result (λ it. Loads R.remaining from.old from.new (doc_of it.document)
        × (to.new ≡ to.old)) }
    ensures spelled { IfOk result (λ it. Spells it.bytes.items (doc_of it.document)) }
    ensures claims { IfOk result (λ it. All (Fits it.document.graph.graph) it.document.claims.items) }
    ensures trees { IfOk result (λ it. All IsWithinLimits it.document.certificate) }
    ensures tokens { IfOk result (λ it. RequestsTokens (doc_of it.document)) }
    ensures err { IfErr result
        (Responds NoDocument R.remaining from.old from.new W.contents to.old to.new) }
    ensures reads { calls_of from.new ≤ calls_of from.old + (longest + 2) }
{
    match read_input(alloc, from, to) {
        Ok(bytes) => match read_document_heard(alloc, &bytes, listener) {
            Ok(document) => {
                document.graph.valid_law();
                Ok(Loaded { document, bytes })
            }
            Err(misread) => Err(put_answered(unread(alloc, &bytes, misread), listener, &bytes, to)),
        },
        Err(exit) => {
            listener.unread(exit);
            Err(exit)
        }
    }
}
