//! A document on the page.

ghost use Rattle.std.specs.Prelude.{◌≡◌, IfOk, IsUtf8, string_bytes};
ghost use Rattle.tpl_reader.specs.Prelude.{behind_mark};
ghost use Rattle.tpl_shown.specs.Prelude.{IsDocumentPage, shown};

use std::alloc::{AllocError, Global};
use tpl_page::page_of;
use tpl_reader::behind_mark;

/// The text of the document that these bytes spell.
fn text_in(bytes: &[u8]) -> &str
    requires { IsUtf8 (behind_mark bytes.now) }
    ensures { result.now ≡ behind_mark bytes.now }
{
    match std::str::from_utf8(behind_mark(bytes)) {
        Ok(text) => text,
        Err(_) => unreachable!(),
    }
}

/// What the page's scripts show.
fn shown(alloc: Global, document: &str, name: &str, found: &str) -> Result<String, AllocError>
    ensures { IfOk result (λ text.
        string_bytes text ≡ shown document.now name.now found.now) }
{
    format!(in alloc; "{{\"document\":{document},\"{name}\":{found}}}")
}

/// The page of the document that these bytes spell: without scripts it shows the lines, and its scripts have the
/// document's own text and under this name what was found, a JSON value. Out of memory is the only error.
pub fn document_page(
    alloc: Global,
    bytes: &[u8],
    lines: &str,
    name: &str,
    found: &str,
) -> Result<String, AllocError>
    requires { IsUtf8 (behind_mark bytes.now) }
    ensures { IfOk result (λ text. IsDocumentPage lines.now (behind_mark bytes.now) name.now
        found.now (string_bytes text)) }
{
    let shown = shown(alloc, text_in(bytes), name, found)?;
    page_of(alloc, lines, shown.as_str())
}
