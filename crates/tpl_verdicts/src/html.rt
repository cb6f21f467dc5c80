//! The verdicts as a page for a browser.

ghost use Rattle.std.specs.Prelude.{IfOk, IsUtf8, string_bytes};
ghost use Rattle.tpl_reader.specs.Prelude.{behind_mark};
ghost use Rattle.tpl_verdicts.specs.Prelude.{AreRight, IsHtml, all_told};

use crate::json::json_of;
use crate::judgement::Judgements;
use crate::text::text_of;
use std::alloc::{AllocError, Global};
use tpl_shown::document_page;

/// The verdicts on the claims of the document that these bytes spell as a page, which has the document's own text. Without
/// scripts it shows what the verdicts say as lines.
pub(crate) fn html_of(
    alloc: Global,
    bytes: &[u8],
    all: &Judgements<'_>,
) -> Result<String, AllocError>
    requires document { IsUtf8 (behind_mark bytes.now) }
    requires right { AreRight all.now }
    ensures { IfOk result (λ text.
        IsHtml (behind_mark bytes.now) all.now.searched.rules all.now.graph.now.names
        (all_told all.now) all.now.verdicts.now (string_bytes text)) }
{
    let lines = text_of(alloc, all)?;
    let verdicts = json_of(alloc, all)?;
    document_page(alloc, bytes, lines.as_str(), "verdicts", verdicts.as_str())
}
