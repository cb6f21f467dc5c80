//! By which rules a document's certificates are judged.

ghost use Rattle.std.specs.Prelude.{◌≡◌};
ghost use Rattle.tpl_commands.specs.Prelude.{rules_of};
ghost use Rattle.tpl_reader.specs.Prelude.{doc_of};

use tpl_model::RuleSet;
use tpl_reader::Document;

/// By which rules a document's certificates are judged: by those with tokens since version 3.
pub fn rules_of(document: &Document) -> RuleSet
    ensures { result ≡ rules_of (doc_of document.now) }
{
    document.version.rules()
}
