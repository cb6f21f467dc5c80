//! The languages of pictures.

ghost use Rattle.std.specs.Prelude.{◌≡◌, IfOk, string_bytes};
ghost use Rattle.tpl_draw.specs.Prelude.{enclosed};

use std::alloc::{AllocError, Global};

/// In which language a picture is written.
#[derive(Clone, Copy, PartialEq, Eq, Debug)]
pub enum Language {
    /// A flowchart of Mermaid.
    Mermaid,
    /// A graph of Graphviz.
    Dot,
}

impl Language {
    ghost use Rattle.tpl_draw.specs.Language.{choose};

    /// The first text in Mermaid, the second in DOT.
    pub(crate) fn choose(self, mermaid: &'static str, dot: &'static str) -> &'static str
        ensures { result.now ≡ choose self mermaid.now dot.now }
    {
        match self {
            Language::Mermaid => mermaid,
            Language::Dot => dot,
        }
    }
}

/// A text between two others; nothing where it is empty.
pub(crate) fn enclosed(
    alloc: Global,
    opening: &str,
    text: &str,
    closing: &str,
) -> Result<String, AllocError>
    ensures { IfOk result (λ whole. string_bytes whole
        ≡ enclosed opening.now text.now closing.now) }
{
    if text.is_empty() {
        return Ok(String::new(alloc));
    }
    format!(in alloc; "{opening}{text}{closing}")
}
