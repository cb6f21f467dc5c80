//! The verdicts as text, for people.

ghost use Rattle.std.specs.Prelude.{◌≡◌, ◌++◌, flat_map, IfOk, OnOk, string_bytes};
ghost use Rattle.tpl_verdicts.specs.Prelude.{AreRight, IsText, all_told, entry_text, indented};

use crate::entries::entries;
use crate::entry::Entry;
use crate::judgement::Judgements;
use crate::sums::sums_line;
use crate::word::words_of;
use std::alloc::{AllocError, Global};

/// Lines that belong to another one.
fn indented(alloc: Global, lines: &[String]) -> Result<String, AllocError>
    ensures { IfOk result (λ text.
        string_bytes text ≡ flat_map (λ line. indented (string_bytes line)) lines.now) }
{
    let mut text = String::new(alloc);
    for line in lines {
        let line = line.as_str();
        text.push_str(format!(in alloc; "  {line}")?.as_str())?;
    }
    Ok(text)
}

/// The lines for a claim.
pub(crate) fn entry_text(alloc: Global, entry: &Entry) -> Result<String, AllocError>
    ensures { IfOk result (λ text. string_bytes text ≡ entry_text entry.now) }
{
    let lines = indented(alloc, &entry.lines)?;
    let (number, title) = (entry.number, entry.title.as_str());
    let (word, words) = (entry.word.text(), entry.words.as_str());
    format!(in alloc; "claim {number}{title} {word}: {words}\n{lines}")
}

/// Adds the lines for each claim.
fn add_entries(text: &mut String, alloc: Global, entries: &[Entry]) -> Result<(), AllocError>
    ensures { OnOk result (string_bytes text.new
        ≡ string_bytes text.old ++ flat_map entry_text entries.now) }
{
    for entry in entries {
        text.push_str(entry_text(alloc, entry)?.as_str())?;
    }
    Ok(())
}

/// The verdicts on the claims.
pub(crate) fn text_of(alloc: Global, all: &Judgements<'_>) -> Result<String, AllocError>
    requires { AreRight all.now }
    ensures { IfOk result (λ text.
        IsText all.now.graph.now.names (all_told all.now) all.now.verdicts.now
        (string_bytes text)) }
{
    let entries = entries(alloc, all)?;
    let mut text = String::new(alloc);
    add_entries(&mut text, alloc, &entries)?;
    let words = words_of(alloc, all.verdicts)?;
    text.push_str(sums_line(alloc, &words)?.as_str())?;
    Ok(text)
}
