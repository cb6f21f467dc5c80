//! What is said of the claims, one after another.

ghost use Rattle.std.specs.Prelude.{◌≡◌, IfOk, option_map, string_bytes};
ghost use Rattle.tpl_verdicts.specs.Prelude.{AreNumbered, AreRight, IsEntry, IsRight, all_told, title, told_of};

use crate::entry::Entry;
use crate::judgement::{Judgement, Judgements};
use crate::lines::lines_of;
use crate::word::word_of;
use std::alloc::{AllocError, Global};
use tpl_reasons::{claim_words, said_name};

/// The name of a claim in quotes behind a space; nothing for a claim without a name.
fn title_of(alloc: Global, name: Option<&str>) -> Result<String, AllocError>
    ensures { IfOk result (λ text.
        string_bytes text ≡ title (option_map (λ given. given.now) name.entry)) }
{
    match name {
        Some(name) => {
            let name = said_name(alloc, name)?;
            format!(in alloc; " \"{name}\"")
        }
        None => Ok(String::new(alloc)),
    }
}

/// What is said of a claim.
pub(crate) fn entry_of(alloc: Global, judgement: &Judgement<'_>) -> Result<Entry, AllocError>
    requires { IsRight judgement.now }
    ensures { IfOk result (IsEntry judgement.now.graph.now.names judgement.now.number
        (told_of judgement.now)) }
{
    let title = title_of(alloc, judgement.name)?;
    let words = claim_words(alloc, judgement.graph, judgement.claim)?;
    let lines = lines_of(alloc, judgement)?;
    Ok(Entry {
        number: judgement.number,
        title,
        word: word_of(judgement.verdict),
        words,
        lines,
    })
}

/// What is said of each claim.
pub(crate) fn entries(alloc: Global, all: &Judgements<'_>) -> Result<Vec<Entry>, AllocError>
    requires { AreRight all.now }
    ensures { IfOk result (λ entries.
        AreNumbered (IsEntry all.now.graph.now.names) 1 (all_told all.now) entries.items) }
{
    let mut entries = Vec::new(alloc);
    for place in 0..all.verdicts.len() {
        let entry = entry_of(alloc, &all.at(place))?;
        entries.push(entry)?;
    }
    Ok(entries)
}
