//! The verdicts as test cases, in the form of JUnit that Azure DevOps and GitHub's reporters read. Times and the date are
//! constants, so that the same verdicts give the same bytes.

ghost use Rattle.std.specs.Prelude.{◌≡◌, ◌++◌, flat_map, IfOk, OnOk, string_bytes};
ghost use Rattle.tpl_verdicts.specs.Prelude.{AreRight, IsJunit, all_told, case_text, failure_text, message, opening, outcome_text, xml, xml_letter};

use crate::entries::entries;
use crate::entry::Entry;
use crate::judgement::Judgements;
use crate::sums::count_of;
use crate::word::{Word, words_of};
use std::alloc::{AllocError, Global};

/// What stands behind the last test case.
const CLOSING: &str = "<system-out/>\n<system-err/>\n</testsuite>\n</testsuites>\n";

/// What stands for a character that no XML text may have.
const REPLACEMENT: char = '\u{FFFD}';

/// Adds a character as it stands in XML, between tags or in an attribute. It is no control character. What else XML 1.0
/// (2.2, "Characters") has no place for are U+FFFE and U+FFFF: in place of each stands U+FFFD.
fn add_letter(text: &mut String, letter: char) -> Result<(), AllocError>
    ensures { OnOk result
        (string_bytes text.new ≡ string_bytes text.old ++ xml_letter letter) }
{
    match letter {
        '&' => text.push_str("&amp;"),
        '<' => text.push_str("&lt;"),
        '>' => text.push_str("&gt;"),
        '"' => text.push_str("&quot;"),
        '\u{FFFE}' => text.push(REPLACEMENT),
        '\u{FFFF}' => text.push(REPLACEMENT),
        _ => text.push(letter),
    }
}

/// The text as it stands in XML, between tags or in an attribute.
fn escaped(alloc: Global, text: &str) -> Result<String, AllocError>
    ensures { IfOk result (λ escaped. string_bytes escaped ≡ xml text.now) }
{
    let mut escaped = String::new(alloc);
    for letter in text.chars() {
        add_letter(&mut escaped, letter)?;
    }
    Ok(escaped)
}

/// What is said where a claim doesn't hold, or says nothing.
fn message(word: Word) -> &'static str
    ensures { result.now ≡ message word }
{
    match word {
        Word::Holds => "it holds",
        Word::Fails => "it fails in a run",
        Word::Empty => "it holds, and says nothing",
        Word::Unknown => "neither a certificate nor a run in which it fails was found",
    }
}

/// A failure with these lines.
fn failure_text(alloc: Global, word: Word, lines: &str) -> Result<String, AllocError>
    ensures { IfOk result (λ text. string_bytes text ≡ failure_text word lines.now) }
{
    let (kind, said) = (word.text(), message(word));
    format!(in alloc; "><failure type=\"{kind}\" message=\"{said}\">{lines}</failure></testcase>\n")
}

/// How a test case ends.
fn outcome_text(alloc: Global, word: Word, lines: &str) -> Result<String, AllocError>
    ensures { IfOk result (λ text. string_bytes text ≡ outcome_text word lines.now) }
{
    match word {
        Word::Holds => String::from_str(alloc, "/>\n"),
        Word::Fails => failure_text(alloc, Word::Fails, lines),
        Word::Empty => failure_text(alloc, Word::Empty, lines),
        Word::Unknown => failure_text(alloc, Word::Unknown, lines),
    }
}

/// The lines as they stand in XML, one after another.
fn joined(alloc: Global, lines: &[String]) -> Result<String, AllocError>
    ensures { IfOk result (λ text.
        string_bytes text ≡ flat_map (λ line. xml (string_bytes line)) lines.now) }
{
    let mut text = String::new(alloc);
    for line in lines {
        let line = escaped(alloc, line.as_str())?;
        text.push_str(line.as_str())?;
    }
    Ok(text)
}

/// The test case of a claim.
fn case_text(alloc: Global, entry: &Entry) -> Result<String, AllocError>
    ensures { IfOk result (λ text. string_bytes text ≡ case_text entry.now) }
{
    let lines = joined(alloc, &entry.lines)?;
    let outcome = outcome_text(alloc, entry.word, lines.as_str())?;
    let title = escaped(alloc, entry.title.as_str())?;
    let words = escaped(alloc, entry.words.as_str())?;
    let number = entry.number;
    format!(in alloc;
        "<testcase classname=\"claims\" name=\"claim {number}{title}: {words}\" time=\"0\"{outcome}"
    )
}

/// What stands before the first test case.
fn opening(alloc: Global, words: &[Word]) -> Result<String, AllocError>
    ensures { IfOk result (λ text. string_bytes text ≡ opening words.now) }
{
    let tests = words.len();
    let failures = tests.saturating_sub(count_of(words, Word::Holds));
    format!(in alloc;
        "<?xml version=\"1.0\" encoding=\"UTF-8\"?>\n<testsuites>\n<testsuite package=\"taskgraph\" id=\"0\" name=\"claims\" timestamp=\"1970-01-01T00:00:00\" hostname=\"localhost\" tests=\"{tests}\" failures=\"{failures}\" errors=\"0\" time=\"0\">\n<properties/>\n"
    )
}

/// Adds the test case of each claim.
fn add_cases(text: &mut String, alloc: Global, entries: &[Entry]) -> Result<(), AllocError>
    ensures { OnOk result (string_bytes text.new
        ≡ string_bytes text.old ++ flat_map case_text entries.now) }
{
    for entry in entries {
        text.push_str(case_text(alloc, entry)?.as_str())?;
    }
    Ok(())
}

/// The verdicts on the claims as test cases.
pub(crate) fn junit_of(alloc: Global, all: &Judgements<'_>) -> Result<String, AllocError>
    requires { AreRight all.now }
    ensures { IfOk result (λ text.
        IsJunit all.now.graph.now.names (all_told all.now) all.now.verdicts.now
        (string_bytes text)) }
{
    let entries = entries(alloc, all)?;
    let words = words_of(alloc, all.verdicts)?;
    let mut text = opening(alloc, &words)?;
    add_cases(&mut text, alloc, &entries)?;
    text.push_str(CLOSING)?;
    Ok(text)
}
