//! What says what the colours of a picture mean.

ghost use Rattle.std.specs.Prelude.{◌≡◌, ◌++◌, IfOk, OnOk, flat_map, string_bytes};
ghost use Rattle.std.specs.List.{list_any};
ghost use Rattle.tpl_draw.specs.Prelude.{agree, are_same, ending_entry, ending_words, entries, entry, failing_words, frame_closing, frame_opening, framed, legend, moment_text, moment_words, painted_endings};

use crate::language::{Language, enclosed};
use crate::marks::paint;
use crate::shown::{Failing, Moment, Shown};
use std::alloc::{AllocError, Global};
use tpl_model::Finals;

/// The sets of endings that have a class or colour, in the order of the legend.
fn painted_endings() -> [Finals; 6]
    ensures { result ≡ painted_endings }
{
    let ways = |ran: bool, canceled: bool, faulted: bool| Finals {
        ran,
        canceled,
        faulted,
    };
    [
        ways(false, true, false),
        ways(false, false, true),
        ways(false, true, true),
        ways(true, true, false),
        ways(true, false, true),
        ways(true, true, true),
    ]
}

/// Both say the same.
fn agree(one: bool, other: bool) -> bool
    ensures { result ≡ agree one other }
{
    if one { other } else { !other }
}

/// Both sets have the same members.
fn are_same(one: Finals, other: Finals) -> bool
    ensures { result ≡ are_same one other }
{
    agree(one.ran, other.ran)
        && agree(one.canceled, other.canceled)
        && agree(one.faulted, other.faulted)
}

/// Some task may end in just these ways.
fn occurs(ways: Finals, ends: &[Finals]) -> bool
    ensures { result ≡ list_any (are_same ways) ends.now }
{
    for it in ends {
        if are_same(ways, *it) {
            return true;
        }
    }
    false
}

/// What a task can do that may end in these ways.
fn ending_words(ran: bool, canceled: bool, faulted: bool) -> &'static str
    ensures { result.now ≡ ending_words ran canceled faulted }
{
    match (ran, canceled, faulted) {
        (true, true, true) => "may run to completion, be canceled or fault",
        (true, true, false) => "may run to completion or be canceled",
        (true, false, true) => "may run to completion or fault",
        (true, false, false) => "can only run to completion",
        (false, true, true) => "can only be canceled or fault",
        (false, true, false) => "can only be canceled",
        (false, false, true) => "can only fault",
        (false, false, false) => "never ends",
    }
}

/// What the legend says of a class or colour.
fn entry(alloc: Global, language: Language, paint: &str, words: &str) -> Result<String, AllocError>
    ensures { IfOk result (λ text. string_bytes text ≡ entry language paint.now words.now) }
{
    match language {
        Language::Mermaid => format!(in alloc; "    l_{paint}[\"{words}\"]:::{paint}\n"),
        Language::Dot => format!(in alloc; "<td bgcolor=\"{paint}\">{words}</td>"),
    }
}

/// Adds what the legend says of these ways to end, where a task has just these.
fn add_ending_entry(
    text: &mut String,
    alloc: Global,
    language: Language,
    ends: &[Finals],
    ways: Finals,
) -> Result<(), AllocError>
    ensures { OnOk result (string_bytes text.new ≡ string_bytes text.old
        ++ ending_entry language ends.now ways) }
{
    if !occurs(ways, ends) {
        return Ok(());
    }
    let words = ending_words(ways.ran, ways.canceled, ways.faulted);
    text.push_str(entry(alloc, language, paint(language, ways), words)?.as_str())
}

/// What the legend says where endings are shown: the classes or colours that occur.
fn ending_entries(alloc: Global, language: Language, ends: &[Finals]) -> Result<String, AllocError>
    ensures { IfOk result (λ text. string_bytes text
        ≡ flat_map (ending_entry language ends.now) painted_endings) }
{
    let mut text = String::new(alloc);
    let all = painted_endings();
    for ways in &all {
        add_ending_entry(&mut text, alloc, language, ends, *ways)?;
    }
    Ok(text)
}

/// That a claim fails, if one does.
fn failing_words(alloc: Global, failing: Option<Failing>) -> Result<String, AllocError>
    ensures { IfOk result (λ text. string_bytes text ≡ failing_words failing) }
{
    match failing {
        None => Ok(String::new(alloc)),
        Some(failing) => {
            let claim = failing.claim;
            format!(in alloc; ": claim {claim} fails, which names the tasks with this border")
        }
    }
}

/// What the legend says of a moment.
fn moment_words(alloc: Global, moment: &Moment) -> Result<String, AllocError>
    ensures { IfOk result (λ text. string_bytes text ≡ moment_words moment.now) }
{
    let failing = failing_words(alloc, moment.failing)?;
    let place = moment.place;
    format!(in alloc; "the run after event {place}{failing}")
}

/// How that is drawn, by whether a claim fails, which has a border.
fn moment_text(
    alloc: Global,
    language: Language,
    failing: Option<Failing>,
    words: &str,
) -> Result<String, AllocError>
    ensures { IfOk result (λ text. string_bytes text ≡ moment_text language failing words.now) }
{
    match (language, failing) {
        (Language::Mermaid, None) => format!(in alloc; "    l_moment[\"{words}\"]\n"),
        (Language::Mermaid, Some(_)) => {
            format!(in alloc;
                "    l_moment[\"{words}\"]\n    style l_moment stroke:#c00,stroke-width:4px\n"
            )
        }
        (Language::Dot, None) => format!(in alloc; "<td border=\"0\">{words}</td>"),
        (Language::Dot, Some(_)) => {
            format!(in alloc; "<td border=\"3\" color=\"red3\">{words}</td>")
        }
    }
}

/// What the legend says.
fn entries(alloc: Global, language: Language, shown: &Shown) -> Result<String, AllocError>
    ensures { IfOk result (λ text. string_bytes text ≡ entries language shown.now) }
{
    match shown {
        Shown::Endings(ends) => ending_entries(alloc, language, ends),
        Shown::Run(moment) => {
            let words = moment_words(alloc, moment)?;
            moment_text(alloc, language, moment.failing, words.as_str())
        }
    }
}

/// What stands before all that the legend says.
fn frame_opening(language: Language) -> &'static str
    ensures { result.now ≡ frame_opening language }
{
    language.choose(
        "  subgraph legend\n",
        "  graph [fontname=\"sans-serif\", fontsize=9, label=<<table border=\"0\" cellborder=\"1\" cellspacing=\"4\"><tr>",
    )
}

/// What stands after it.
fn frame_closing(language: Language) -> &'static str
    ensures { result.now ≡ frame_closing language }
{
    language.choose("  end\n", "</tr></table>>];\n")
}

/// The frame round what the legend says; nothing where that is nothing.
fn framed(alloc: Global, language: Language, entries: &str) -> Result<String, AllocError>
    ensures { IfOk result (λ text. string_bytes text ≡ framed language entries.now) }
{
    let opening = frame_opening(language);
    let closing = frame_closing(language);
    enclosed(alloc, opening, entries, closing)
}

/// The legend: what the colours mean that occur, or which moment of a run is shown.
pub(crate) fn legend(alloc: Global, language: Language, shown: &Shown) -> Result<String, AllocError>
    ensures { IfOk result (λ text. string_bytes text ≡ legend language shown.now) }
{
    framed(alloc, language, entries(alloc, language, shown)?.as_str())
}
