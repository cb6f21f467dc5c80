//! Pieces of text: what stands in a document, and the word that was meant.

use json::Value;
use std::alloc::{AllocError, Global};
use strsim::osa_distance;

/// The most characters of a value that are shown.
const MOST_SHOWN: usize = 72;

/// The most words of a list that are shown.
const MOST_LISTED: usize = 16;

/// The most bytes of a word that is compared.
const LONGEST_WORD: usize = 64;

/// What is written, and what is meant.
const SLIPS: [(&str, &str); 12] = [
    ("WhenAll", "all"),
    ("WhenAny", "any"),
    ("continuation", "then"),
    ("ContinueWith", "then"),
    ("Run", "root"),
    ("Success", "RanToCompletion"),
    ("Succeeded", "RanToCompletion"),
    ("Completed", "RanToCompletion"),
    ("Failed", "Faulted"),
    ("Failure", "Faulted"),
    ("before", "after"),
    ("OnlyOnSuccess", "OnlyOnRanToCompletion"),
];

/// What C# writes before a word of an enumeration.
const PREFIXES: [&str; 3] = [
    "TaskContinuationOptions.",
    "TaskCreationOptions.",
    "TaskStatus.",
];

/// Adds a character of a text as JSON spells it. What a terminal would obey is spelled by its number.
fn add_character(text: &mut String, character: char) -> Result<(), AllocError> {
    match character {
        '"' => text.push_str("\\\""),
        '\\' => text.push_str("\\\\"),
        '\n' => text.push_str("\\n"),
        '\r' => text.push_str("\\r"),
        '\t' => text.push_str("\\t"),
        '\0'..='\u{1F}'
        | '\u{7F}'..='\u{9F}'
        | '\u{200E}'..='\u{200F}'
        | '\u{2028}'..='\u{202E}'
        | '\u{2066}'..='\u{2069}' => {
            let number = character as u32;
            write!(text, "\\u{number:04x}")
        }
        _ => text.push(character),
    }
}

/// Adds the front of a text as JSON spells it, as far as it may be shown.
pub(crate) fn add_word(text: &mut String, word: &str) -> Result<(), AllocError> {
    for character in word.chars().take(MOST_SHOWN) {
        add_character(text, character)?;
    }
    Ok(())
}

/// Adds the front of a text in quotes, as far as it may be shown.
fn add_quoted(text: &mut String, word: &str) -> Result<(), AllocError> {
    text.push_str("\"")?;
    add_word(text, word)?;
    text.push_str("\"")
}

/// Adds a value as it stands in the document, on one line; of a long one the front.
#[cycle(show)]
fn add_value(text: &mut String, value: &Value<'_>) -> Result<(), AllocError> {
    match value {
        Value::Null => text.push_str("null"),
        Value::Bool(true) => text.push_str("true"),
        Value::Bool(false) => text.push_str("false"),
        Value::Number(digits) => add_front(text, digits, MOST_SHOWN + 1),
        Value::String(word) => add_quoted(text, word),
        Value::Array(items) => add_items(text, items.as_slice()),
        Value::Object(members) => add_members(text, members.as_slice()),
    }
}

/// Goes on to the element of this number in a list that is shown: adds a comma, but for the first one. False where what is
/// shown is long enough.
fn goes_on(text: &mut String, index: usize) -> Result<bool, AllocError> {
    if text.len() > MOST_SHOWN {
        return Ok(false);
    }
    if index > 0 {
        text.push_str(",")?;
    }
    Ok(true)
}

#[cycle(show)]
fn add_items(text: &mut String, items: &[Value<'_>]) -> Result<(), AllocError> {
    text.push_str("[")?;
    for (index, item) in items.iter().enumerate() {
        if !goes_on(text, index)? {
            return Ok(());
        }
        add_value(text, item)?;
    }
    text.push_str("]")
}

#[cycle(show)]
fn add_members(text: &mut String, members: &[(&str, Value<'_>)]) -> Result<(), AllocError> {
    text.push_str("{")?;
    for (index, member) in members.iter().enumerate() {
        if !goes_on(text, index)? {
            return Ok(());
        }
        add_quoted(text, member.0)?;
        text.push_str(":")?;
        add_value(text, &member.1)?;
    }
    text.push_str("}")
}

/// Adds so many characters of a word at most.
fn add_front(text: &mut String, word: &str, most: usize) -> Result<(), AllocError> {
    for character in word.chars().take(most) {
        text.push(character)?;
    }
    Ok(())
}

/// The text, or where it is longer than what is shown, its front.
fn front_of(alloc: Global, text: String) -> Result<String, AllocError> {
    if text.len() <= MOST_SHOWN {
        return Ok(text);
    }
    let mut front = String::new(alloc);
    add_front(&mut front, text.as_str(), MOST_SHOWN)?;
    front.push_str("..")?;
    Ok(front)
}

/// A value as it stands in the document, on one line; of a long one the front.
pub(crate) fn shown(alloc: Global, value: &Value<'_>) -> Result<String, AllocError> {
    let mut text = String::new(alloc);
    add_value(&mut text, value)?;
    front_of(alloc, text)
}

/// A text of the document as it stands there; of a long one the front.
pub(crate) fn quoted(alloc: Global, word: &str) -> Result<String, AllocError> {
    let mut text = String::new(alloc);
    add_quoted(&mut text, word)?;
    front_of(alloc, text)
}

/// Words, each in quotes.
pub(crate) fn listed(alloc: Global, words: &[&str]) -> Result<String, AllocError> {
    let mut text = String::new(alloc);
    for (index, word) in words.iter().take(MOST_LISTED).enumerate() {
        let comma = if index == 0 { "" } else { ", " };
        let word = quoted(alloc, word)?;
        write!(text, "{comma}{word}")?;
    }
    if words.len() > MOST_LISTED {
        text.push_str(", ..")?;
    }
    Ok(text)
}

/// The word without what C# writes before it.
fn without_prefix(word: &str) -> &str {
    for prefix in &PREFIXES {
        if let Some(rest) = word.strip_prefix(*prefix) {
            return rest;
        }
    }
    word
}

/// Whether one word is usually written for the other.
fn is_slip<'a>(written: &'a str, meant: &'a str) -> bool {
    for slip in &SLIPS {
        if slip.0.eq_ignore_ascii_case(written) && slip.1 == meant {
            return true;
        }
    }
    written.eq_ignore_ascii_case(meant)
}

/// The word that was meant, if one is near.
fn meant<'w>(alloc: Global, word: &str, words: &[&'w str]) -> Result<Option<&'w str>, AllocError> {
    let mut found = None;
    let mut reach = word.len() / 3 + 2;
    for other in words {
        let distance = if is_slip(word, other) {
            0
        } else {
            osa_distance(alloc, word, other)?
        };
        if distance < reach {
            reach = distance;
            found = Some(*other);
        }
    }
    Ok(found)
}

/// The question whether a near word was meant; empty where none is near.
pub(crate) fn question(alloc: Global, word: &str, words: &[&str]) -> Result<String, AllocError> {
    let word = without_prefix(word);
    if word.len() > LONGEST_WORD {
        return Ok(String::new(alloc));
    }
    match meant(alloc, word, words)? {
        Some(other) => format!(in alloc; " (did you mean \"{other}\"?)"),
        None => Ok(String::new(alloc)),
    }
}
