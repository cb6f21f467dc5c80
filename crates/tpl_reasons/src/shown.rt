//! Texts that a terminal shows as they are, whatever stands in the document.

ghost use Rattle.std.specs.Prelude.{◌≡◌, ◌≢◌, ◌%◌, ◌++◌, [], false, codes, IfOk, OnOk, string_bytes};
ghost use Rattle.std.specs.Char.{digit_char, encode_utf8};
ghost use Rattle.tpl_reasons.specs.Prelude.{IsShown, four_digits, is_hidden, said_name, shown_letter, turns};

use crate::words::Said;
use std::alloc::{AllocError, Global};

/// What is said where there is nothing else to say.
const SEE: &str = "docs/OUTPUT.md has each answer, and what to do\n";

/// Whether the character turns the direction in which a text is read.
fn turns(letter: char) -> bool
    ensures { result ≡ turns letter }
{
    matches!(
        letter,
        '\u{61c}' | '\u{200e}'..='\u{200f}' | '\u{202a}'..='\u{202e}' | '\u{2066}'..='\u{2069}'
    )
}

/// Whether a terminal doesn't show the character as itself.
fn is_hidden(letter: char) -> bool
    ensures { result ≡ is_hidden letter }
{
    (letter.is_control() && letter != '\n') || turns(letter)
}

/// The last digit of a number to base 16.
fn last_digit(number: u32) -> char
    ensures shown { is_hidden result ≡ false }
    ensures digit { result ≡ digit_char (number % 16) }
{
    char::from_digit(number % 16, 16).unwrap_or('0')
}

/// Adds a character that is shown.
fn add(text: &mut String, letter: char) -> Result<(), AllocError>
    requires letter { is_hidden letter ≡ false }
    requires text { IsShown (string_bytes text.old) }
    ensures shown { IfOk result (λ _. IsShown (string_bytes text.new)) }
    ensures added { OnOk result
        (string_bytes text.new ≡ string_bytes text.old ++ encode_utf8 letter) }
{
    text.push(letter)
}

/// Adds a character as JSON escapes it: `\u`, and its number in four digits.
fn add_escaped(text: &mut String, letter: char) -> Result<(), AllocError>
    requires { IsShown (string_bytes text.old) }
    ensures shown { IfOk result (λ _. IsShown (string_bytes text.new)) }
    ensures added { OnOk result (string_bytes text.new
        ≡ string_bytes text.old ++ (codes "\\u" ++ four_digits letter)) }
{
    let number = u32::from(letter);
    add(text, '\\')?;
    add(text, 'u')?;
    add(text, last_digit(number / 0x1000))?;
    add(text, last_digit(number / 0x100))?;
    add(text, last_digit(number / 0x10))?;
    add(text, last_digit(number))
}

/// Adds a character, escaped where a terminal doesn't show it.
fn add_letter(text: &mut String, letter: char) -> Result<(), AllocError>
    requires { IsShown (string_bytes text.old) }
    ensures shown { IfOk result (λ _. IsShown (string_bytes text.new)) }
    ensures added { OnOk result
        (string_bytes text.new ≡ string_bytes text.old ++ shown_letter letter) }
{
    if is_hidden(letter) {
        add_escaped(text, letter)
    } else {
        add(text, letter)
    }
}

/// The text, in which each character that a terminal doesn't show is escaped.
fn shown(alloc: Global, text: &str) -> Said
    ensures shown { IfOk result (λ shown. IsShown (string_bytes shown)) }
    ensures spelled { IfOk result (λ shown. string_bytes shown ≡ said_name text.now) }
{
    let mut shown = String::new(alloc);
    for letter in text.chars() {
        add_letter(&mut shown, letter)?;
    }
    Ok(shown)
}

/// The name of a claim as a terminal shows it. Out of memory is the only error.
pub fn said_name(alloc: Global, name: &str) -> Result<String, AllocError>
    ensures shown { IfOk result (λ shown. IsShown (string_bytes shown)) }
    ensures spelled { IfOk result (λ shown. string_bytes shown ≡ said_name name.now) }
{
    shown(alloc, name)
}

/// The text as a terminal shows it; where there is none, where to look: so that no reason is without words.
pub(crate) fn said(alloc: Global, text: &str) -> Said
    ensures words { IfOk result (λ said. string_bytes said ≢ []) }
    ensures shown { IfOk result (λ said. IsShown (string_bytes said)) }
{
    let text = shown(alloc, text)?;
    if text.is_empty() {
        String::from_str(alloc, SEE)
    } else {
        Ok(text)
    }
}
