//! The text of the page.

ghost use Rattle.std.specs.Prelude.{◌≡◌, ◌++◌, IfOk, string_bytes};
ghost use Rattle.tpl_page.specs.Prelude.{IsPage, escaped};

use crate::escaping::add_escaped;
use crate::template::{HEAD, MIDDLE, TAIL};
use std::alloc::{AllocError, Global};

/// What stands before the answer.
fn head<'a>() -> &'a str
    ensures { result.now ≡ HEAD.now }
{
    HEAD
}

/// What stands between the answer and the data.
fn middle<'a>() -> &'a str
    ensures { result.now ≡ MIDDLE.now }
{
    MIDDLE
}

/// What stands behind the data.
fn tail<'a>() -> &'a str
    ensures { result.now ≡ TAIL.now }
{
    TAIL
}

/// A text of these parts, in which the answer and the data are escaped.
fn put_together(
    alloc: Global,
    head: &str,
    answer: &str,
    middle: &str,
    shown: &str,
    tail: &str,
) -> Result<String, AllocError>
    ensures { IfOk result (λ text. string_bytes text
        ≡ head.now ++ escaped answer.now ++ middle.now ++ escaped shown.now ++ tail.now) }
{
    let mut text = String::from_str(alloc, head)?;
    add_escaped(&mut text, answer)?;
    text.push_str(middle)?;
    add_escaped(&mut text, shown)?;
    text.push_str(tail)?;
    Ok(text)
}

/// The page with this answer, which stands there where scripts may not run, and with the data that is shown by scripts.
/// Out of memory is the only error.
pub fn page_of(alloc: Global, answer: &str, shown: &str) -> Result<String, AllocError>
    ensures { IfOk result (λ text. IsPage answer.now shown.now (string_bytes text)) }
{
    put_together(alloc, head(), answer, middle(), shown, tail())
}
