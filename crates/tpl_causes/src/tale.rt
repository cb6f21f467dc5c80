//! The lines that tell how a run came to where a claim fails.

ghost use Rattle.std.specs.Prelude.{◌≡◌, ◌++◌, ◌∷◌, [], codes, flat_map, map, IfOk, OnOk, string_bytes};
ghost use Rattle.tpl_causes.specs.Prelude.{cause_line, cause_lines, told};

use crate::cause::Cause;
use std::alloc::{AllocError, Global};

/// At most so many causes are told, the last ones.
const MOST_TOLD: usize = 20;

/// What stands above the causes.
const HEAD: &str = "how it came to this:\n";

/// The line of a cause, with this word for an event.
fn cause_line(alloc: Global, word: &str, cause: &Cause) -> Result<String, AllocError>
    ensures { IfOk result (λ line. string_bytes line ≡ cause_line word.now cause.now) }
{
    let (event, says) = (cause.event, cause.says.as_str());
    format!(in alloc; "  {word} {event}: {says}\n")
}

/// Adds what stands above the causes.
fn add_head(lines: &mut Vec<String>, alloc: Global) -> Result<(), AllocError>
    ensures { OnOk result (map string_bytes lines.new.items
        ≡ map string_bytes lines.old.items ++ codes "how it came to this:\n" ∷ []) }
{
    let head = String::from_str(alloc, HEAD)?;
    lines.push(head)?;
    Ok(())
}

/// Adds the line of each cause.
fn add_lines(
    lines: &mut Vec<String>,
    alloc: Global,
    word: &str,
    causes: &[Cause],
) -> Result<(), AllocError>
    ensures { OnOk result (map string_bytes lines.new.items
        ≡ map string_bytes lines.old.items ++ map (cause_line word.now) causes.now) }
{
    for cause in causes {
        let line = cause_line(alloc, word, cause)?;
        lines.push(line)?;
    }
    Ok(())
}

/// Adds the lines that tell how a run came to where a claim fails, with this word for an event, each with its line break:
/// none where the event there is the only one; of more than 20 causes the last 20.
pub fn add_causes(
    lines: &mut Vec<String>,
    alloc: Global,
    word: &str,
    causes: &[Cause],
) -> Result<(), AllocError>
    ensures { OnOk result (map string_bytes lines.new.items
        ≡ map string_bytes lines.old.items ++ cause_lines word.now causes.now) }
{
    if causes.len() < 2 {
        return Ok(());
    }
    add_head(lines, alloc)?;
    let first = causes.len().saturating_sub(MOST_TOLD);
    add_lines(lines, alloc, word, &causes[first..])
}

/// The lines, one after another.
fn joined(alloc: Global, lines: &[String]) -> Result<String, AllocError>
    ensures { IfOk result (λ text.
        string_bytes text ≡ flat_map (λ line. line) (map string_bytes lines.now)) }
{
    let mut text = String::new(alloc);
    for line in lines {
        text.push_str(line.as_str())?;
    }
    Ok(text)
}

/// The same lines as one text.
pub fn told(alloc: Global, word: &str, causes: &[Cause]) -> Result<String, AllocError>
    ensures { IfOk result (λ text. string_bytes text ≡ told word.now causes.now) }
{
    let mut lines = Vec::new(alloc);
    add_causes(&mut lines, alloc, word, causes)?;
    joined(alloc, &lines)
}
