//! What is shown at the node of a task.

ghost use Rattle.std.specs.Prelude.{◌≡◌, ◌++◌, IfOk, OnOk, string_bytes};
ghost use Rattle.tpl_draw.specs.Prelude.{border, border_line, has_border, is_named, line_break, mark, paint_of, stands, status_line};

use crate::ending::no_ends;
use crate::language::Language;
use crate::marks::{paint, painted, status_paint};
use crate::shown::{Failing, Moment, Shown};
use std::alloc::{AllocError, Global};
use tpl_model::{Status, TaskId};

/// A claim fails, and says something of the task.
fn is_named(failing: Option<Failing>, task: TaskId) -> bool
    ensures { result ≡ is_named failing task.0 }
{
    match failing {
        Some(failing) => failing.says.names(task),
        None => false,
    }
}

/// How a task stands at a moment; `Created` past the end of the list.
fn stands(moment: &Moment, task: TaskId) -> Status
    ensures { result ≡ stands moment.now task.0 }
{
    if (task.0 as usize) < moment.statuses.len() {
        moment.statuses[task.0 as usize]
    } else {
        Status::Created
    }
}

/// What begins a further line in a node.
pub(crate) fn line_break(language: Language) -> &'static str
    ensures { result.now ≡ line_break language }
{
    language.choose("<br/>", "\\n")
}

/// Adds the last line of a task's node, where a run is shown: the task's status.
pub(crate) fn add_status_line(
    text: &mut String,
    language: Language,
    shown: &Shown,
    task: TaskId,
) -> Result<(), AllocError>
    ensures { OnOk result (string_bytes text.new ≡ string_bytes text.old
        ++ status_line language shown.now task.0) }
{
    match shown {
        Shown::Endings(_) => Ok(()),
        Shown::Run(moment) => {
            text.push_str(line_break(language))?;
            text.push_str(stands(moment, task).name())
        }
    }
}

/// The class or colour of a task's node.
fn paint_of(language: Language, shown: &Shown, task: TaskId) -> &'static str
    ensures { result.now ≡ paint_of language shown.now task.0 }
{
    match shown {
        Shown::Endings(ends) => {
            if (task.0 as usize) < ends.len() {
                paint(language, ends[task.0 as usize])
            } else {
                paint(language, no_ends())
            }
        }
        Shown::Run(moment) => status_paint(language, stands(moment, task)),
    }
}

/// A thick border is drawn round a task that the claim names which fails.
pub(crate) fn has_border(shown: &Shown, task: TaskId) -> bool
    ensures { result ≡ has_border shown.now task.0 }
{
    match shown {
        Shown::Endings(_) => false,
        Shown::Run(moment) => is_named(moment.failing, task),
    }
}

/// The border in DOT, which is said among the attributes of a node.
fn border(language: Language, has: bool) -> &'static str
    ensures { result.now ≡ border language has }
{
    match (language, has) {
        (Language::Dot, true) => ", color=red3, penwidth=3",
        _ => "",
    }
}

/// The border in Mermaid, which is said in a line behind that of the node.
pub(crate) fn border_line(
    alloc: Global,
    language: Language,
    has: bool,
    name: &str,
) -> Result<String, AllocError>
    ensures { IfOk result (λ line. string_bytes line ≡ border_line language has name.now) }
{
    match (language, has) {
        (Language::Mermaid, true) => {
            format!(in alloc; "  style t_{name} stroke:#c00,stroke-width:4px\n")
        }
        _ => Ok(String::new(alloc)),
    }
}

/// What stands at the node of a task: its class or colour, and its border.
pub(crate) fn mark(
    alloc: Global,
    language: Language,
    shown: &Shown,
    task: TaskId,
) -> Result<String, AllocError>
    ensures { IfOk result (λ text. string_bytes text ≡ mark language shown.now task.0) }
{
    let mut text = painted(alloc, language, paint_of(language, shown, task))?;
    text.push_str(border(language, has_border(shown, task)))?;
    Ok(text)
}
