//! How the node of a task is coloured.

ghost use Rattle.std.specs.Prelude.{◌≡◌, IfOk, string_bytes};
ghost use Rattle.tpl_draw.specs.Prelude.{paint, painted, status_paint};

use crate::language::{Language, enclosed};
use std::alloc::{AllocError, Global};
use tpl_model::{Final, Finals, Status};

/// The class in Mermaid, or the colour in DOT, of a task that may end in these ways; none where it can only run to
/// completion, or nothing is said.
pub(crate) fn paint(language: Language, ends: Finals) -> &'static str
    ensures { result.now ≡ paint language ends }
{
    match (ends.ran, ends.canceled, ends.faulted) {
        (true, true, true) => language.choose("any_end", "#e0d0ec"),
        (true, true, false) => language.choose("ran_or_canceled", "#fff8d0"),
        (true, false, true) => language.choose("ran_or_faulted", "#ffdfd0"),
        (true, false, false) => "",
        (false, true, true) => language.choose("canceled_or_faulted", "#c596da"),
        (false, true, false) => language.choose("canceled", "#f0c848"),
        (false, false, true) => language.choose("faulted", "#ee7560"),
        (false, false, false) => "",
    }
}

/// The class or colour of a task that stands so in a run; none where it hasn't begun and hasn't ended.
pub(crate) fn status_paint(language: Language, status: Status) -> &'static str
    ensures { result.now ≡ status_paint language status }
{
    match status {
        Status::Created | Status::WaitingForActivation | Status::WaitingToRun => "",
        Status::Running | Status::WaitingForChildrenToComplete => {
            language.choose("running", "#cfe2f7")
        }
        Status::Completed(Final::RanToCompletion) => language.choose("ran", "#d5ebd0"),
        Status::Completed(Final::Canceled) => language.choose("canceled", "#f0c848"),
        Status::Completed(Final::Faulted) => language.choose("faulted", "#ee7560"),
    }
}

/// What gives a node its class or colour; nothing where it has none.
pub(crate) fn painted(alloc: Global, language: Language, paint: &str) -> Result<String, AllocError>
    ensures { IfOk result (λ text. string_bytes text ≡ painted language paint.now) }
{
    let opening = language.choose(":::", ", style=filled, fillcolor=\"");
    enclosed(alloc, opening, paint, language.choose("", "\""))
}
