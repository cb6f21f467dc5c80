//! Whether the options of a task fit its kind.

ghost use Rattle.std.specs.Prelude.{◌≡◌};
ghost use Rattle.std.specs.Int.RustNames.{bit_or};
ghost use Rattle.bitflags.specs.Sets.{find_name};
ghost use Rattle.tpl_draft.specs.Prelude.{or_zero, task_of};
ghost use Rattle.tpl_draft.specs.Refusals as spec;
ghost use Rattle.tpl_model.specs.Prelude.{continuation_words, task_words, words};

use crate::draft::{DraftKind, DraftTask};
use crate::fault::OptionsFault;
use tpl_model::{OptionFault, Options};

/// The options with those of a word.
fn with(options: Options, word: &str) -> Options
    ensures { result ≡ bit_or options (or_zero (find_name words word.now)) }
{
    match Options::from_word(word) {
        Some(more) => options.union(more),
        None => options.union(Options::empty()),
    }
}

/// The words that roots and children take (.NET API documentation: TaskCreationOptions).
fn task_words() -> Options
    ensures { result ≡ task_words }
{
    let fair = with(Options::empty(), "PreferFairness");
    let long = with(fair, "LongRunning");
    let attached = with(long, "AttachedToParent");
    let closed = with(attached, "DenyChildAttach");
    let hidden = with(closed, "HideScheduler");
    with(hidden, "RunContinuationsAsynchronously")
}

/// The words that continuations take, those of roots and children too (.NET API documentation:
/// TaskContinuationOptions).
fn continuation_words() -> Options
    ensures { result ≡ continuation_words }
{
    let lazy = with(task_words(), "LazyCancellation");
    let not_ran = with(lazy, "NotOnRanToCompletion");
    let not_faulted = with(not_ran, "NotOnFaulted");
    let not_canceled = with(not_faulted, "NotOnCanceled");
    with(not_canceled, "ExecuteSynchronously")
}

fn fault_of(words: Options, options: Options) -> Option<OptionsFault>
    ensures { result ≡ spec.options_fault words options }
{
    match options.valid() {
        Err(OptionFault::ExcludesAll) => Some(OptionsFault::ExcludesAll),
        Err(OptionFault::LongAndSync) => Some(OptionsFault::LongAndSync),
        Ok(()) => {
            if words.contains(options) {
                None
            } else {
                Some(OptionsFault::WrongKind)
            }
        }
    }
}

/// What is wrong with the options of a task.
pub fn options_fault(task: &DraftTask) -> Option<OptionsFault>
    ensures { result ≡ spec.options_fault_of (task_of task.now) }
{
    match &task.kind {
        DraftKind::Root(work) | DraftKind::Child(work) => fault_of(task_words(), work.options),
        DraftKind::Then(_, work) => fault_of(continuation_words(), work.options),
        _ => None,
    }
}
