//! The entries of a trace, each a JSON object.

ghost use Rattle.std.specs.Prelude.{◌≡◌, IfOk};
ghost use Rattle.serde_json.specs.View.{view};
ghost use Rattle.tpl_trace.specs.Prelude.{arrow_end, arrow_start, instant, instant_mark, process_mark, slice_mark, track_mark};

use crate::moment::Moment;
use serde_json::{Value, json};
use std::alloc::{AllocError, Global};

/// The number of the one process.
const PROCESS: u64 = 1;

/// An entry, unless memory runs out.
pub(crate) type Entry = Result<Value, AllocError>;

/// How the process is called.
pub(crate) fn process_mark(alloc: Global, name: &str) -> Entry
    ensures { IfOk result (λ v. view v ≡ process_mark name.now) }
{
    json!(in alloc; {"args": {"name": name}, "name": "process_name", "ph": "M", "pid": PROCESS})
}

/// How a track is called.
pub(crate) fn track_mark(alloc: Global, name: &str, track: u32) -> Entry
    ensures { IfOk result (λ v. view v ≡ track_mark name.now track) }
{
    json!(in alloc; {
        "args": {"name": name}, "name": "thread_name", "ph": "M", "pid": PROCESS, "tid": track
    })
}

/// The begin of a slice (phase `B`), or its end (phase `E`).
pub(crate) fn slice_mark(alloc: Global, phase: &str, name: &str, here: Moment) -> Entry
    ensures { IfOk result (λ v. view v ≡ slice_mark phase.now name.now here.track here.time) }
{
    let (track, time) = (here.track, here.time);
    json!(in alloc; {"name": name, "ph": phase, "pid": PROCESS, "tid": track, "ts": time})
}

/// An instant of this name.
fn instant_mark(alloc: Global, name: &str, here: Moment) -> Entry
    ensures { IfOk result (λ v. view v ≡ instant_mark name.now here.track here.time) }
{
    json!(in alloc; {
        "name": name, "ph": "i", "pid": PROCESS, "s": "t", "tid": here.track, "ts": here.time
    })
}

/// An instant that says what is done to which task or token.
pub(crate) fn instant(alloc: Global, verb: &str, name: &str, here: Moment) -> Entry
    ensures { IfOk result (λ v. view v ≡ instant verb.now name.now here.track here.time) }
{
    let said = format!(in alloc; "{verb} {name}")?;
    instant_mark(alloc, said.as_str(), here)
}

/// The start of the arrow with this number.
pub(crate) fn arrow_start(alloc: Global, id: usize, here: Moment) -> Entry
    ensures { IfOk result (λ v. view v ≡ arrow_start id here.track here.time) }
{
    json!(in alloc; {
        "cat": "release", "id": id, "name": "release", "ph": "s", "pid": PROCESS,
        "tid": here.track, "ts": here.time
    })
}

/// The end of the arrow with this number.
pub(crate) fn arrow_end(alloc: Global, id: usize, here: Moment) -> Entry
    ensures { IfOk result (λ v. view v ≡ arrow_end id here.track here.time) }
{
    json!(in alloc; {
        "bp": "e", "cat": "release", "id": id, "name": "release", "ph": "f", "pid": PROCESS,
        "tid": here.track, "ts": here.time
    })
}
