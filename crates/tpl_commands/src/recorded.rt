//! What a document says of a real run of its graph.

ghost use Rattle.std.specs.Prelude.{◌≡◌};
ghost use Rattle.tpl_commands.specs.Prelude.{ended_of, times_of};
ghost use Rattle.tpl_reader.specs.Prelude.{doc_of};

use tpl_model::{Final, TaskId};
use tpl_reader::Document;

/// How tasks were seen to end in a real run: empty where nothing is said.
pub fn ended_of(document: &Document) -> &[(TaskId, Final)]
    ensures { result.now ≡ ended_of (doc_of document.now) }
{
    document.ended.as_slice()
}

/// When each event of a real run came, in microseconds from its start; empty where that isn't said.
pub fn times_of(document: &Document) -> &[u64]
    ensures { result.now ≡ times_of (doc_of document.now) }
{
    match &document.times {
        Some(times) => times.as_slice(),
        None => &[],
    }
}
