//! Whether threads can make the run of a journal.

use crate::journal::line_text;
use crate::words::Said;
use std::alloc::{AllocError, Global};
use tpl_journal::{JournalFault, read_journal};
use tpl_reader::Document;
use tpl_refute::first_crossing;

/// What is said of a run that no thread makes, with the line from which on the bodies of a worker don't nest. Nothing, where
/// they do.
pub(crate) fn crossing_text(alloc: Global, document: &Document) -> Said {
    let events = match read_journal(alloc, &document.graph, document.journal.as_str()) {
        Ok(events) => events,
        Err(JournalFault::Memory) => return Err(AllocError),
        Err(_) => return Ok(String::new(alloc)),
    };
    match first_crossing(alloc, &document.graph, &events)? {
        Some(number) => {
            let line = line_text(alloc, document, number)?;
            format!(in alloc;
                "no thread makes this run: with {line} the bodies of one worker don't nest\n"
            )
        }
        None => Ok(String::new(alloc)),
    }
}
