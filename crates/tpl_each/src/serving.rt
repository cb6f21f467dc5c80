//! A command's answers to the lines of a reader.

ghost use Rattle.std.specs.Prelude.{◌≡◌, ◌≤◌, ◌<◌, ◌&&◌, if◌then◌else◌};
ghost use Rattle.tpl_each.specs.Prelude.{RespondsToEach};

use crate::ahead::Ahead;
use crate::batch::serve_batch;
use crate::gathering::Ends;
use crate::slot::MOST_JOBS;
use std::alloc::Global;
use std::io::{Read, Write};
use std::thread::Threads;
use tpl_commands::{Command, Exit};
use tpl_journal::Counting;

/// No document has this number.
const LAST: u64 = 1 << 63;

/// Both are so.
fn both(one: bool, other: bool) -> bool
    ensures { result ≡ (one && other) }
{
    one && other
}

/// How the program ends once all answers are written.
fn exit_for(all_yes: bool) -> Exit
    ensures { result ≡ (if all_yes then Exit.Success else Exit.Failure) }
{
    if all_yes {
        Exit::Success
    } else {
        Exit::Failure
    }
}

/// Answers the document on each line, by at most `jobs` threads beside each other, and writes the answers in order, each
/// line behind the number of its document and the exit status that the document alone would have. A document has at most
/// 16,777,216 bytes; of a longer line the rest is passed over. Beside `jobs` lines only those are kept that came with
/// the same read as the last one. Success, where each answer is yes. What is read isn't answered before `jobs` lines came,
/// or the end. A failed read ends the reading, and
/// the lines before it are answered; after a failed write no more is read or written.
pub fn serve_each<T: Threads + Sync, C: Command + Sync, R: Read, W: Write>(
    threads: &T,
    command: &C,
    alloc: Global,
    jobs: usize,
    from: &mut Counting<R>,
    to: &mut Counting<W>,
) -> Exit
    requires some { 0 < jobs }
    requires most { jobs ≤ MOST_JOBS }
    ensures { RespondsToEach (C.answers command.now) R.remaining from.old from.new
        W.contents to.old to.new result }
{
    let mut ahead = Ahead::new();
    let mut number: u64 = 1;
    let mut good = true;
    while number < LAST {
        let served = serve_batch(threads, command, alloc, jobs, number, &mut ahead, from, to);
        match served {
            Ok(batch) => {
                good = both(good, batch.all_yes);
                number += batch.count;
                match batch.ends {
                    Ends::More => {}
                    Ends::End => return exit_for(good),
                    Ends::Failed => return Exit::Device,
                    Ends::Endless => return Exit::Fault,
                }
            }
            Err(_) => return Exit::Device,
        }
    }
    Exit::Fault
}
