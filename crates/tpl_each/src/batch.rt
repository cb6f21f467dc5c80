//! Lines that are answered together, from a reader to a writer.

ghost use Rattle.std.specs.Prelude.{◌≡◌, ◌+◌, ◌<◌, ◌≤◌, ◌^◌, ◌-◌, map, IfOk, IfErr, is_err};
ghost use Rattle.std.specs.List.{list_all};
ghost use Rattle.tpl_each.specs.Prelude.{IsServed, IsStopped, coming, is_yes, said_of};
ghost use Rattle.tpl_each.specs.Gathering.{is_failed};
ghost use Rattle.tpl_journal.specs.Prelude.{calls_of, contents_of, counted, failures_of};

use crate::ahead::Ahead;
use crate::answering::answer_slots;
use crate::gathering::{Ends, gather};
use crate::slot::{MOST_JOBS, MOST_LINES, Slot, Slots};
use crate::writing::put_answers;
use std::alloc::Global;
use std::io::{Read, Write};
use std::thread::Threads;
use tpl_commands::Command;
use tpl_journal::{Counting, WriteFault};

/// How lines were answered.
#[derive(Clone, Copy, PartialEq, Eq, Debug)]
pub(crate) struct Batch {
    /// How many there were.
    pub(crate) count: u64,
    /// Each answer is yes.
    pub(crate) all_yes: bool,
    /// What comes behind them.
    pub(crate) ends: Ends,
}

/// Each answer is yes.
fn all_yes(slots: &[Slot]) -> bool
    ensures { result ≡ list_all (λ said. is_yes said.exit) (map said_of slots.now) }
{
    slots.iter().all(|slot| slot.is_yes())
}

/// Reads at least `jobs` lines, or to the end, answers them, at most so many beside each other, and writes the answers,
/// the first with this number. After a failed write a front of them was written.
pub(crate) fn serve_batch<T: Threads + Sync, C: Command + Sync, R: Read, W: Write>(
    threads: &T,
    command: &C,
    alloc: Global,
    jobs: usize,
    number: u64,
    ahead: &mut Ahead,
    from: &mut Counting<R>,
    to: &mut Counting<W>,
) -> Result<Batch, WriteFault>
    requires some { 0 < jobs }
    requires most { jobs ≤ MOST_JOBS }
    requires room { number < 2 ^ 63 }
    ensures served { IfOk result (IsServed (C.answers command.now)
        (coming R.remaining ahead.old from.old) (coming R.remaining ahead.new from.new)
        (contents_of W.contents to.old) (contents_of W.contents to.new) number) }
    ensures stopped { IfErr result (λ fault. IsStopped (C.answers command.now)
        (coming R.remaining ahead.old from.old)
        (contents_of W.contents to.old) (contents_of W.contents to.new) number) }
    ensures full { IfOk result (λ batch. batch.ends ≡ Ends.More → jobs ≤ batch.count) }
    ensures short { IfOk result (λ batch. batch.count ≤ MOST_LINES) }
    ensures reads { IfOk result (λ batch.
        failures_of from.new ≡ counted (is_failed batch.ends) (failures_of from.old)) }
    ensures writes { failures_of to.new ≡ counted (is_err result) (failures_of to.old) }
    ensures calls { IfOk result (λ batch.
        batch.ends ≡ Ends.Endless → 2 ^ 64 - 1 ≤ calls_of from.new) }
{
    let mut slots = Slots::new_in(alloc);
    let ends = gather(alloc, jobs, &mut slots, ahead, from);
    answer_slots(threads, command, alloc, jobs, &mut slots);
    let answered = slots.as_slice();
    put_answers(answered, number, to)?;
    Ok(Batch {
        count: answered.len() as u64,
        all_yes: all_yes(answered),
        ends,
    })
}
