//! The answers to lines, by threads beside each other.

ghost use Rattle.std.specs.Prelude.{◌≡◌, ◌<◌, ◌≤◌, ℕ, List, length, IfOk, slice_index_or, string_bytes};
ghost use Rattle.tpl_commands.specs.Prelude.{Says};
ghost use Rattle.tpl_each.specs.Prelude.{IsKept, IsSaidTo, said_of};
ghost use Rattle.tpl_each.specs.declared.slot.Slot.{Slot};

use crate::line::Line;
use crate::slot::{Slot, Slots};
use std::alloc::{AllocError, Global};
use std::thread;
use std::thread::Threads;
use tpl_commands::{Answer, Command, Exit};

/// How many bytes of lines are worth a thread: the shortest document with a claim has some more.
const BYTES_A_THREAD: usize = 64;

/// The command's answer to a line.
fn answer_to<C: Command>(command: &C, alloc: Global, line: &Line) -> Result<Answer, AllocError>
    ensures { IfOk result (λ given. (input : List ℕ) → IsKept input line.now
        → Says (C.answers command.now) input given.exit (string_bytes given.text)) }
{
    match line {
        Line::Whole(bytes) => {
            let answered = command.answer(alloc, bytes)?;
            Ok(answered.answer)
        }
        Line::TooLong => Ok(Answer {
            exit: Exit::Unreadable,
            text: String::from_str(alloc, "unreadable: too long\n")?,
        }),
        Line::Lost => Err(AllocError),
    }
}

/// Answers the line of a slot.
fn answer_slot<C: Command>(command: &C, alloc: Global, slot: &mut Slot)
    ensures { IsSaidTo (C.answers command.now) slot.old.line (said_of slot.new) }
{
    slot.answer = answer_to(command, alloc, &slot.line).ok();
}

/// Answers the line of each slot, by at most this many threads beside each other. Whatever their number, each answer is
/// that of the line of its slot.
fn answer_all<R: Threads + Sync, C: Command + Sync>(
    rt: &R,
    command: &C,
    alloc: Global,
    jobs: usize,
    slots: &mut [Slot],
)
    requires { 0 < jobs }
    ensures { (i : ℕ) (d : Slot) → i < length slots.old → IsSaidTo (C.answers command.now)
        (slice_index_or slots.old i d).line (said_of (slice_index_or slots.new i d)) }
{
    let answer = move |_at: usize, slot: &mut Slot|
        ensures { IsSaidTo (C.answers command.entry.now) slot.entry.now.line
            (said_of slot.exit.now) }
    { answer_slot(command, alloc, slot) };
    thread::for_each_mut(rt, slots, jobs, &answer);
}

/// How many threads there are for these lines: at most `jobs`, and no more than one for each `BYTES_A_THREAD` bytes and
/// one besides.
fn threads_for(jobs: usize, slots: &[Slot]) -> usize
    requires { 0 < jobs }
    ensures some { 0 < result }
    ensures most { result ≤ jobs }
{
    let mut bytes: usize = 0;
    for slot in slots {
        bytes = bytes.saturating_add(slot.line.len());
    }
    jobs.min(1 + bytes / BYTES_A_THREAD)
}

/// Answers the line of each slot, as [`answer_all`] does, by as many threads as the lines are worth.
pub(crate) fn answer_slots<R: Threads + Sync, C: Command + Sync>(
    rt: &R,
    command: &C,
    alloc: Global,
    jobs: usize,
    slots: &mut Slots,
)
    requires { 0 < jobs }
    ensures count { length slots.new.items ≡ length slots.old.items }
    ensures said { (i : ℕ) (d : Slot) → i < length slots.old.items
        → IsSaidTo (C.answers command.now) (slice_index_or slots.old.items i d).line
        (said_of (slice_index_or slots.new.items i d)) }
{
    let threads = threads_for(jobs, slots.as_slice());
    answer_all(rt, command, alloc, threads, slots.as_mut_slice());
}
