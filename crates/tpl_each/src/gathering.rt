//! Lines that are answered together.

ghost use Rattle.std.specs.Prelude.{◌≡◌, ◌<◌, ◌≤◌, ◌^◌, ◌-◌, [], length};
ghost use Rattle.tpl_each.specs.Prelude.{Gathers, coming};
ghost use Rattle.tpl_each.specs.Gathering.{is_failed};
ghost use Rattle.tpl_journal.specs.Prelude.{calls_of, counted, failures_of};

use crate::ahead::Ahead;
use crate::next::{Next, next_line};
use crate::slot::{MOST_LINES, Slot, Slots};
use std::alloc::Global;
use std::io::Read;
use tpl_journal::Counting;

/// What comes behind the lines that were gathered.
#[derive(Clone, Copy, PartialEq, Eq, Debug)]
pub(crate) enum Ends {
    /// More lines may come.
    More,
    /// Nothing.
    End,
    /// A read failed.
    Failed,
    /// More reads were made than are counted.
    Endless,
}

/// Reads at least so many lines, or to the end, and those behind them that came with the same read, each into a slot
/// without an answer.
pub(crate) fn gather<R: Read>(
    alloc: Global,
    count: usize,
    slots: &mut Slots,
    ahead: &mut Ahead,
    from: &mut Counting<R>,
) -> Ends
    requires some { 0 < count }
    requires most { count ≤ MOST_LINES }
    requires empty { slots.old.items ≡ [] }
    ensures gathers { Gathers (coming R.remaining ahead.old from.old)
        (coming R.remaining ahead.new from.new) slots.new.items result }
    ensures full { result ≡ Ends.More → count ≤ length slots.new.items }
    ensures short { length slots.new.items ≤ MOST_LINES }
    ensures failures { failures_of from.new ≡ counted (is_failed result) (failures_of from.old) }
    ensures calls { result ≡ Ends.Endless → 2 ^ 64 - 1 ≤ calls_of from.new }
{
    for at in 0..MOST_LINES {
        if at >= count && !ahead.has_line() {
            return Ends::More;
        }
        match next_line(alloc, ahead, from) {
            Next::Line(line) => slots.push(Slot::new(line)),
            Next::Last(line) => {
                slots.push(Slot::new(line));
                return Ends::End;
            }
            Next::End => return Ends::End,
            Next::Failed => return Ends::Failed,
            Next::Endless => return Ends::Endless,
        }
    }
    Ends::More
}
