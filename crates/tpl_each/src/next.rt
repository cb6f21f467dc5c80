//! The line that comes next.

ghost use Rattle.std.specs.Prelude.{◌≡◌, ◌≤◌, ◌^◌, ◌-◌, ℕ, false, List, Option, IfSome};
ghost use Rattle.tpl_each.specs.Prelude.{Comes, IsKept, IsLine, IsTaken, ahead_of, coming};
ghost use Rattle.tpl_each.specs.Coming.{is_failed};
ghost use Rattle.tpl_journal.specs.Prelude.{calls_of, counted, failures_of};

use crate::ahead::{Ahead, break_in};
use crate::line::Line;
use std::alloc::Global;
use std::io::Read;
use tpl_journal::Counting;

/// What comes next.
#[derive(Drop)]
pub(crate) enum Next {
    /// A line, with its line break.
    Line(Line),
    /// The last line, which has no line break.
    Last(Line),
    /// Nothing.
    End,
    /// A read failed. What came of the line before is let go.
    Failed,
    /// More reads were made than are counted.
    Endless,
}

/// A line with some more of its bytes.
#[derive(Drop)]
pub(crate) enum Piece {
    /// Its line break came too.
    Ended(Line),
    /// More may come.
    Open(Line),
}

/// Adds to the line what was read of it.
fn taken(ahead: &mut Ahead, line: Line) -> Piece
    ensures { (input : List ℕ) → IsKept input line
        → IsTaken input (ahead_of ahead.old) (ahead_of ahead.new) result }
{
    let bytes = ahead.bytes();
    match break_in(bytes) {
        Some(place) => {
            let line = line.grown(&bytes[..place]);
            ahead.skip(place + 1);
            Piece::Ended(line)
        }
        None => {
            let line = line.grown(bytes);
            let count = bytes.len();
            ahead.skip(count);
            Piece::Open(line)
        }
    }
}

/// The line behind which nothing comes. Where it has no byte, it is none.
fn last(line: Line) -> Next
    ensures comes { (input : List ℕ) (old new : Option (List ℕ)) → IsLine input → IsKept input line
        → IfSome old (λ bytes. bytes ≡ input) → Comes old new result }
    ensures going { is_failed result ≡ false }
    ensures finite { result ≡ Next.Endless → ⊥ }
{
    if line.is_begun() {
        Next::Last(line)
    } else {
        Next::End
    }
}

/// Reads the next line. Its bytes are kept as far as it isn't longer than a document may be and there is memory for them.
pub(crate) fn next_line<R: Read>(alloc: Global, ahead: &mut Ahead, from: &mut Counting<R>) -> Next
    ensures comes { Comes (coming R.remaining ahead.old from.old)
        (coming R.remaining ahead.new from.new) result }
    ensures failures { failures_of from.new ≡ counted (is_failed result) (failures_of from.old) }
    ensures calls { result ≡ Next.Endless → 2 ^ 64 - 1 ≤ calls_of from.new }
{
    let mut line = Line::new(alloc);
    for _ in 0..u64::MAX {
        match taken(ahead, line) {
            Piece::Ended(ended) => return Next::Line(ended),
            Piece::Open(open) => line = open,
        }
        match ahead.refill(from) {
            Ok(0) => return last(line),
            Ok(_) => {}
            Err(_) => return Next::Failed,
        }
    }
    Next::Endless
}
