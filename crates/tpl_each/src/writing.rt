//! Answers, written with their numbers.

ghost use Rattle.std.specs.Prelude.{◌≡◌, ◌+◌, ◌<◌, ◌≤◌, ◌^◌, ◌++◌, ℕ, List, true, length, map, take, drop};
ghost use Rattle.tpl_each.specs.Prelude.{head, headed, numbered, said_of};
ghost use Rattle.tpl_journal.specs.Prelude.{WritesText};

use crate::ahead::break_in;
use crate::slot::Slot;
use arrayvec::ArrayString;
use itoa::Buffer;
use std::io::Write;
use tpl_commands::Exit;
use tpl_journal::{Counting, WriteFault, write_all, write_whole};

/// The most bytes of what stands before a line: two numbers, of which no more is known here, and two spaces.
const HEAD: usize = 82;

/// What stands before each line of an answer.
fn head(number: u64, exit: Exit) -> ArrayString<HEAD>
    ensures { result.bytes ≡ head number exit }
{
    let mut digits = Buffer::new();
    let mut head = ArrayString::new();
    head.push_str(digits.format(number));
    head.push_str(" ");
    head.push_str(digits.format(exit.code()));
    head.push_str(" ");
    head
}

/// Writes a line behind its head.
fn write_line<W: Write>(head: &str, line: &[u8], to: &mut Counting<W>) -> Result<(), WriteFault>
    ensures { WritesText W.contents to.old to.new (head.now ++ line.now) result }
{
    write_all(head.as_bytes(), to)?;
    write_all(line, to)
}

/// How many bytes the first line of a text has, with its line break.
fn line_len(text: &[u8]) -> usize
    requires { 0 < length text.now }
    ensures some { 0 < result }
    ensures within { result ≤ length text.now }
    ensures headed { (before : List ℕ) → headed before true text.now
        ≡ before ++ (take result text.now ++ headed before true (drop result text.now)) }
{
    match break_in(text) {
        Some(place) => place + 1,
        None => text.len(),
    }
}

/// Writes a text with the head before each of its lines.
fn write_text<W: Write>(head: &str, text: &[u8], to: &mut Counting<W>) -> Result<(), WriteFault>
    ensures { WritesText W.contents to.old to.new (headed head.now true text.now) result }
{
    let mut rest = text;
    while !rest.is_empty() {
        let (line, more) = rest.split_at(line_len(rest));
        write_line(head, line, to)?;
        rest = more;
    }
    Ok(())
}

/// Writes the answers of the slots, the first with this number, and flushes them.
pub(crate) fn put_answers<W: Write>(
    slots: &[Slot],
    number: u64,
    to: &mut Counting<W>,
) -> Result<(), WriteFault>
    requires { number + length slots.now < 2 ^ 64 }
    ensures { WritesText W.contents to.old to.new (numbered number (map said_of slots.now)) result }
{
    for at in 0..slots.len() {
        let slot = &slots[at];
        let head = head(number + at as u64, slot.exit());
        write_text(head.as_str(), slot.text(), to)?;
    }
    write_whole(b"", to)
}
