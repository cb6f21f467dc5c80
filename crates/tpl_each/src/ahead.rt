//! Bytes that were read and belong to lines that come.

ghost use Rattle.std.specs.Prelude.{◌≡◌, ◌≤◌, [], true, length, drop, is_err, IfOk, MatchOption, MatchResult};
ghost use Rattle.std.specs.Io.KnownBytes.{Consumes, IsAtEnd, Keeps};
ghost use Rattle.tpl_each.specs.Lines.{IsFirstBreak, IsLine};
ghost use Rattle.tpl_each.specs.declared.ahead.TheConstants.{AHEAD_BYTES};
ghost use Rattle.tpl_journal.specs.Prelude.{calls_of, counted, failures_of, remaining_of};

use memchr::memchr;
use std::io;
use std::io::Read;
use tpl_journal::Counting;

/// How many bytes are read at once, at most. The lines that come with one read are answered together.
pub(crate) const AHEAD_BYTES: usize = 16_384;

/// Bytes that were read and belong to lines that come.
#[derive(Drop)]
pub(crate) struct Ahead {
    block: [u8; AHEAD_BYTES],
    start: usize,
    end: usize,
    ghost ordered: { start ≤ end },
    ghost within: { end ≤ AHEAD_BYTES },
}

impl Ahead {
    ghost use Rattle.tpl_each.specs.Ahead.{ahead_of};

    /// Nothing was read yet.
    pub(crate) fn new() -> Ahead
        ensures { ahead_of result ≡ [] }
    {
        Ahead {
            block: [0; AHEAD_BYTES],
            start: 0,
            end: 0,
        }
    }

    /// The bytes.
    pub(crate) fn bytes(&self) -> &[u8]
        ensures { result.now ≡ ahead_of self.now }
    {
        &self.block[self.start..self.end]
    }

    /// A whole line is there.
    pub(crate) fn has_line(&self) -> bool {
        break_in(self.bytes()).is_some()
    }

    /// Drops the first so many bytes.
    pub(crate) fn skip(&mut self, count: usize)
        requires { count ≤ length (ahead_of self.old) }
        ensures { ahead_of self.new ≡ drop count (ahead_of self.old) }
    {
        self.start += count;
    }

    /// Reads some bytes in place of those that are there, and says how many; none at the end.
    pub(crate) fn refill<R: Read>(&mut self, from: &mut Counting<R>) -> io::Result<usize>
        ensures bytes { MatchResult result
            (λ count. Consumes (remaining_of R.remaining from.old)
            (remaining_of R.remaining from.new) (ahead_of self.new)
            × (count ≡ 0 → IsAtEnd (remaining_of R.remaining from.new)))
            (λ _. Keeps (remaining_of R.remaining from.old) (remaining_of R.remaining from.new)) }
        ensures count { IfOk result (λ count. count ≡ length (ahead_of self.new)) }
        ensures failures { failures_of from.new ≡ counted (is_err result) (failures_of from.old) }
        ensures calls { calls_of from.new ≡ counted true (calls_of from.old) }
    {
        let count = from.read(&mut self.block)?;
        self.start = 0;
        self.end = count;
        Ok(count)
    }
}

/// The place of the first line break.
pub(crate) fn break_in(bytes: &[u8]) -> Option<usize>
    ensures { MatchOption result (IsLine bytes.now) (IsFirstBreak bytes.now) }
{
    memchr(b'\n', bytes)
}
