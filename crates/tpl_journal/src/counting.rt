//! A reader or writer that counts its calls and those that failed.

ghost use Rattle.std.specs.Prelude.{◌≡◌, is_err, ◌||◌, true};
ghost use Rattle.std.specs.Io.{ReadsAtMost, WritesAtMost};
ghost use Rattle.std.specs.Io.KnownBytes.{Keeps, ReadConsumes, WriteAppends};
ghost use Rattle.tpl_journal.specs.Prelude.{calls_of, contents_of, counted, failures_of, inner_of, remaining_of, took_nothing};

use std::io;
use std::io::{Read, Write};

/// A reader or writer with a count of its calls, and one of those that failed: that answered an
/// error, or took no byte of a text that isn't empty. At the greatest `u64` a count stays.
#[derive(Drop)]
pub struct Counting<T> {
    inner: T,
    failures: u64,
    calls: u64,
}

impl<T> Counting<T> {
    /// Nothing was called yet.
    pub fn new(inner: T) -> Counting<T>
        ensures inner { inner_of result ≡ inner }
        ensures failures { failures_of result ≡ 0 }
        ensures calls { calls_of result ≡ 0 }
    {
        Counting {
            inner,
            failures: 0,
            calls: 0,
        }
    }

    /// How many calls failed.
    pub fn failures(&self) -> u64
        ensures { result ≡ failures_of self.now }
    {
        self.failures
    }

    /// How many calls were made, failed ones too.
    pub fn calls(&self) -> u64
        ensures { result ≡ calls_of self.now }
    {
        self.calls
    }

    /// The reader or writer itself.
    pub fn into_inner(self) -> T
        ensures { result ≡ inner_of self }
    {
        let Counting { inner, .. } = self;
        inner
    }

    fn count(&mut self, failed: bool)
        ensures failures { failures_of self.new ≡ counted failed (failures_of self.old) }
        ensures calls { calls_of self.new ≡ counted true (calls_of self.old) }
        ensures inner { inner_of self.new ≡ inner_of self.old }
    {
        self.calls = self.calls.saturating_add(1);
        if failed {
            self.failures = self.failures.saturating_add(1);
        }
    }
}

impl<R: Read> Read for Counting<R> {
    ghost remaining = { remaining_of R.remaining };

    fn read(&mut self, buf: &mut [u8]) -> io::Result<usize>
        ensures bound { ReadsAtMost result buf.new }
        ensures bytes { ReadConsumes (remaining_of R.remaining self.old)
            (remaining_of R.remaining self.new) result buf.new }
        ensures failures { failures_of self.new ≡ counted (is_err result) (failures_of self.old) }
        ensures calls { calls_of self.new ≡ counted true (calls_of self.old) }
    {
        let outcome = self.inner.read(buf);
        self.count(outcome.is_err());
        outcome
    }
}

impl<W: Write> Write for Counting<W> {
    ghost contents = { contents_of W.contents };

    fn write(&mut self, buf: &[u8]) -> io::Result<usize>
        ensures bound { WritesAtMost result buf.now }
        ensures bytes { WriteAppends (contents_of W.contents self.old)
            (contents_of W.contents self.new) result buf.now }
        ensures failures { failures_of self.new
            ≡ counted (is_err result || took_nothing result buf.now) (failures_of self.old) }
        ensures calls { calls_of self.new ≡ counted true (calls_of self.old) }
    {
        let outcome = self.inner.write(buf);
        let failed = match &outcome {
            Err(_) => true,
            Ok(taken) => *taken == 0 && !buf.is_empty(),
        };
        self.count(failed);
        outcome
    }

    fn flush(&mut self) -> io::Result<()>
        ensures bytes { Keeps (contents_of W.contents self.old) (contents_of W.contents self.new) }
        ensures failures { failures_of self.new ≡ counted (is_err result) (failures_of self.old) }
        ensures calls { calls_of self.new ≡ counted true (calls_of self.old) }
    {
        let outcome = self.inner.flush();
        self.count(outcome.is_err());
        outcome
    }
}
