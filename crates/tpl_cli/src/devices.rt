//! Standard input and standard output, and what went wrong with them.

use std::io;
use std::io::{Error, ErrorKind, Read, Write};

/// The system's number for a file that isn't open.
const NOT_OPEN: i32 = 9;

/// A reader or writer that keeps the last error of its calls.
#[derive(Drop)]
pub(crate) struct Noting<T> {
    inner: T,
    error: Option<Error>,
}

impl<T> Noting<T> {
    /// Nothing has gone wrong yet.
    pub(crate) fn new(inner: T) -> Noting<T> {
        Noting { inner, error: None }
    }

    /// The reader or writer itself.
    pub(crate) fn inner(&self) -> &T {
        &self.inner
    }

    /// The last error, if there was one.
    pub(crate) fn error(&self) -> Option<Error> {
        self.error
    }

    /// Keeps what went wrong in a call.
    fn note<U>(&mut self, outcome: &io::Result<U>) {
        if let Err(error) = outcome {
            self.error = Some(*error);
        }
    }
}

impl<R: Read> Read for Noting<R> {
    fn read(&mut self, buf: &mut [u8]) -> io::Result<usize> {
        let outcome = self.inner.read(buf);
        self.note(&outcome);
        outcome
    }
}

impl<W: Write> Write for Noting<W> {
    fn write(&mut self, buf: &[u8]) -> io::Result<usize> {
        let outcome = self.inner.write(buf);
        self.note(&outcome);
        outcome
    }

    fn flush(&mut self) -> io::Result<()> {
        let outcome = self.inner.flush();
        self.note(&outcome);
        outcome
    }
}

/// Whether the error says that there is no such file open.
fn is_closed(error: &Error) -> bool {
    error.raw_os_error() == Some(NOT_OPEN)
}

/// Says why no document was read.
fn say_unread(rt: &HostRuntime, error: Error) {
    let how = "a document comes there, as in `taskgraph check < document.json`";
    let _ = if error.kind() == ErrorKind::IsADirectory {
        eprint!(rt; "taskgraph: standard input is a folder; {how}\n")
    } else if is_closed(&error) {
        eprint!(rt; "taskgraph: standard input is closed; {how}\n")
    } else {
        eprint!(rt; "taskgraph: standard input can't be read: {error}\n")
    };
}

/// Says why not all of the answer was written. Who has read enough, as `head`, is told nothing.
pub(crate) fn say_unwritten(rt: &HostRuntime, error: Error) {
    let _ = if error.kind() == ErrorKind::BrokenPipe {
        Ok(())
    } else if is_closed(&error) {
        eprint!(rt; "taskgraph: standard output is closed; the answer goes there\n")
    } else {
        eprint!(rt; "taskgraph: the answer can't be written to standard output: {error}\n")
    };
}

/// Says what went wrong with standard input or standard output, if anything did.
pub(crate) fn say_what_failed(rt: &HostRuntime, read: Option<Error>, written: Option<Error>) {
    match (read, written) {
        (Some(error), _) => say_unread(rt, error),
        (None, Some(error)) => say_unwritten(rt, error),
        (None, None) => {}
    }
}
