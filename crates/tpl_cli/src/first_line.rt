//! How the first line of what is read ends, and whether it goes on behind it.

use std::io;
use std::io::Read;

/// Where the next byte of a text stands.
#[derive(Clone, Copy, Drop, PartialEq, Eq)]
enum Place {
    /// In the first line.
    Within,
    /// Behind the first line, and all bytes there were white space.
    Behind,
    /// Further behind, where nothing is noted any more.
    Over,
}

/// A reader that notes how the first line of what it gives ends, and what comes behind it, where that is wanted.
#[derive(Drop)]
pub(crate) struct FirstLine<R> {
    inner: R,
    place: Place,
    /// The last byte of the line that isn't white space; 0 where there is none.
    last: u8,
    /// The first byte behind the line that isn't white space; 0 where there is none.
    next: u8,
}

/// The byte is white space of JSON.
fn is_blank(byte: u8) -> bool {
    matches!(byte, b' ' | b'\t' | b'\r' | b'\n')
}

impl<R> FirstLine<R> {
    /// Nothing of the line is read yet.
    pub(crate) fn new(inner: R, is_wanted: bool) -> FirstLine<R> {
        let place = if is_wanted {
            Place::Within
        } else {
            Place::Over
        };
        FirstLine {
            inner,
            place,
            last: 0,
            next: 0,
        }
    }

    /// The line ends where no JSON text does, and what comes behind it may go on with the same text.
    pub(crate) fn is_cut(&self) -> bool {
        let ends_early = matches!(self.last, b'{' | b'[' | b',' | b':');
        let may_go_on = self.next != 0 && (self.last != b'{' || self.next != b'{');
        ends_early && may_go_on
    }

    /// Notes a byte.
    fn note_byte(&mut self, byte: u8) {
        match self.place {
            Place::Within if byte == b'\n' => self.place = Place::Behind,
            Place::Within if !is_blank(byte) => self.last = byte,
            Place::Behind if !is_blank(byte) => {
                self.next = byte;
                self.place = Place::Over;
            }
            _ => {}
        }
    }

    /// Notes the first so many of the bytes, as far as they are wanted.
    fn note(&mut self, bytes: &[u8], count: usize) {
        for byte in bytes.iter().take(count) {
            if self.place == Place::Over {
                break;
            }
            self.note_byte(*byte);
        }
    }
}

impl<R: Read> Read for FirstLine<R> {
    fn read(&mut self, buf: &mut [u8]) -> io::Result<usize> {
        let outcome = self.inner.read(buf);
        if let Ok(count) = &outcome {
            self.note(buf, *count);
        }
        outcome
    }
}
