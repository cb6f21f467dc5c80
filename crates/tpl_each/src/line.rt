//! What is kept of a line.

ghost use Rattle.std.specs.Prelude.{◌↔◌, ◌<◌, ℕ, List, [], ◌++◌, length, IsTrue};
ghost use Rattle.tpl_each.specs.Prelude.{IsKept};

use std::alloc::Global;
use std::default::MadeWith;
use tpl_reader::LONGEST;

/// What is kept of a line.
#[derive(Drop)]
pub enum Line {
    /// Its bytes.
    Whole(Vec<u8>),
    /// It is longer than a document may be.
    TooLong,
    /// The memory for its bytes was refused.
    Lost,
}

impl Line {
    /// A line of which nothing was read yet.
    pub(crate) fn new(alloc: Global) -> Line
        ensures { IsKept [] result }
    {
        Line::Whole(Vec::new(alloc))
    }

    /// How many of its bytes are kept.
    pub(crate) fn len(&self) -> usize {
        match self {
            Line::Whole(bytes) => bytes.len(),
            Line::TooLong | Line::Lost => 0,
        }
    }

    /// Some of it was read.
    pub(crate) fn is_begun(&self) -> bool
        ensures { (input : List ℕ) → IsKept input self.now → IsTrue result ↔ (0 < length input) }
    {
        match self {
            Line::Whole(bytes) => !bytes.is_empty(),
            Line::TooLong | Line::Lost => true,
        }
    }

    /// The line with some more bytes.
    pub(crate) fn grown(self, more: &[u8]) -> Line
        ensures { (input : List ℕ) → IsKept input self → IsKept (input ++ more.now) result }
    {
        if more.is_empty() {
            return self;
        }
        match self {
            Line::Whole(bytes) => joined(bytes, more),
            Line::TooLong => Line::TooLong,
            Line::Lost => Line::Lost,
        }
    }
}

/// The line of these bytes and some more.
fn joined(bytes: Vec<u8>, more: &[u8]) -> Line
    requires { 0 < length more.now }
    ensures { IsKept (bytes.items ++ more.now) result }
{
    let mut bytes = bytes;
    if bytes.len().saturating_add(more.len()) > LONGEST {
        return Line::TooLong;
    }
    match bytes.extend_from_slice(more) {
        Ok(()) => Line::Whole(bytes),
        Err(_) => Line::Lost,
    }
}

impl MadeWith<Global> for Line {
    fn made_with(alloc: Global) -> Line {
        Line::new(alloc)
    }
}
