//! Bytes that are no JSON text.

use std::alloc::{AllocError, Global};
use tpl_json::{MOST_NESTED, NotRead};

/// What is said of the bytes for what they begin with.
fn says_mark(bytes: &[u8]) -> &'static str {
    match bytes {
        [] => "there is nothing to read: the document comes on standard input\n",
        [0xEF, 0xBB, 0xBF, ..] => {
            "the text begins with two byte order marks (EF BB BF): save it as UTF-8 without BOM\n"
        }
        [0xFF, 0xFE, ..] => {
            "the text begins with FF FE, as UTF-16 does: save it as UTF-8 without BOM\n"
        }
        [0xFE, 0xFF, ..] => {
            "the text begins with FE FF, as UTF-16 does: save it as UTF-8 without BOM\n"
        }
        _ => "",
    }
}

/// The line and the column of a byte of the text; both count from 1, and a column is a byte.
fn line_and_column(bytes: &[u8], at: usize) -> (usize, usize) {
    let (mut line, mut column): (usize, usize) = (1, 1);
    for byte in bytes.iter().take(at) {
        if *byte == b'\n' {
            line = line.saturating_add(1);
            column = 1;
        } else {
            column = column.saturating_add(1);
        }
    }
    (line, column)
}

/// What stands before the byte at which the reading of a text stopped.
#[derive(Drop)]
struct Front {
    /// The brackets that are open, the innermost last.
    open: Vec<u8>,
    /// Whether a bracket closes another than the one that was opened last.
    is_crossed: bool,
    /// Whether a text is open.
    in_text: bool,
    /// The last byte that isn't blank, and the one before it; a blank where there is none.
    last: u8,
    before: u8,
}

/// Whether a value, or a name of a member, may end with this byte.
fn ends_value(byte: u8) -> bool {
    matches!(byte, b'"' | b'}' | b']') || byte.is_ascii_alphanumeric()
}

/// Whether a value, or a name of a member, may begin with this byte.
fn begins_value(byte: u8) -> bool {
    matches!(byte, b'"' | b'{' | b'[' | b'-') || byte.is_ascii_alphanumeric()
}

impl Front {
    /// Nothing yet.
    fn new(alloc: Global) -> Front {
        Front {
            open: Vec::new(alloc),
            is_crossed: false,
            in_text: false,
            last: b' ',
            before: b' ',
        }
    }

    /// Goes on by a byte outside of texts.
    fn pass(&mut self, byte: u8) -> Result<(), AllocError> {
        match byte {
            b'"' => self.in_text = true,
            b'{' | b'[' => self.open.push(byte)?,
            b'}' => self.is_crossed = self.open.pop() != Some(b'{'),
            b']' => self.is_crossed = self.open.pop() != Some(b'['),
            _ => {}
        }
        Ok(())
    }

    /// That of these bytes, each of which could be read.
    fn of(alloc: Global, bytes: &[u8]) -> Result<Front, AllocError> {
        let mut front = Front::new(alloc);
        let mut escaped = false;
        for byte in bytes {
            match *byte {
                _ if escaped => escaped = false,
                b'\\' if front.in_text => escaped = true,
                b'"' if front.in_text => front.in_text = false,
                _ if front.in_text => {}
                other => front.pass(other)?,
            }
            if !byte.is_ascii_whitespace() {
                front.before = front.last;
                front.last = *byte;
            }
        }
        Ok(front)
    }

    /// What is wrong with the last byte, which the reader passes before it finds that it can't stand there; empty where
    /// nothing is.
    fn last_slip(&self) -> &'static str {
        match (self.before, self.last) {
            _ if self.in_text => "",
            _ if self.is_crossed => {
                "the bracket before this closes another than the one opened last: [ is closed by ], and { by }"
            }
            (b':', b'}' | b']' | b',') => "a value is missing before this, behind the colon",
            (_, b'}' | b']') if self.open.is_empty() => {
                "the document has ended before this; a command reads one document"
            }
            _ => "",
        }
    }

    /// What is wrong with the byte that doesn't go on here, where it and the one before it tell; else empty.
    fn slip(&self, here: u8) -> &'static str {
        match (self.last, here) {
            (b',', b']' | b'}') => "JSON has no comma before ] or }: take out the one before this",
            (_, b'/' | b'#') => "JSON has no comments: take it out, or write it as a `note`",
            (_, b'\'') => "JSON has no single quotes: names and texts stand in double quotes",
            (last, b'"') if !ends_value(last) => {
                "this text isn't closed by \", or has what can't stand in one: a line break is \\n there, a tab \\t, and \\ itself \\\\"
            }
            (last, byte) if ends_value(last) && begins_value(byte) => {
                "a comma or a colon is missing before this"
            }
            (_, b',' | b':') => "a value is missing before this",
            (_, byte) if byte.is_ascii_alphabetic() => {
                "names and texts stand in double quotes; the only words without are true, false and null"
            }
            _ => "this is not valid JSON",
        }
    }

    /// What is missing where the text ends here.
    fn missing(&self, alloc: Global) -> Result<String, AllocError> {
        match (self.in_text, self.open.len()) {
            (true, _) => String::from_str(
                alloc,
                "the text ends too early: a name or a text isn't closed by \"",
            ),
            (false, 0) => String::from_str(alloc, "the text ends too early"),
            (false, 1) => String::from_str(
                alloc,
                "the text ends too early: a bracket isn't closed, [ by ] or { by }",
            ),
            (false, open) => format!(in alloc;
                "the text ends too early: {open} brackets aren't closed, [ by ] or {{ by }}"
            ),
        }
    }
}

/// What is wrong where the reading of a text stopped, at this byte.
fn says_why(alloc: Global, bytes: &[u8], at: usize) -> Result<String, AllocError> {
    let front = Front::of(alloc, bytes.get(..at).unwrap_or(bytes))?;
    if front.open.len() >= MOST_NESTED {
        return format!(in alloc; "lists and objects nest {MOST_NESTED} levels deep at most");
    }
    match (front.last_slip(), bytes.get(at)) {
        ("", None) => front.missing(alloc),
        ("", Some(here)) => String::from_str(alloc, front.slip(*here)),
        (slip, _) => String::from_str(alloc, slip),
    }
}

/// What is said of a text whose reading stopped at this byte.
fn says_stop(alloc: Global, bytes: &[u8], at: usize) -> Result<String, AllocError> {
    let why = says_why(alloc, bytes, at)?;
    let (line, column) = line_and_column(bytes, at);
    format!(in alloc; "line {line}, column {column}: {why}\n")
}

/// What is to be changed in bytes that are no JSON text: one line, ended by a line break. Out of memory is the only error.
pub fn no_json_text(alloc: Global, bytes: &[u8], why: NotRead) -> Result<String, AllocError> {
    let said = says_mark(bytes);
    if !said.is_empty() {
        return String::from_str(alloc, said);
    }
    match why {
        NotRead::NotUtf8 => String::from_str(
            alloc,
            "the text isn't UTF-8 throughout: save it as UTF-8 without BOM\n",
        ),
        NotRead::NotJson(at) => says_stop(alloc, bytes, at),
        NotRead::TooLarge => String::from_str(
            alloc,
            "a number is too large to be read: none may be beyond 1.8e308\n",
        ),
        NotRead::Memory => Err(AllocError),
    }
}
