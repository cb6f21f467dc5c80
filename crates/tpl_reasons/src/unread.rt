//! What is said of bytes that spell no document.

use crate::checking::STALE;
use crate::words::Said;
use std::alloc::Global;
use tpl_cert::TreeFault;
use tpl_reader::{Misread, Part, ReadFault};

/// What is said where there is nothing else to say.
const UNREAD: &str = "the document can't be read\n";

/// What is added where the document is a list, as a certificate is.
const IS_LIST: &str =
    "if `analyse` wrote this, it is the certificate without its document: `taskgraph analyse --whole < document.json` writes both\n";

/// What is added where the document is a line in place of one.
const IS_ANSWER: &str =
    "this is an answer of taskgraph and no document: the command that wrote it found none\n";

/// How the answers of the commands begin that else write a document.
const ANSWERS: [&[u8]; 4] = [
    b"not found: ",
    b"not refuted\n",
    b"unreadable: ",
    b"out of memory\n",
];

/// Whether the bytes begin as a list of JSON does.
fn is_list(bytes: &[u8]) -> bool {
    bytes.iter().find(|byte| !byte.is_ascii_whitespace()) == Some(&b'[')
}

/// Whether the bytes begin as an answer does that is no document.
fn is_answer(bytes: &[u8]) -> bool {
    ANSWERS.iter().any(|answer| bytes.starts_with(answer))
}

/// What helps beside the words about the fault; empty where nothing does.
fn advice(bytes: &[u8], fault: ReadFault) -> &'static str {
    match fault {
        ReadFault::Shape(Part::Top) if is_list(bytes) => IS_LIST,
        ReadFault::NotJson if is_answer(bytes) => IS_ANSWER,
        ReadFault::Certificate(_, TreeFault::Unknown) => STALE,
        _ => "",
    }
}

/// Why the bytes spell no document, and what helps.
pub(crate) fn unread_text(alloc: Global, bytes: &[u8], misread: &Misread) -> Said {
    let advice = advice(bytes, misread.fault);
    match &misread.words {
        Some(words) => format!(in alloc; "{words}{advice}"),
        None => String::from_str(alloc, UNREAD),
    }
}
