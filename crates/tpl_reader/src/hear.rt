//! Who hears what the bytes of a document read as.

use crate::document::Document;
use crate::fault::ReadFault;
use json::Value;
use std::alloc::Global;
use tpl_json::NotRead;

/// Who hears what the bytes of a document read as, and may say in words why they spell none. It is told while the value is at
/// hand, so that no text is read a second time for the words. No document and no fault depends on it.
pub trait Hear: Copy {
    /// The bytes read as this value, which spells this document.
    fn document(self, _alloc: Global, _value: &Value<'_>, _document: &Document) {}

    /// What is said of bytes that are no JSON text, if anything: of those behind a byte order mark.
    fn no_json(self, _alloc: Global, _bytes: &[u8], _why: NotRead) -> Option<String> {
        None
    }

    /// What is said of bytes that read as this value, which spells no document, if anything.
    fn no_document(self, _alloc: Global, _value: &Value<'_>, _fault: ReadFault) -> Option<String> {
        None
    }
}

/// Who hears nothing, and says nothing.
#[derive(Clone, Copy, Drop)]
pub struct Unheard;

impl Hear for Unheard {}

/// Why bytes spell no document.
#[derive(Drop)]
pub struct Misread {
    /// What is wrong.
    pub fault: ReadFault,
    /// What who heard it says of it, if anything.
    pub words: Option<String>,
}
