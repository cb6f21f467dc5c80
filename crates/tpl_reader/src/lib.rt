//! Documents of task graphs, claims and certificates, read from JSON.
//!
//! ## Choices
//!
//! - **The first wrong part is named**: the shape of the whole document before its graph, then claims, then trees,
//!   then the start.
#![tactic(auto)]

mod asked;
mod begin;
mod bytes;
mod document;
mod ends;
mod fault;
mod hear;
mod laws;
mod read;
mod shape;
mod top;
mod trees;

pub use bytes::behind_mark;
pub use document::{Document, Start};
pub use fault::{ClaimFault, Part, ReadFault, StartFault};
pub use hear::{Hear, Misread, Unheard};
pub use laws::{certificate_is_read_back, one_document};
pub use read::{LONGEST, most_claims, read_document, read_document_heard};
pub use top::{top_shape, version_of};
pub use tpl_json::NotRead;
pub use tpl_parts::Version;
