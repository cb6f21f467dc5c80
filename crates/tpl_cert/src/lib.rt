//! Certificate trees as documents have them: how they are read from JSON, and how they are written.
//!
//! ## Choices
//!
//! - **The text of a certificate is written from its trees**, token by token into one buffer, since a JSON value of
//!   it takes some ten times the memory of the text. What `--whole` puts into a document is a value that is read from
//!   that text: so the trees have one writer.
#![tactic(auto)]

mod fault;
mod from;
mod laws;
mod named;
mod naming;
mod read;
mod row_text;
mod text;

pub use fault::{TreeFault, TreeToFault};
pub use from::tree_from;
pub use laws::certificates_nest_little;
pub use read::tree_shape;
pub use text::trees_text;
