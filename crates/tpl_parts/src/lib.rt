//! The parts of a document, each read from its JSON value, with names as texts of the value.
//!
//! ## Choices
//!
//! - **`null` is no value of an optional member**, and of two members of one name the last one counts, as
//!   `serde_json` reads it. Versions are read by `as_u64`.
#![tactic(auto)]

mod claims;
mod named;
mod pieces;
mod remarks;
mod start;
mod statements;
mod tasks;
mod version;

pub use claims::claim_of;
pub use named::{NamedClaim, NamedGiven, NamedProperty, NamedStart};
pub use remarks::{has_only_beside, note_of};
pub use start::{has_ends, start_or_none};
pub use tasks::{task_of, token_of};
pub use version::Version;
