//! Values of JSON, read part by part: members by their names, elements of arrays, texts, truths, and sets of final statuses.
//!
//! ## Choices
//!
//! - **What reads one JSON value is a crate of its own**, below certificates and documents. Its lemmas are over
//!   types, so none can be a clause: `tpl_cert`, `tpl_parts`, `tpl_reader`, `tpl_commands` and `tpl_verify` cite them
//!   by name.
#![tactic(auto)]

mod finals;
mod list;
mod members;
mod miss;
mod number;
mod read;

pub use finals::{final_of, finals_of};
pub use list::read_each;
pub use members::{
    bool_in, bool_of, find, has_only, list_of, list_or_none, member_in, number_of, owned_texts,
    text_in, text_of, texts_in, texts_of,
};
pub use miss::{Miss, Shape, at_number, or_fault};
pub use read::{MOST_NESTED, NotRead, value_from};
