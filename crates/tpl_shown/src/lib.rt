//! A document on the page for a browser, with what was found of it; and the audit of its journal on such a page.
//!
//! ## Choices
//!
//! - **The page has the document's own text**, and not one that is written anew: what a reader finds there is what was
//!   asked.
//! - **A journal that can't be read has no page**, but the line of the audit, and its exit: there is nothing to show.
//! - **What the audit found is told as a JSON value beside its lines**: where a claim fails first, and how each task
//!   stands at the end. So the scripts of the page judge nothing.
#![tactic(auto)]

mod answering;
mod found;
mod naming;
mod paging;

pub use answering::{AuditPage, audit_page};
pub use naming::name_of;
pub use paging::document_page;
