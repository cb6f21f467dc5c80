//! The page that shows a document and the verdicts on its claims in a browser: its text, whatever is put into it.
#![tactic(auto)]

mod escaping;
mod page;
mod template;

pub use page::page_of;
