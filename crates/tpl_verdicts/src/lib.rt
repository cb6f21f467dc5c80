//! The verdicts on the claims of a document, from a reader to a writer.
//!
//! ## Choices
//!
//! - **What can't be read has one answer in every style**: the plain line, and exit 3. There is no claim then of
//!   which a report could say something.
//! - **The lines for a claim are written as soon as those for the claims before it are**, so that who reads them needn't wait
//!   for the last claim. The price is that `out of memory` may stand behind lines for the first claims. The other styles say
//!   at their head, or only as a whole, what they have: they are made whole before their first byte is written, and so is
//!   each answer of `--each`, whose lines are told apart by their heads.
//! - **The page has the document's own text**, and not one that is written anew: what a reader finds there is what was
//!   asked.
//! - **Of characters that XML gives a meaning no clause speaks.** Names have none, nor have the words of claims; they
//!   are written as entities all the same.
//! - **Names of claims stand in verdicts and reasons, and nowhere else.** The lines of the other commands have the
//!   number, so that a document can give its claims names without changing an answer that a script reads.
#![tactic(auto)]

mod asked;
mod causes;
mod entries;
mod entry;
mod html;
mod json;
mod judgement;
mod junit;
mod lines;
mod reason;
mod searched;
mod streaming;
mod style;
mod sums;
mod text;
mod tree;
mod verification;
mod verifying;
mod word;

pub use entry::Entry;
pub use streaming::verify_document;
pub use style::Style;
pub use verification::Verification;
pub use verifying::OneByOne;
pub use word::Word;
