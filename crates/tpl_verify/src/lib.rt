//! What is answered of each claim of a graph: it holds, it fails, or neither is known; and the document with a run in which a
//! claim fails, from a reader to a writer.
//!
//! ## Choices
//!
//! - **A claim that isn't there can't be read**: `unreadable: claim N Missing`, as a missing input is `unreadable:
//!   start Missing`. A document that gets too long by its journal is unreadable too: nothing could read it as it
//!   stands.
//! - **What the audit names may be another claim.** The run that is written is one in which one claim fails. If
//!   another fails in it earlier, or at the same place with a smaller number, the audit names that one. If the
//!   document has one claim, the audit names it at the last event.
//! - **What is written aside has no contract.** It is for people: the run as text, the place, and how each search
//!   ended. A failed write there changes no answer. If memory runs out there, the answer is `out of memory`.
//! - **Bytes that can't be read are handed to the check for its answer**, which reads them once more. So the lines
//!   are the same, and stand once in the code.
//! - **A thousand random runs come before the search for a certificate, and a glance comes before them.** The glance tries
//!   the tree without a split, and then one split on each of the tasks near to the claim's: what becomes of tasks alone says
//!   whether that is enough, and the rows are worked out once, for the tree that is found. Most true claims are certified so,
//!   in less time than a tenth of the runs. The runs refute most claims that are false, in
//!   a hundredth of a second for a graph of some twenty tasks; a search that finds nothing may take a hundred times
//!   as long. In a graph of hundreds of tasks they end by the number of events that are played, after half a second at most.
//!   `refute` does the same, where no claim is named, with a quick search: a hundred thousand runs of a
//!   claim that a certificate shows say nothing, and cost seconds. Who names a claim wants runs, and gets them.
//! - **The rows of the tree without a split are worked out once for all claims under which nothing is given.** What they say
//!   depends on what is assumed alone, but for the chain of an exception that is to be observed. So most claims of a large
//!   document cost a look at a row.
//! - **Where all verdicts are wanted at once, the claims go to the threads in shares of neighbours**, since that is how the
//!   toolchain's call for many threads has it, whose contract says what each call wrote. So a share with several dear claims
//!   may be waited for. Where they are told in order, each thread takes the next claim once it has a verdict.
#![tactic(auto)]

mod aside;
mod attend;
mod beside;
mod certifying;
mod empty;
mod finding;
mod in_order;
mod journal;
mod limits;
mod question;
mod refuting;
mod search;
mod start;
mod text;
mod verdict;
mod verifying;

pub use attend::{Attend, Unattended};
pub use beside::{answers, verify_beside};
pub use empty::{empty_claims_hold, why_empty};
pub use in_order::verify_in_order;
pub use journal::journal_text;
pub use limits::Limits;
pub use refuting::refute_document;
pub use search::Search;
pub use start::input_members;
pub use text::text_with;
pub use verdict::{Empty, Tried, Verdict};
pub use verifying::{judge_claim, verify, verify_claim};
