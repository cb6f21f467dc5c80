//! The search for certificates of claims.
//!
//! ## Choices
//!
//! - **A leaf counts as tried once it is worked out what its rows prove**, even if that is done to bound the splits.
//!   The search passes over a split that changes nothing the claim depends on once another split has failed at the
//!   same node, since with one split less there is no tree then either; so it finds the tree that comes first in its
//!   order. At most 100,000 leaves are tried for a claim in that order, and 20,000 in the directed search that
//!   follows where they are used up.
//! - **What a slim row keeps depends on the kind of the claim alone**: of `after` its first task, else nothing. The
//!   rules K3 to K5 ask of each task by itself where it is settled, so leaving others out breaks none of them, and no
//!   further search is needed.
//! - **A search finds the splits of a tree first, and makes rows once they stand.** The ends of the tasks alone show
//!   that a leaf is proved; its rows cost ten times as much, and most leaves of a search are given up. The checker
//!   accepts the tree that is made, or there is none.
//! - **The depth of a search has a type of its own**, `Depth`, 0 to 6. What is asked of a document, what a command
//!   line says and what a reason is given for carry it, so that none of these calls has the limit as a condition.
//!   `analyse` and `analyse_by` take a number, with the condition that it is at most 6.
//! - **A search by the rules with tokens tries splits on winners last.** Few claims need one, and a WhenAny task has as
//!   many as there are tasks in its list.
#![tactic(auto)]

mod asked;
mod branch;
mod budget;
mod certificate;
mod choice;
mod cone;
mod deepening;
mod depth;
mod form;
mod gap;
mod leaf;
mod near;
mod plan;
mod premises;
mod question;
mod ran_out;
mod search;
mod split;
mod splits;
mod trial;
mod watch;
mod way;
mod win;
mod with_tokens;
mod written;

pub use budget::{Budget, Leaves};
pub use certificate::{analyse, analyse_by};
pub use depth::Depth;
pub use form::Form;
pub use gap::Gap;
pub use ran_out::RanOut;
pub use watch::{Unwatched, Watch};
