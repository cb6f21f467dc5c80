//! The check of a certificate against the rules for its leaves.
//!
//! ## Choices
//!
//! - **`check` names Shape for the least claim over its three causes**; surplus trees make it the number of claims
//!   plus one.
//! - **How tasks end by the splits and by what is given are kept apart in what a leaf assumes**, though the rules ask
//!   for both: of an end that is given a run may still be bound for another.
//! - **The check keeps how the bodies of the last leaf that it read may end**, and reads bodies again only where one
//!   of them sees something else: another value of an input, another quiet token, or a subject that may end
//!   otherwise. So many claims over the same bodies walk them once. One leaf is kept, in sets of fixed size, so that
//!   the check still takes no memory; that the same views give the same sets is a lemma, and no clause changed for
//!   it.
#![tactic(auto)]

mod all_ends;
mod assumptions;
mod before;
mod begins;
mod below;
mod bodies;
mod chain;
mod ends;
mod given;
mod last;
mod leaf;
mod left;
mod parents;
mod past;
mod property;
mod rows;
mod shape;
mod tree;
mod verdict;
mod view;

pub use all_ends::AllEnds;
pub use assumptions::Assumptions;
pub use below::{Below, has_attached};
pub use chain::{observes, reads, takes_over};
pub use given::{assumed, assumed_for};
pub use leaf::{LeafFault, accepts_leaf, past_rule};
pub use parents::parent;
pub use property::{begins_itself, ends_only_in, has_to_end};
pub use rows::{allowed, excluded, implies, is_member, some_end};
pub use shape::{all_tasks, row_fits};
pub use tree::placed;
pub use verdict::check;
