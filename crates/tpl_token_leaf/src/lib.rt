//! What judges the rows of one leaf that speak of tokens too: what the leaf assumes, the rules for its rows, and what they
//! prove.
#![tactic(auto)]

mod before;
mod begins;
mod chain;
mod ends;
mod facts;
mod fault;
mod leaf;
mod linking;
mod narrowing;
mod past;
mod paths;
mod property;
mod truths;
mod view;
mod ways;
mod ways_of;
mod winners;

pub use before::begin_facts;
pub use begins::runs;
pub use chain::{is_won_by, reads_from};
pub use ends::demanded;
pub use fault::{first_broken, leaf_fault};
pub use leaf::Leaf;
pub use linking::links;
pub use narrowing::narrowed;
pub use past::end_facts;
pub use paths::task_set;
pub use property::proves;
pub use truths::both;
pub use view::NO_END;
pub use ways::Ways;
pub use ways_of::ways_to_end;
pub use winners::WinnerSplit;
