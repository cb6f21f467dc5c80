//! The check of certificates whose rows speak of tokens too, and of leaves that leave their rows out.
#![tactic(auto)]

mod accepted;
mod begun;
mod case;
mod check;
mod ended;
mod error;
mod least;
mod readers;
mod rows;
mod shape;
mod shortest;
mod tree;
mod unsplit;
mod verdict;
mod within;

pub use accepted::{accepts_tree, least_leaf_proves, rows_left_out};
pub use check::Check;
pub use error::TokenFault;
pub use tpl_token_leaf::{WinnerSplit, links};
pub use tree::with_split;
pub use unsplit::Unsplit;
pub use verdict::check_tokens;
