//! Certificate trees in memory: their rows, their limits, and certificates of them.
//!
//! ## Choices
//!
//! - **`check` asks only that the claims fit.** That each tree is within the limits is part of a certificate's type:
//!   `Certificate::new` demands it, and `is_within_limits` tests it. So `serve_run` asks no more of a document than
//!   that its claims fit and that the tokens it requests first are the graph's, which `load` ensures. A leaf's number
//!   fits its type only so. Of inputs past the sixteenth both values are possible, and tokens past the thirty-second
//!   may be requested.
#![tactic(auto)]

mod certificate;
mod limits;
mod plain_row;
mod row;
mod tree;

pub use certificate::Certificate;
pub use limits::is_within_limits;
pub use plain_row::PlainRow;
pub use row::Row;
pub use tree::{Node, Tree};
