//! What is asked of the claims of a document.

use crate::style::Style;
use tpl_verify::Limits;

/// What is asked of the claims of a document.
#[derive(Clone, Copy, Debug, Drop)]
pub struct Verification {
    /// How much is tried for each claim at most.
    pub limits: Limits,
    /// How many threads search at most.
    pub jobs: usize,
    /// How the verdicts are written.
    pub style: Style,
}
