//! How claims were tried.

use tpl_analyser::Depth;
use tpl_model::RuleSet;

/// How each claim was tried.
#[derive(Clone, Copy, Debug, Drop)]
pub(crate) struct Searched {
    /// By certificates with how many splits at most on each path.
    pub(crate) depth: Depth,
    /// By how many random runs at most.
    pub(crate) runs: u32,
    /// By which rules for certificates.
    pub(crate) rules: RuleSet,
}
