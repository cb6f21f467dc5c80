//! What is asked of a claim.

use std::alloc::Global;
use tpl_analyser::Depth;
use tpl_graph::{Claim, Graph};
use tpl_model::RuleSet;
use tpl_refute::Seen;

/// Whether a claim of a graph holds by the rules, or why it says nothing: sought by certificates with at most this many
/// splits on each path.
#[derive(Drop)]
pub(crate) struct Question<'g, 'c> {
    pub(crate) alloc: Global,
    pub(crate) graph: &'g Graph,
    pub(crate) claim: &'c Claim,
    pub(crate) rules: RuleSet,
    pub(crate) depth: Depth,
    /// What was seen in some runs of the graph, if something was.
    pub(crate) seen: Option<&'g Seen>,
}
