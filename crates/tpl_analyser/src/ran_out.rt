//! What ran out before a tree was found.

/// What ran out before a tree was found for a claim. It tells of the search; no clause speaks of it.
#[derive(Clone, Copy, Debug, PartialEq, Eq)]
pub enum RanOut {
    /// The splits: there is no tree with so few on each path, and there may be one with more.
    Depth,
    /// The leaves that are tried for a claim: there may be a tree that the search didn't come to.
    Leaves,
    /// The trees: none proves the claim, however many splits it has.
    Trees,
}
