//! By which rules a certificate is judged.

/// By which rules a certificate is judged. What the rules without tokens accept, those with tokens
/// accept too.
#[derive(Clone, Copy, PartialEq, Eq, Debug)]
pub enum RuleSet {
    /// The rules of versions 1 and 2 of documents.
    WithoutTokens,
    /// The rules of version 3 of documents.
    WithTokens,
}
