//! Sets of tokens, of one size.

ghost use Rattle.std.specs.Prelude.{◌≡◌, ◌↔◌, ℕ, ◌<◌, ◌≤◌, ◌&&◌, ◌||◌, true, false, nat_eq, IsTrue};
ghost use Rattle.tpl_paths.specs.Prelude.{has_token, no_tokens};

use tpl_model::{MOST_TOKENS, TokenId};

/// A set of tokens with ids below `MOST_TOKENS`.
#[derive(Clone, Copy, PartialEq, Eq, Debug)]
pub struct TokenSet {
    bits: u32,
}

impl TokenSet {
    /// The set without members.
    pub fn empty() -> TokenSet
        ensures { result ≡ no_tokens }
    {
        TokenSet { bits: 0 }
    }

    /// The token is a member. None from `MOST_TOKENS` on is.
    pub fn contains(self, token: TokenId) -> bool
        ensures { result ≡ has_token self token.0 }
    {
        let at = token.0 as usize;
        at < MOST_TOKENS && (self.bits >> at) & 1 == 1
    }

    /// No token from `MOST_TOKENS` on is a member: a caller that needs this calls it, which does nothing.
    pub fn limit_law(self)
        ensures { (k : ℕ) → MOST_TOKENS ≤ k → has_token self k ≡ false }
    {
        let _ = self.bits;
    }

    /// Makes the token a member, if it isn't one.
    pub fn insert(&mut self, token: TokenId)
        requires { token.0 < MOST_TOKENS }
        ensures { (k : ℕ) → has_token self.new k ≡ (nat_eq k token.0 || has_token self.old k) }
    {
        self.bits |= 1 << token.0;
    }

    /// The members of either.
    pub fn union(self, other: TokenSet) -> TokenSet
        ensures { (k : ℕ) → has_token result k ≡ (has_token self k || has_token other k) }
    {
        TokenSet {
            bits: self.bits | other.bits,
        }
    }

    /// The members of both.
    pub fn intersection(self, other: TokenSet) -> TokenSet
        ensures { (k : ℕ) → has_token result k ≡ (has_token self k && has_token other k) }
    {
        TokenSet {
            bits: self.bits & other.bits,
        }
    }
    /// Each member is one of the other set.
    pub fn is_subset(self, other: TokenSet) -> bool
        ensures { IsTrue result ↔ ((k : ℕ) → has_token self k ≡ true → has_token other k ≡ true) }
    {
        self.bits & other.bits == self.bits
    }
}
