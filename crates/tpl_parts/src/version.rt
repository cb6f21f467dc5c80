//! The versions of documents.

ghost use Rattle.std.specs.Prelude.{◌≡◌, map};
ghost use Rattle.tpl_parts.specs.Prelude.{claim_remarks, has_links, is_third, rules_since, task_remarks};

use tpl_model::RuleSet;

/// The version of a document.
#[derive(Clone, Copy, PartialEq, Eq, Debug)]
pub enum Version {
    /// The first.
    One,
    /// The second, in which a token may be linked to others.
    Two,
    /// The third, in which claims say more and take more as given, and have names and notes.
    Three,
}

impl Version {
    /// Whether tokens may be linked: since version 2.
    pub fn has_links(self) -> bool
        ensures { result ≡ has_links self }
    {
        match self {
            Version::One => false,
            Version::Two | Version::Three => true,
        }
    }

    /// Whether it is version 3.
    pub fn is_third(self) -> bool
        ensures { result ≡ is_third self }
    {
        match self {
            Version::One | Version::Two => false,
            Version::Three => true,
        }
    }

    /// The rules by which a certificate is judged: those with tokens since version 3.
    pub fn rules(self) -> RuleSet
        ensures { result ≡ rules_since self }
    {
        match self {
            Version::One | Version::Two => RuleSet::WithoutTokens,
            Version::Three => RuleSet::WithTokens,
        }
    }

    /// The members that version 3 adds to a task.
    pub(crate) fn task_remarks(self) -> &'static [&'static str]
        ensures { map (λ s. s.now) result.now ≡ task_remarks self }
    {
        match self {
            Version::One | Version::Two => &[],
            Version::Three => &["note"],
        }
    }

    /// The members that version 3 adds to each claim.
    pub(crate) fn claim_remarks(self) -> &'static [&'static str]
        ensures { map (λ s. s.now) result.now ≡ claim_remarks self }
    {
        match self {
            Version::One | Version::Two => &[],
            Version::Three => &["name", "note"],
        }
    }
}
