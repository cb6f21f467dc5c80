//! How leaves are tried.

use tpl_model::RuleSet;

/// How the leaves of a search are tried.
#[derive(Clone, Copy)]
pub(crate) enum Trial {
    /// By what becomes of tasks alone, which takes less time and finds fewer trees. What is found is checked by the
    /// rules that judge the claim.
    Quick,
    /// With all that their least rows say by the rules with tokens.
    Whole,
}

impl Trial {
    /// How leaves are tried that the rules judge, while there is time.
    pub(crate) fn by(rules: RuleSet) -> Trial {
        match rules {
            RuleSet::WithoutTokens => Trial::Quick,
            RuleSet::WithTokens => Trial::Whole,
        }
    }
}
