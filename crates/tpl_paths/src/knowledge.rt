//! What all paths to a place have.

ghost use Rattle.std.specs.Prelude.{◌≡◌, ◌&&◌, ◌||◌};
ghost use Rattle.tpl_model.specs.Prelude.{as_facts};
ghost use Rattle.tpl_paths.specs.Prelude.{has_fact, has_token, knowledge_of};

use crate::facts::Facts;
use crate::token_set::TokenSet;

/// What all paths to a place have: tokens that are requested there, and facts that hold once the
/// children have ended that the paths started, these tokens among them.
#[derive(Drop)]
pub struct Knowledge {
    pub requested: TokenSet,
    pub later: Facts,
}

impl Knowledge {
    /// These tokens are known, and no child is started.
    pub(crate) fn of(tokens: TokenSet) -> Knowledge
        ensures { knowledge_of result ≡ record {
          requested = has_token tokens;
          later = as_facts (has_token tokens);
        } }
    {
        Knowledge {
            requested: tokens,
            later: Facts::of(tokens),
        }
    }

    /// A copy.
    pub fn copy(&self) -> Knowledge
        ensures { result ≡ self.now }
    {
        Knowledge {
            requested: self.requested,
            later: self.later.copy(),
        }
    }

    /// A copy, which knows these tokens too.
    pub(crate) fn knowing(&self, tokens: TokenSet) -> Knowledge
        ensures { knowledge_of result ≡ record {
          requested = λ k. has_token tokens k || (knowledge_of self.now).requested k;
          later = λ f. as_facts (has_token tokens) f || (knowledge_of self.now).later f;
        } }
    {
        let later = self.later.knowing(tokens);
        Knowledge {
            requested: tokens.union(self.requested),
            later,
        }
    }

    /// Leaves what these have too.
    pub(crate) fn narrow(&mut self, requested: TokenSet, later: &Facts)
        ensures { knowledge_of self.new ≡ record {
          requested = λ k. (knowledge_of self.old).requested k && has_token requested k;
          later = λ f. (knowledge_of self.old).later f && has_fact later.now f;
        } }
    {
        self.requested = self.requested.intersection(requested);
        self.later = self.later.intersection(later);
    }
}
