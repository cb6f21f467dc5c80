//! Facts that stay true once they are.

ghost use Rattle.std.specs.Prelude.{◌≡◌, ◌↔◌, ◌&&◌, ◌||◌, true, false, IsTrue};
ghost use Rattle.tpl_model.specs.Prelude.{Fact, as_facts};
ghost use Rattle.tpl_paths.specs.Prelude.{has_fact, has_token};

use crate::token_set::TokenSet;
use tpl_model::TaskSet;

/// Facts that stay true once they are: tasks that are settled, and tokens that are requested.
#[derive(Drop)]
pub struct Facts {
    pub tasks: TaskSet,
    pub tokens: TokenSet,
}

impl Facts {
    /// No fact.
    pub fn none() -> Facts
        ensures { (f : Fact) → has_fact result f ≡ false }
    {
        Facts {
            tasks: TaskSet::empty(),
            tokens: TokenSet::empty(),
        }
    }

    /// Each of these tokens is requested.
    pub(crate) fn of(tokens: TokenSet) -> Facts
        ensures { (f : Fact) → has_fact result f ≡ as_facts (has_token tokens) f }
    {
        Facts {
            tasks: TaskSet::empty(),
            tokens,
        }
    }

    /// A copy.
    pub fn copy(&self) -> Facts
        ensures { result ≡ self.now }
    {
        Facts {
            tasks: self.tasks.copy(),
            tokens: self.tokens,
        }
    }

    /// A copy, with these tokens too.
    pub(crate) fn knowing(&self, tokens: TokenSet) -> Facts
        ensures { (f : Fact) → has_fact result f ≡ (as_facts (has_token tokens) f
            || has_fact self.now f) }
    {
        Facts {
            tasks: self.tasks.copy(),
            tokens: tokens.union(self.tokens),
        }
    }

    /// The facts of either.
    pub fn union(&self, other: &Facts) -> Facts
        ensures { (f : Fact) → has_fact result f ≡ (has_fact self.now f || has_fact other.now f) }
    {
        Facts {
            tasks: self.tasks.union(&other.tasks),
            tokens: self.tokens.union(other.tokens),
        }
    }

    /// The facts of both.
    pub fn intersection(&self, other: &Facts) -> Facts
        ensures { (f : Fact) → has_fact result f ≡ (has_fact self.now f && has_fact other.now f) }
    {
        Facts {
            tasks: self.tasks.intersection(&other.tasks),
            tokens: self.tokens.intersection(other.tokens),
        }
    }
    /// Each fact is one of the others.
    pub fn is_subset(&self, other: &Facts) -> bool
        ensures { IsTrue result ↔ ((f : Fact) → has_fact self.now f ≡ true
            → has_fact other.now f ≡ true) }
    {
        self.tasks.is_subset(&other.tasks) && self.tokens.is_subset(other.tokens)
    }
}
