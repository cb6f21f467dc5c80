//! The ways to end of a task with a body.

ghost use Rattle.std.specs.Prelude.{◌≡◌, ◌&&◌, Bool, true};
ghost use Rattle.tpl_laws.specs.Prelude.{implies};
ghost use Rattle.tpl_token_leaf.specs.Prelude.{AreWays, holds_in_all};
ghost use Rattle.tpl_model.specs.Prelude.{Fact, Way, way_final};
ghost use Rattle.tpl_paths.specs.Prelude.{has_fact};

use crate::view::NO_END;
use tpl_model::{Final, Finals};
use tpl_paths::Facts;

/// How some ways to end a task end it, and the facts that hold in all of them: none are listed where there is no way.
#[derive(Drop)]
pub struct Ways {
    pub(crate) ends: Finals,
    pub(crate) common: Option<Facts>,
}

impl Ways {
    /// No way.
    pub(crate) fn none() -> Ways
        ensures { (holds : Fact → Way → Bool) → AreWays (λ (test : Way → Bool). true) holds result }
    {
        Ways {
            ends: NO_END,
            common: None,
        }
    }

    /// One way, which ends so, and in which these facts hold.
    pub(crate) fn one(status: Final, facts: Facts) -> Ways
        ensures { (holds : Fact → Way → Bool) (way : Way) → way_final way ≡ status
            → ((f : Fact) → holds f way ≡ has_fact facts f)
            → AreWays (λ (test : Way → Bool). test way) holds result }
    {
        let mut ends = NO_END;
        ends.insert(status);
        Ways {
            ends,
            common: Some(facts),
        }
    }

    /// The ways of both.
    pub(crate) fn join(self, other: Ways) -> Ways
        ensures { (holds : Fact → Way → Bool) (e d : (Way → Bool) → Bool)
            → AreWays e holds self → AreWays d holds other
            → AreWays (λ (test : Way → Bool). e test && d test) holds result }
    {
        Ways {
            ends: self.ends.union(other.ends),
            common: common(self.common, other.common),
        }
    }

    /// The ways, if the test holds.
    pub(crate) fn only_if(self, test: bool) -> Ways
        ensures { (holds : Fact → Way → Bool) (e : (Way → Bool) → Bool) → AreWays e holds self
            → AreWays (λ (passes : Way → Bool). implies test (e passes)) holds result }
    {
        if test { self } else { Ways::none() }
    }
}

/// The facts that hold in all ways of both.
pub(crate) fn common(one: Option<Facts>, other: Option<Facts>) -> Option<Facts>
    ensures { (f : Fact) → holds_in_all result f ≡ (holds_in_all one f && holds_in_all other f) }
{
    match (one, other) {
        (Some(one), Some(other)) => Some(one.intersection(&other)),
        (Some(facts), None) | (None, Some(facts)) => Some(facts),
        (None, None) => None,
    }
}
