//! A claim, with what it takes as given.

ghost use Rattle.std.specs.Prelude.{◌≡◌};

use std::marker::Model;
use tpl_model::{Given, Property};

/// A claim: what is given, and what then holds in each run that agrees with it. Contracts see both.
#[derive(Drop)]
pub struct Claim {
    given: Vec<Given>,
    body: Property,
}

impl Model for Claim {
    ghost use Rattle.tpl_model.specs.Claims as claims;

    ghost Value = { claims.Claim };

    ghost view = { λ c. record { given = c.given.items; body = c.body } };
}

impl Claim {
    /// A claim of the property under what is given.
    pub fn new(given: Vec<Given>, body: Property) -> Claim
        ensures given { result.given ≡ given.items }
        ensures body { result.body ≡ body }
    {
        Claim { given, body }
    }

    /// The givens: values of inputs, tokens that are never requested, ends of tasks, and jobs that don't
    /// fail.
    pub fn given(&self) -> &[Given]
        ensures { result.now ≡ self.now.given }
    {
        self.given.as_slice()
    }

    /// What is claimed.
    pub fn body(&self) -> Property
        ensures { result ≡ self.now.body }
    {
        self.body
    }
}
