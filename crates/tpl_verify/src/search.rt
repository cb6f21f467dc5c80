//! What is searched.

ghost use Rattle.std.specs.Prelude.{◌≡◌, ◌↔◌, IsTrue, length};
ghost use Rattle.tpl_verify.specs.Prelude.{IsAsked, IsThere};

use crate::Limits;
use tpl_reader::Document;

/// Which claims are searched for runs in which they fail, and how long.
#[derive(Clone, Copy, Debug, Drop)]
pub struct Search {
    /// The number of the only claim that is searched, where the first claim has number 1; none, where each is.
    pub claim: Option<usize>,
    /// How much is tried for each claim at most.
    pub limits: Limits,
    /// The listener is told when the search for a claim has ended.
    pub explain: bool,
}

impl Search {
    /// Tries at most so many random runs by the numbers of this seed: for one claim these alone; where each claim is
    /// searched, a certificate is searched quickly too, and no more runs are tried for a claim that has one.
    pub fn new(claim: Option<usize>, runs: u32, seed: u64, explain: bool) -> Search
        ensures claim { result.claim ≡ claim }
        ensures limits { (result.limits.runs ≡ runs) × (result.limits.seed ≡ seed) }
        ensures explain { result.explain ≡ explain }
    {
        let limits = match claim {
            Some(_) => Limits::of_runs(runs, seed),
            None => Limits::quick(runs, seed),
        };
        Search {
            claim,
            limits,
            explain,
        }
    }

    /// The claim of this number is searched.
    pub(crate) fn asks(&self, number: usize) -> bool
        ensures { IsTrue result ↔ IsAsked self.now.claim number }
    {
        match self.claim {
            Some(asked) => asked == number,
            None => true,
        }
    }
}

/// The document has a claim of this number.
pub(crate) fn has_claim(document: &Document, number: usize) -> bool
    ensures { IsTrue result ↔ IsThere (length document.now.claims.items) number }
{
    0 < number && number <= document.claims.len()
}
