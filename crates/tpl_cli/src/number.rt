//! The options for numbers.

ghost use Rattle.std.specs.Prelude.{◌≡◌, [], ◌∷◌, MatchOption};
ghost use Rattle.tpl_cli.specs.Prelude.{deepest, number_name, number_range, usual};

use tpl_each::MOST_JOBS;
use tpl_model::{MOST_SPLITS, MOST_WORKERS};
use tpl_reader::{Version, most_claims};

/// The most random runs that are tried for a claim.
const MOST_RUNS: u32 = 1_000_000;

/// The greatest depth, which stands for one that is left out in a search for verdicts.
pub(crate) fn deepest<'a>() -> &'a str
    ensures { result.now ≡ deepest }
{
    "6"
}

/// An option for a number.
#[derive(Clone, Copy, Debug, Drop, PartialEq, Eq)]
pub(crate) enum Number {
    /// The most splits on each path of a tree.
    Depth,
    /// How many workers make a run.
    Workers,
    /// A claim, the first of which has number 1.
    Claim,
    /// How many random runs are tried for a claim.
    Runs,
    /// Where the random numbers begin.
    Seed,
    /// How many threads work beside each other.
    Jobs,
}

impl Number {
    /// The name of the option.
    pub(crate) fn name<'a>(self) -> &'a str
        ensures { result.now ≡ number_name self }
    {
        match self {
            Number::Depth => "depth",
            Number::Workers => "workers",
            Number::Claim => "claim",
            Number::Runs => "runs",
            Number::Seed => "seed",
            Number::Jobs => "jobs",
        }
    }

    /// What help says of it.
    pub(crate) fn help<'a>(self) -> &'a str {
        match self {
            Number::Depth => "The most splits on each path of a tree, 0 to 6",
            Number::Workers => "How many workers make the run, 1 to 64",
            Number::Claim => "The claim, 1 to 1024; every claim if it is left out",
            Number::Runs => "How many runs are tried for each claim, at most 1000000",
            Number::Seed => "The seed of the random numbers, 0 to 4294967295",
            Number::Jobs => {
                "How many threads work beside each other, 1 to 64; as many as there are processors where it is left out"
            }
        }
    }

    /// What stands for the number where it is left out, if anything does.
    pub(crate) fn usual<'a>(self) -> Option<&'a str>
        ensures { MatchOption result (usual self ≡ []) (λ text. usual self ≡ text.now ∷ []) }
    {
        match self {
            Number::Depth => Some("2"),
            Number::Workers => Some("4"),
            Number::Runs => Some("100000"),
            Number::Seed => Some("0"),
            Number::Claim | Number::Jobs => None,
        }
    }

    /// The least number that it may be, and the most.
    pub(crate) fn range(self) -> (u32, u32)
        ensures least { result.0 ≡ (number_range self).0 }
        ensures most { result.1 ≡ (number_range self).1 }
    {
        match self {
            Number::Depth => (0, u32::from(MOST_SPLITS)),
            Number::Workers => (1, u32::from(MOST_WORKERS)),
            Number::Claim => (1, most_claims(Version::Three) as u32),
            Number::Runs => (0, MOST_RUNS),
            Number::Seed => (0, u32::MAX),
            Number::Jobs => (1, MOST_JOBS as u32),
        }
    }
}
