//! How much is tried for a claim at most.

ghost use Rattle.std.specs.Prelude.{◌≡◌, ◌≤◌};

use tpl_analyser::{Depth, Leaves};
use tpl_model::MOST_SPLITS;
use tpl_refute::Effort;

/// How much is tried for a claim at most.
#[derive(Clone, Copy, PartialEq, Eq, Debug)]
pub struct Limits {
    /// The most splits on each path of a certificate.
    pub depth: Depth,
    /// The most leaves that are tried in the search for a certificate.
    pub leaves: Leaves,
    /// The most random runs.
    pub runs: u32,
    /// The most events that are played in random runs, until one is found in which the claim fails.
    pub events: u64,
    /// The seed of the random numbers. The same runs are made for the same seed.
    pub seed: u64,
}

/// How many leaves are tried in a quick search, and for each claim that makes another one empty (this program's own limit).
pub(crate) const FEW_LEAVES: Leaves = Leaves {
    near: 0,
    in_order: 2_000,
    directed: 500,
};

/// No leaf is tried.
const NO_LEAVES: Leaves = Leaves {
    near: 0,
    in_order: 0,
    directed: 0,
};

/// How many events are played for a claim at most (this program's own limit).
const PLAYED: u64 = 40_000_000;

/// How many events are played at most for each run that is asked for, where that is more (this program's own limit).
const PLAYED_A_RUN: u64 = 400;

/// How many random runs are made before a certificate is searched: they refute most false claims.
const FIRST_RUNS: u32 = 1_000;

/// These runs may play this part of the events that all may, half a second's worth: in a graph of a thousand tasks the search
/// takes several seconds.
const FIRST_PART: u64 = 20;

/// No split.
pub(crate) fn unsplit() -> Depth
    ensures { result ≡ 0 }
{
    match Depth::new(0) {
        Some(depth) => depth,
        None => unreachable!(),
    }
}

/// The most splits that a certificate may have.
fn deepest() -> Depth
    ensures { result ≡ MOST_SPLITS }
{
    match Depth::new(MOST_SPLITS) {
        Some(depth) => depth,
        None => unreachable!(),
    }
}

impl Limits {
    /// Certificates with at most so many splits, for which so many leaves are tried, and at most so many random runs by the
    /// numbers of this seed. The events are those that this program allows for a claim.
    fn new(depth: Depth, leaves: Leaves, runs: u32, seed: u64) -> Limits
        ensures { (result.depth ≡ depth) × (result.leaves ≡ leaves)
            × (result.runs ≡ runs) × (result.seed ≡ seed) }
    {
        Limits {
            depth,
            leaves,
            runs,
            events: PLAYED.max(u64::from(runs) * PLAYED_A_RUN),
            seed,
        }
    }

    /// Certificates with at most so many splits, and at most so many random runs by the numbers of this seed. The leaves
    /// and the events are those that this program allows for a claim.
    pub fn usual(depth: Depth, runs: u32, seed: u64) -> Limits
        ensures { (result.depth ≡ depth) × (result.runs ≡ runs) × (result.seed ≡ seed) }
    {
        Limits::new(depth, Leaves::USUAL, runs, seed)
    }

    /// A quick search for a certificate, and at most so many random runs by the numbers of this seed.
    pub fn quick(runs: u32, seed: u64) -> Limits
        ensures { (result.runs ≡ runs) × (result.seed ≡ seed) }
    {
        Limits::new(deepest(), FEW_LEAVES, runs, seed)
    }

    /// No search for a certificate, and at most so many random runs by the numbers of this seed.
    pub fn of_runs(runs: u32, seed: u64) -> Limits
        ensures { (result.runs ≡ runs) × (result.seed ≡ seed) }
    {
        Limits::new(deepest(), NO_LEAVES, runs, seed)
    }

    /// The leaves that are tried at a glance, before the first random runs: none where no certificate is searched.
    pub(crate) fn glance(&self) -> Leaves {
        if self.leaves.in_order == 0 {
            NO_LEAVES
        } else {
            Leaves::GLANCE
        }
    }

    /// The first random runs for the claim of this number. All runs begin with the same ones.
    pub(crate) fn first_runs(&self, number: u64) -> Effort
        ensures { (result.runs ≤ self.now.runs)
            × (result.seed ≡ self.now.seed) × (result.stream ≡ number) }
    {
        Effort {
            runs: self.runs.min(FIRST_RUNS),
            events: self.events / FIRST_PART,
            ..self.all_runs(number)
        }
    }

    /// All random runs for the claim of this number.
    pub(crate) fn all_runs(&self, number: u64) -> Effort
        ensures { (result.runs ≡ self.now.runs) × (result.events ≡ self.now.events)
            × (result.seed ≡ self.now.seed) × (result.stream ≡ number) }
    {
        Effort {
            runs: self.runs,
            events: self.events,
            seed: self.seed,
            stream: number,
        }
    }
}
