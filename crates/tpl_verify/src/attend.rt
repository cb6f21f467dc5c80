//! Who is told of the verdicts.

use crate::verdict::Verdict;

/// Who is told of each verdict as soon as it is found. No verdict depends on it.
pub trait Attend {
    /// This is the verdict on the claim of this number; the first claim has 1. Several threads may call at the same time,
    /// in any order.
    fn judged(&self, number: usize, verdict: &Verdict);
}

/// Nobody is told.
#[derive(Drop)]
pub struct Unattended;

impl Attend for Unattended {
    fn judged(&self, _number: usize, _verdict: &Verdict) {}
}
