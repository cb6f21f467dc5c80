//! Who is told how far a search is.

/// Who is told how far a search is.
pub trait Watch: Drop {
    /// So many leaves have been tried for the claim of this number; claims count from 1. It is called
    /// when the search for a claim begins, and then after each 1,000 leaves.
    fn tries(&mut self, claim: usize, leaves: u32);
}

/// Who isn't told.
#[derive(Clone, Copy, Drop)]
pub struct Unwatched;

impl Watch for Unwatched {
    fn tries(&mut self, _claim: usize, _leaves: u32) {}
}
