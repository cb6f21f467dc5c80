//! An event that led to another one.

/// An event of a run that led to another one, or to where a claim fails.
#[derive(Drop)]
pub struct Cause {
    /// Its place in the run; the first event has 1.
    pub event: usize,
    /// The place of the event that it made possible or due; its own, where it is asked why it happened itself.
    pub led_to: usize,
    /// What it did, as a sentence.
    pub says: String,
}
