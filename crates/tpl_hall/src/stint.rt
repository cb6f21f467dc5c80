//! What a worker remembers between its sections under the lock.

/// How many events a worker's seat had when the worker came, and how many the run had when the worker last left the
/// lock; nothing before its first section.
#[derive(Clone, Copy)]
pub struct Stint {
    pub came: usize,
    pub seen: Option<u32>,
}
