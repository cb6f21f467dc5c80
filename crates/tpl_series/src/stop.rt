//! Why telling has ended early.

/// Why telling has ended early.
#[derive(Clone, Copy, Debug, Drop, PartialEq, Eq)]
pub enum Stop {
    /// Memory was refused, and all values before were told.
    Memory,
    /// A write failed.
    Device,
}
