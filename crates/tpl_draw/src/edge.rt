//! The edges of a picture.

/// What an edge says of its two ends.
#[derive(Clone, Copy)]
pub(crate) enum Tie {
    /// From a task to one that continues it.
    After,
    /// From a task to a WhenAll or WhenAny task that waits for it.
    Argument,
    /// From a task to a child that its body starts.
    Child,
    /// From a task to a token that its body requests.
    Cancel,
    /// From a token to a task that has it as its own.
    Own,
    /// From a token to one that is linked to it.
    Link,
}

/// An edge, from a task or token to another. Both are numbered in declared order.
#[derive(Clone, Copy)]
pub(crate) struct Edge {
    pub(crate) tie: Tie,
    pub(crate) from: u16,
    pub(crate) to: u16,
}
