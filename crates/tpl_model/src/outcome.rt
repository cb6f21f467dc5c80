//! How bodies end.

use crate::Label;

/// How a body ended (.NET: exception handling and task cancellation in the Task Parallel Library
/// guide).
#[derive(Clone, Copy, PartialEq, Eq, Debug)]
pub enum Outcome {
    /// It came to its end, or to a `return`.
    Returned,
    /// An exception left it.
    Threw(Label),
    /// It acknowledged a cancellation request for its own token.
    Acknowledged,
}
