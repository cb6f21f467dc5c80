//! How verdicts are written.

/// How verdicts are written.
#[derive(Clone, Copy, Debug, Drop, PartialEq, Eq)]
pub enum Style {
    /// Lines for people.
    Text,
    /// One JSON object.
    Json,
    /// A report of test cases, as JUnit writes them.
    Junit,
    /// A page for a browser, which has the document, too.
    Html,
}
