//! What is said of a claim.

use crate::word::Word;

/// What is said of a claim.
#[derive(Drop)]
pub struct Entry {
    /// Its number; the first claim has 1.
    pub number: usize,
    /// Its name in quotes behind a space, where it has one; else nothing.
    pub title: String,
    /// The word for the verdict on it.
    pub word: Word,
    /// The claim in words.
    pub words: String,
    /// The lines that belong to it, each with its line break.
    pub lines: Vec<String>,
}
