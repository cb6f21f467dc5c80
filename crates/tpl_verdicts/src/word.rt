//! The words for verdicts.

ghost use Rattle.std.specs.Prelude.{◌≡◌, ◌↔◌, map, IfOk, IsTrue};
ghost use Rattle.tpl_verdicts.specs.Prelude.{SaysHolds, same_word, word_of, word_text};

use std::alloc::{AllocError, Global};
use tpl_verify::Verdict;

/// The word for a verdict.
#[derive(Clone, Copy, Debug, Drop, PartialEq, Eq)]
pub enum Word {
    /// The claim holds, and nothing says that it is empty.
    Holds,
    /// A run was found in which the claim fails.
    Fails,
    /// The claim holds, and says nothing.
    Empty,
    /// Neither was found.
    Unknown,
}

impl Word {
    /// The word as it is written.
    pub(crate) fn text(self) -> &'static str
        ensures { result.now ≡ word_text self }
    {
        match self {
            Word::Holds => "holds",
            Word::Fails => "fails",
            Word::Empty => "empty",
            Word::Unknown => "unknown",
        }
    }

    /// The claim holds, and nothing says that it is empty.
    pub(crate) fn says_holds(&self) -> bool
        ensures { IsTrue result ↔ SaysHolds self.now }
    {
        match self {
            Word::Holds => true,
            Word::Fails => false,
            Word::Empty => false,
            Word::Unknown => false,
        }
    }
}

/// The word for this verdict.
pub(crate) fn word_of(verdict: &Verdict) -> Word
    ensures { result ≡ word_of verdict.now }
{
    match verdict {
        Verdict::Holds { empty: None, .. } => Word::Holds,
        Verdict::Holds { empty: Some(_), .. } => Word::Empty,
        Verdict::Fails(_) => Word::Fails,
        Verdict::Unknown(_) => Word::Unknown,
    }
}

/// The word for each of these verdicts.
pub(crate) fn words_of(alloc: Global, verdicts: &[Verdict]) -> Result<Vec<Word>, AllocError>
    ensures { IfOk result (λ words. words.items ≡ map word_of verdicts.now) }
{
    let mut words = Vec::with_capacity(alloc, verdicts.len())?;
    for verdict in verdicts {
        words.push(word_of(verdict))?;
    }
    Ok(words)
}

/// Both are the same word.
pub(crate) fn same_word(one: Word, other: Word) -> bool
    ensures { result ≡ same_word one other }
{
    match (one, other) {
        (Word::Holds, Word::Holds) => true,
        (Word::Fails, Word::Fails) => true,
        (Word::Empty, Word::Empty) => true,
        (Word::Unknown, Word::Unknown) => true,
        _ => false,
    }
}
