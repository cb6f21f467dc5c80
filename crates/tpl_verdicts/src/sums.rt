//! How many verdicts of each word there are.

ghost use Rattle.std.specs.Prelude.{◌≡◌, IfOk, string_bytes};
ghost use Rattle.tpl_verdicts.specs.Prelude.{AreSums, count_of, sums_line};

use crate::word::{Word, same_word};
use std::alloc::{AllocError, Global};

/// How many claims there are, and how many of each word.
#[derive(Clone, Copy, Debug, Drop)]
pub(crate) struct Sums {
    pub(crate) claims: usize,
    pub(crate) holds: usize,
    pub(crate) fails: usize,
    pub(crate) empty: usize,
    pub(crate) unknown: usize,
}

/// How many of the words are this one.
pub(crate) fn count_of(words: &[Word], word: Word) -> usize
    ensures { result ≡ count_of words.now word }
{
    words.iter().filter(|one| same_word(**one, word)).count()
}

/// How many claims there are with these words for their verdicts, and how many of each word.
pub(crate) fn sums_of(words: &[Word]) -> Sums
    ensures { AreSums words.now result }
{
    Sums {
        claims: words.len(),
        holds: count_of(words, Word::Holds),
        fails: count_of(words, Word::Fails),
        empty: count_of(words, Word::Empty),
        unknown: count_of(words, Word::Unknown),
    }
}

/// The last line: how many claims there are, and how many of each word.
pub(crate) fn sums_line(alloc: Global, words: &[Word]) -> Result<String, AllocError>
    ensures { IfOk result (λ text. string_bytes text ≡ sums_line words.now) }
{
    let Sums {
        claims,
        holds,
        fails,
        empty,
        unknown,
    } = sums_of(words);
    format!(in alloc;
        "claims {claims}, holds {holds}, fails {fails}, empty {empty}, unknown {unknown}\n"
    )
}
