//! Worked leaves without rows.

ghost use Rattle.tpl_examples.specs.LeastRows.{RowsByEnd, RowsAreNarrowed, SplitOnEnd, EndIsNeeded, RowsOfFamilies, TokensAreKnown, RowsByWinner, ShortestChain, LengthOfChains, ChainOfWinner};

/// The rows without a split, and in each branch of a split on how a job ends.
pub fn rows_by_end()
    ensures { RowsByEnd }
{}

/// A split on how a continuation ends leaves fewer ends in the row of its antecedent.
pub fn rows_are_narrowed()
    ensures { RowsAreNarrowed }
{}

/// Trees of leaves without rows, over a split that is enough and ones that aren't.
pub fn split_on_end()
    ensures { SplitOnEnd }
{}

/// A certificate of leaves without rows is accepted for a claim, and one of a single leaf isn't.
pub fn end_is_needed()
    ensures { EndIsNeeded }
{
    tpl_laws::token_verdict_is_right();
}

/// The rows of a parent and its child are made before that of a continuation which is declared between them.
pub fn rows_of_families()
    ensures { RowsOfFamilies }
{}

/// The rows know which tokens are requested, which a leaf may need.
pub fn tokens_are_known()
    ensures { TokensAreKnown }
{}

/// A split on who wins says what is settled.
pub fn rows_by_winner()
    ensures { RowsByWinner }
{}

/// The shortest chain leads to the reader.
pub fn shortest_chain()
    ensures { ShortestChain }
{}

/// A chain has sixteen tasks at most.
pub fn length_of_chains()
    ensures { LengthOfChains }
{}

/// A chain leads behind WhenAny where the split leaves it one winner.
pub fn chain_of_winner()
    ensures { ChainOfWinner }
{}
