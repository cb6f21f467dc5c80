//! Worked leaves on the branches of splits on a winner.

ghost use Rattle.tpl_examples.specs.WinnerRules.{SplitOnWinner, SplitIsNeeded, WinnerIsRead, StuckWinner, SplitsAreIntersected, ChainBehindWinner};

/// A split on who wins shows what no leaf without it does.
pub fn split_on_winner()
    ensures { SplitOnWinner }
{}

/// A certificate with this split is accepted for a claim, and none without a split on a winner is.
pub fn split_is_needed()
    ensures { SplitIsNeeded }
{
    tpl_laws::token_verdict_is_right();
}

/// A body behind WhenAny reads how an argument ended that may win.
pub fn winner_is_read()
    ensures { WinnerIsRead }
{}

/// WhenAny ends if an argument does that may win.
pub fn stuck_winner()
    ensures { StuckWinner }
{}

/// Splits on one task are intersected, and say nothing of another.
pub fn splits_are_intersected()
    ensures { SplitsAreIntersected }
{}

/// A chain leads behind WhenAny where the task before it alone may win.
pub fn chain_behind_winner()
    ensures { ChainBehindWinner }
{}
