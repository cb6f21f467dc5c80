//! What a branch of a search assumes.

ghost use Rattle.std.specs.Prelude.{◌≡◌};

use crate::win::MOST_WINNERS;
use tpl_checker::Assumptions;
use tpl_model::TaskId;
use tpl_token_check::WinnerSplit;

/// The splits on winners above a branch, in the order in which they were made.
#[derive(Clone, Copy)]
pub(crate) struct Winners {
    splits: [WinnerSplit; MOST_WINNERS],
    count: usize,
}

impl Winners {
    /// Each argument may win.
    fn any() -> Winners {
        let none = WinnerSplit {
            task: TaskId(0),
            argument: TaskId(0),
            wins: true,
        };
        Winners {
            splits: [none; MOST_WINNERS],
            count: 0,
        }
    }

    /// The splits.
    pub(crate) fn as_slice(&self) -> &[WinnerSplit] {
        &self.splits[..self.count.min(MOST_WINNERS)]
    }

    /// Adds a split, where there is room for it.
    fn add(&mut self, split: WinnerSplit) {
        if self.count < MOST_WINNERS {
            self.splits[self.count] = split;
            self.count += 1;
        }
    }
}

/// What a branch assumes: what a leaf there does, and who may win WhenAny tasks.
#[derive(Drop)]
pub(crate) struct Premises {
    pub(crate) assumptions: Assumptions,
    winners: Winners,
}

impl Premises {
    /// This alone is assumed: each argument may win.
    pub(crate) fn only(assumptions: Assumptions) -> Premises
        ensures { result.assumptions ≡ assumptions }
    {
        Premises {
            assumptions,
            winners: Winners::any(),
        }
    }

    /// A copy.
    pub(crate) fn copy(&self) -> Premises {
        self.with(self.assumptions.copy())
    }

    /// The same winners, with these assumptions.
    pub(crate) fn with(&self, assumptions: Assumptions) -> Premises
        ensures { result.assumptions ≡ assumptions }
    {
        Premises {
            assumptions,
            winners: self.winners,
        }
    }

    /// The splits on winners.
    pub(crate) fn winners(&self) -> &[WinnerSplit] {
        self.winners.as_slice()
    }

    /// Assumes besides what a branch of a split on a winner does.
    pub(crate) fn assume_winner(&mut self, split: WinnerSplit) {
        self.winners.add(split);
    }
}
