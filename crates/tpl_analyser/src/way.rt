//! One way through the splits, on which as little as possible is proved.

ghost use Rattle.tpl_analyser.specs.Prelude.{IsReady};

use crate::branch::Branch;
use crate::budget::Budget;
use crate::leaf::try_leaf;
use crate::premises::Premises;
use crate::question::Question;
use crate::split::{Split, Turn};
use crate::watch::Watch;
use std::alloc::{AllocError, Global};

/// One way through the splits: a branch of each that bears on the property.
#[derive(Drop)]
pub(crate) struct Way {
    /// The branches that it takes until the property is proved; what is declared last comes first.
    pub(crate) taken: Vec<Turn>,
    /// What is assumed on its branches of the other splits.
    pub(crate) passed: Premises,
    /// The branch on which all that the way takes is assumed.
    branch: Branch,
    /// The property is proved there. If it isn't, no tree proves it at all, however many splits it
    /// has: each has a leaf that assumes no more than all branches of this way.
    pub(crate) proved: bool,
}

/// A way from a branch on: of each split the first branch on which the property isn't proved yet,
/// until there is none; from then on the first that is open.
pub(crate) fn way_from<W: Watch>(
    alloc: Global,
    question: Question<'_>,
    from: &Branch,
    budget: &mut Budget<W>,
) -> Result<Way, AllocError>
    requires { IsReady question }
{
    let mut way = Way {
        taken: Vec::new(alloc),
        passed: from.premises.copy(),
        branch: from.copy(),
        proved: false,
    };
    for split in question.splits.iter().rev() {
        if question.cone.bears(*split) && from.may_split(*split) {
            way.add(alloc, question, *split, budget)?;
        }
    }
    Ok(way)
}

impl Way {
    /// Takes a branch of the split.
    fn add<W: Watch>(
        &mut self,
        alloc: Global,
        question: Question<'_>,
        split: Split,
        budget: &mut Budget<W>,
    ) -> Result<(), AllocError>
        requires { IsReady question }
    {
        if self.proved || self.branch.changes_nothing(question, split) {
            self.pass(split);
            return Ok(());
        }
        let first = self.first(split);
        for turn in split.turns() {
            if let Some(turn) = turn {
                if self.tries(alloc, question, turn, budget)? {
                    return Ok(());
                }
            }
        }
        self.proved = true;
        self.go(question, first)
    }

    /// Takes this branch, if it is open and the property isn't proved on it.
    fn tries<W: Watch>(
        &mut self,
        alloc: Global,
        question: Question<'_>,
        turn: Turn,
        budget: &mut Budget<W>,
    ) -> Result<bool, AllocError>
        requires { IsReady question }
    {
        if !self.branch.may_turn(turn) {
            return Ok(false);
        }
        let branch = self.branch.turned(question, turn);
        if try_leaf(alloc, question, &branch, budget)?.unwrap_or(true) {
            return Ok(false);
        }
        self.branch = branch;
        self.taken.push(turn)?;
        Ok(true)
    }

    /// Takes this branch, on which the property is proved.
    fn go(&mut self, question: Question<'_>, turn: Turn) -> Result<(), AllocError>
        requires { IsReady question }
    {
        self.branch = self.branch.turned(question, turn);
        self.taken.push(turn)?;
        Ok(())
    }

    /// Passes a split by, on the first branch that is open.
    fn pass(&mut self, split: Split) {
        let turn = self.first(split);
        turn.assume(&mut self.passed);
    }

    /// The first branch of the split that is open; where there is none, the first.
    fn first(&self, split: Split) -> Turn {
        for turn in split.turns() {
            if let Some(turn) = turn {
                if self.branch.may_turn(turn) {
                    return turn;
                }
            }
        }
        split.first()
    }
}
