//! Which splits are tried at a node of the search.

ghost use Rattle.tpl_analyser.specs.Prelude.{IsReady};

use crate::branch::Branch;
use crate::budget::Budget;
use crate::leaf::try_leaf;
use crate::question::Question;
use crate::search::Reach;
use crate::split::{Split, assumed_on};
use crate::splits::Splits;
use crate::watch::Watch;
use crate::way::{Way, way_from};
use std::alloc::{AllocError, Global};

/// Which splits are tried at a node of the search.
#[derive(Drop)]
pub(crate) enum Choice {
    /// Each split.
    Any,
    /// These splits.
    Only(Splits),
}

impl Choice {
    /// The split is tried.
    pub(crate) fn has(&self, split: Split) -> bool {
        match self {
            Choice::Any => true,
            Choice::Only(splits) => splits.contains(split),
        }
    }
}

/// What one way shows of the trees of a branch.
#[derive(Drop)]
pub(crate) struct Bound {
    way: Way,
    /// Splits that stand on a path of each tree.
    needed: Splits,
}

/// What one way shows of the trees of a branch; nothing where there is no tree with at most this many
/// splits on a path.
pub(crate) fn bound_of<W: Watch>(
    alloc: Global,
    question: Question<'_>,
    branch: &Branch,
    splits: u8,
    budget: &mut Budget<W>,
) -> Result<Option<Bound>, AllocError>
    requires { IsReady question }
{
    let way = way_from(alloc, question, branch, budget)?;
    if !way.proved {
        budget.give_up();
        return Ok(None);
    }
    let needed = needed(alloc, question, branch, &way, splits, budget)?;
    if needed.count() > splits as u32 {
        return Ok(None);
    }
    Ok(Some(Bound { way, needed }))
}

/// The splits that the way needs: with the branches of all others the property isn't proved. Where
/// there are more than `most` of them, as many as show it.
fn needed<W: Watch>(
    alloc: Global,
    question: Question<'_>,
    branch: &Branch,
    way: &Way,
    most: u8,
    budget: &mut Budget<W>,
) -> Result<Splits, AllocError>
    requires { IsReady question }
{
    let mut needed = Splits::none();
    for at in 0..way.taken.len() {
        if needed.count() > most as u32 || budget.is_spent() {
            return Ok(needed);
        }
        let others = assumed_on(&way.passed, &way.taken[..at]);
        let others = assumed_on(&others, &way.taken[at + 1..]);
        let without = branch.under(question, others, question.cone.beyond());
        if !try_leaf(alloc, question, &without, budget)?.unwrap_or(true) {
            needed.insert(way.taken[at].split());
        }
    }
    Ok(needed)
}

impl Bound {
    /// The least number of splits on a path of a tree, as far as the way shows it.
    pub(crate) fn least(&self) -> u32 {
        self.needed.count()
    }

    /// The splits that are tried where there may be this many on a path: if there is room for the needed
    /// ones alone, these; else each, or in a directed search those that were enough on the way. None
    /// where there isn't room for the needed ones.
    pub(crate) fn choice<W: Watch>(
        &self,
        alloc: Global,
        question: Question<'_>,
        branch: &Branch,
        reach: Reach,
        budget: &mut Budget<W>,
    ) -> Result<Option<Choice>, AllocError>
        requires { IsReady question }
    {
        let splits = reach.splits as u32;
        if self.needed.count() == splits {
            return Ok(Some(Choice::Only(self.needed.copy())));
        }
        if !reach.directed {
            return Ok(Some(Choice::Any));
        }
        let enough = enough(alloc, question, branch, &self.way, budget)?;
        if enough.count() > splits {
            return Ok(None);
        }
        Ok(Some(Choice::Only(enough)))
    }
}

/// Splits whose branches on the way are enough to prove the property, of which none can be left
/// out. Those that are declared first are left out first.
fn enough<W: Watch>(
    alloc: Global,
    question: Question<'_>,
    branch: &Branch,
    way: &Way,
    budget: &mut Budget<W>,
) -> Result<Splits, AllocError>
    requires { IsReady question }
{
    let mut kept = Vec::new(alloc);
    let mut enough = Splits::none();
    for at in (0..way.taken.len()).rev() {
        if budget.is_spent() {
            return Ok(enough);
        }
        let others = assumed_on(&branch.premises, &way.taken[..at]);
        let others = assumed_on(&others, &kept);
        let without = branch.under(question, others, question.cone.beyond());
        if !try_leaf(alloc, question, &without, budget)?.unwrap_or(true) {
            kept.push(way.taken[at])?;
            enough.insert(way.taken[at].split());
        }
    }
    Ok(enough)
}
