//! Plans with as few splits as one is found with.

ghost use Rattle.std.specs.Prelude.{◌<◌};
ghost use Rattle.tpl_analyser.specs.Prelude.{IsPlanIfAny, IsReady};

use crate::branch::Branch;
use crate::budget::Budget;
use crate::choice::{Bound, Choice, bound_of};
use crate::leaf::try_leaf;
use crate::near::near_splits;
use crate::plan::no_split;
use crate::question::Question;
use crate::ran_out::RanOut;
use crate::search::{Reach, split};
use crate::trial::Trial;
use crate::watch::Watch;
use std::alloc::{AllocError, Global};
use tpl_trees::Tree;

/// The plan of a tree with as few splits on a path as one is found with: near to the claim first, then in the order of the
/// search, and where that uses its leaves up, by a directed search.
pub(crate) fn deepened<W: Watch>(
    alloc: Global,
    question: Question<'_>,
    root: &Branch,
    depth: u8,
    budget: &mut Budget<W>,
) -> Result<Option<Tree>, AllocError>
    requires { IsReady question }
    ensures { IsPlanIfAny question.entry.graph.now.graph depth result }
{
    if budget.looks_near() {
        if let Some(tree) = near_by(alloc, question, root, depth, budget)? {
            return Ok(Some(tree));
        }
        budget.again();
    }
    if budget.is_spent() {
        return Ok(None);
    }
    in_order(alloc, question, root, depth, budget)
}

/// The plan without a split, or with one on how a task ends that is near to the claim's. What becomes of tasks alone says
/// whether it is one, which takes less time than the rows; where that says too little for no split, the rows do.
fn near_by<W: Watch>(
    alloc: Global,
    question: Question<'_>,
    root: &Branch,
    depth: u8,
    budget: &mut Budget<W>,
) -> Result<Option<Tree>, AllocError>
    requires { IsReady question }
    ensures { IsPlanIfAny question.entry.graph.now.graph depth result }
{
    let proved = root.is_proved(question);
    if proved || try_leaf(alloc, question, root, budget)?.unwrap_or(false) {
        return Ok(Some(no_split()));
    }
    if depth == 0 {
        return Ok(None);
    }
    by_near_split(alloc, question, root, budget)
}

/// The plan with one split, on how a task ends that is near to the claim's.
fn by_near_split<W: Watch>(
    alloc: Global,
    question: Question<'_>,
    root: &Branch,
    budget: &mut Budget<W>,
) -> Result<Option<Tree>, AllocError>
    requires { IsReady question }
    ensures { IsPlanIfAny question.entry.graph.now.graph 1 result }
{
    let near = near_splits(alloc, question.graph, question.property)?;
    let question = Question {
        splits: &near,
        trial: Trial::Quick,
        ..question
    };
    let reach = Reach {
        splits: 1,
        failed: true,
        directed: false,
    };
    split(alloc, question, root, reach, &Choice::Any, budget)
}

/// The plan of a tree with as few splits on a path as one is found with: in the order of the search, and where
/// that uses its leaves up, by a directed search.
fn in_order<W: Watch>(
    alloc: Global,
    question: Question<'_>,
    root: &Branch,
    depth: u8,
    budget: &mut Budget<W>,
) -> Result<Option<Tree>, AllocError>
    requires { IsReady question }
    ensures { IsPlanIfAny question.entry.graph.now.graph depth result }
{
    if try_leaf(alloc, question, root, budget)?.unwrap_or(false) {
        return Ok(Some(no_split()));
    }
    if depth == 0 {
        return Ok(None);
    }
    if let Some(tree) = by_depth(alloc, question, root, depth, false, budget)? {
        return Ok(Some(tree));
    }
    if budget.ran_out() != RanOut::Leaves {
        return Ok(None);
    }
    budget.renew();
    by_depth(alloc, question, root, depth, true, budget)
}

/// A plan with a split at its top: one with few splits on a path before one with more.
fn by_depth<W: Watch>(
    alloc: Global,
    question: Question<'_>,
    root: &Branch,
    depth: u8,
    directed: bool,
    budget: &mut Budget<W>,
) -> Result<Option<Tree>, AllocError>
    requires { IsReady question }
    ensures { IsPlanIfAny question.entry.graph.now.graph depth result }
{
    let Some(bound) = bound_of(alloc, question, root, depth, budget)? else {
        return Ok(None);
    };
    for fewer in 0..depth {
        let reach = Reach {
            splits: fewer + 1,
            failed: true,
            directed,
        };
        if let Some(tree) = at_depth(alloc, question, root, reach, &bound, budget)? {
            return Ok(Some(tree));
        }
    }
    Ok(None)
}

/// A plan with a split at its top and this many on a path, if that many may be enough.
fn at_depth<W: Watch>(
    alloc: Global,
    question: Question<'_>,
    root: &Branch,
    reach: Reach,
    bound: &Bound,
    budget: &mut Budget<W>,
) -> Result<Option<Tree>, AllocError>
    requires question { IsReady question }
    requires splits { 0 < reach.splits }
    ensures { IsPlanIfAny question.entry.graph.now.graph reach.splits result }
{
    if bound.least() > reach.splits as u32 {
        return Ok(None);
    }
    match bound.choice(alloc, question, root, reach, budget)? {
        None => Ok(None),
        Some(choice) => split(alloc, question, root, reach, &choice, budget),
    }
}
