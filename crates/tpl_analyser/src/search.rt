//! The search for the splits of a tree: none first, then splits on inputs in order, then on tasks in order, and by the
//! rules with tokens on winners, none twice on a path; only those that can lead to a tree. Rows are made once the splits are
//! found.

ghost use Rattle.std.specs.Prelude.{◌≡◌, ◌<◌, ◌+◌};
ghost use Rattle.tpl_analyser.specs.Prelude.{IsPlanIfAny, IsReady, IsSplitOf};
ghost use Rattle.tpl_model.specs.Prelude.{is_task};

use crate::branch::Branch;
use crate::budget::Budget;
use crate::choice::{Choice, bound_of};
use crate::leaf::try_leaf;
use crate::plan::{end_plan, input_plan, no_split, winner_plan};
use crate::question::Question;
use crate::split::Split;
use crate::watch::Watch;
use crate::win::Win;
use std::alloc::{AllocError, Global};
use tpl_model::{Final, InputId, TaskId};
use tpl_trees::Tree;

/// How far a search may go on.
#[derive(Clone, Copy)]
pub(crate) struct Reach {
    /// The most splits on a path from here on.
    pub(crate) splits: u8,
    /// No tree was found with one split less, so a split that changes nothing needn't be tried.
    pub(crate) failed: bool,
    /// At each node only such splits are tried as were enough on one way.
    pub(crate) directed: bool,
}

impl Reach {
    /// How far it may go on behind a split, whose leaf is tried first.
    fn behind(self) -> Reach
        requires { 0 < self.splits }
        ensures { result.splits + 1 ≡ self.splits }
    {
        Reach {
            splits: self.splits - 1,
            failed: self.splits == 2,
            directed: self.directed,
        }
    }
}

/// The plan of a tree with at most this many splits on each path, if one is found before the leaves that may be tried are
/// used up.
#[cycle(search)]
fn find<W: Watch>(
    alloc: Global,
    question: Question<'_>,
    branch: &Branch,
    reach: Reach,
    budget: &mut Budget<W>,
) -> Result<Option<Tree>, AllocError>
    requires { IsReady question }
    ensures { IsPlanIfAny question.entry.graph.now.graph reach.splits result }
{
    if try_leaf(alloc, question, branch, budget)?.unwrap_or(false) {
        return Ok(Some(no_split()));
    }
    if reach.splits == 0 {
        return Ok(None);
    }
    match choice(alloc, question, branch, reach, budget)? {
        None => Ok(None),
        Some(choice) => split(alloc, question, branch, reach, &choice, budget),
    }
}

/// The splits that are tried at a node, if there are some. On the last level of a search that isn't
/// directed each is, which costs no more than to find out.
fn choice<W: Watch>(
    alloc: Global,
    question: Question<'_>,
    branch: &Branch,
    reach: Reach,
    budget: &mut Budget<W>,
) -> Result<Option<Choice>, AllocError>
    requires { IsReady question }
{
    if reach.splits == 1 && !reach.directed {
        return Ok(Some(Choice::Any));
    }
    match bound_of(alloc, question, branch, reach.splits, budget)? {
        None => Ok(None),
        Some(bound) => bound.choice(alloc, question, branch, reach, budget),
    }
}

/// A plan with one of these splits at its top. Once one of them has failed, none that changes
/// nothing is tried: it would need a tree with a split less, and that split's branch would have had
/// it too.
#[cycle(search)]
pub(crate) fn split<W: Watch>(
    alloc: Global,
    question: Question<'_>,
    branch: &Branch,
    reach: Reach,
    choice: &Choice,
    budget: &mut Budget<W>,
) -> Result<Option<Tree>, AllocError>
    requires question { IsReady question }
    requires splits { 0 < reach.splits }
    ensures { IsPlanIfAny question.entry.graph.now.graph reach.splits result }
{
    let mut failed = reach.failed;
    for split in question.splits {
        let skipped = failed && branch.changes_nothing(question, *split);
        if !budget.is_spent() && choice.has(*split) && branch.may_split(*split) && !skipped {
            if let Some(tree) = by_split(alloc, question, branch, reach, *split, budget)? {
                return Ok(Some(tree));
            }
            failed = true;
        }
    }
    Ok(None)
}

/// A plan with this split at its top.
#[cycle(search)]
fn by_split<W: Watch>(
    alloc: Global,
    question: Question<'_>,
    branch: &Branch,
    reach: Reach,
    split: Split,
    budget: &mut Budget<W>,
) -> Result<Option<Tree>, AllocError>
    requires question { IsReady question }
    requires splits { 0 < reach.splits }
    requires split { IsSplitOf question.graph.now.graph split }
    ensures { IsPlanIfAny question.entry.graph.now.graph reach.splits result }
{
    match split {
        Split::Input(input) => by_input(alloc, question, branch, reach, input, budget),
        Split::End(task) => by_end(alloc, question, branch, reach, task, budget),
        Split::Winner(win) => by_winner(alloc, question, branch, reach, win, budget),
    }
}

/// A plan with a split on this input at its top.
#[cycle(search)]
fn by_input<W: Watch>(
    alloc: Global,
    question: Question<'_>,
    branch: &Branch,
    reach: Reach,
    input: InputId,
    budget: &mut Budget<W>,
) -> Result<Option<Tree>, AllocError>
    requires question { IsReady question }
    requires splits { 0 < reach.splits }
    requires input { input.0 < question.graph.now.graph.inputs }
    ensures { IsPlanIfAny question.entry.graph.now.graph reach.splits result }
{
    question.graph.valid_law();
    let reach = reach.behind();
    let yes = branch.with_input(question, input, true);
    let Some(on_true) = find(alloc, question, &yes, reach, budget)? else {
        return Ok(None);
    };
    let no = branch.with_input(question, input, false);
    let Some(on_false) = find(alloc, question, &no, reach, budget)? else {
        return Ok(None);
    };
    let tree = input_plan(alloc, input, on_true, on_false)?;
    Ok(Some(tree))
}

/// A plan with a split on how this task ends at its top.
#[cycle(search)]
fn by_end<W: Watch>(
    alloc: Global,
    question: Question<'_>,
    branch: &Branch,
    reach: Reach,
    task: TaskId,
    budget: &mut Budget<W>,
) -> Result<Option<Tree>, AllocError>
    requires question { IsReady question }
    requires splits { 0 < reach.splits }
    requires task { is_task question.graph.now.graph task.0 }
    ensures { IsPlanIfAny question.entry.graph.now.graph reach.splits result }
{
    let reach = reach.behind();
    let ran = branch.with_end(question, task, Final::RanToCompletion);
    let Some(on_ran) = find(alloc, question, &ran, reach, budget)? else {
        return Ok(None);
    };
    let canceled = branch.with_end(question, task, Final::Canceled);
    let Some(on_canceled) = find(alloc, question, &canceled, reach, budget)? else {
        return Ok(None);
    };
    let faulted = branch.with_end(question, task, Final::Faulted);
    let Some(on_faulted) = find(alloc, question, &faulted, reach, budget)? else {
        return Ok(None);
    };
    let tree = end_plan(alloc, task, on_ran, on_canceled, on_faulted)?;
    Ok(Some(tree))
}

/// A plan with a split at its top on whether this argument wins its task.
#[cycle(search)]
fn by_winner<W: Watch>(
    alloc: Global,
    question: Question<'_>,
    branch: &Branch,
    reach: Reach,
    win: Win,
    budget: &mut Budget<W>,
) -> Result<Option<Tree>, AllocError>
    requires question { IsReady question }
    requires splits { 0 < reach.splits }
    ensures { IsPlanIfAny question.entry.graph.now.graph reach.splits result }
{
    let reach = reach.behind();
    let yes = branch.with_winner(question, win, true);
    let Some(on_yes) = find(alloc, question, &yes, reach, budget)? else {
        return Ok(None);
    };
    let no = branch.with_winner(question, win, false);
    let Some(on_no) = find(alloc, question, &no, reach, budget)? else {
        return Ok(None);
    };
    let tree = winner_plan(alloc, win, on_yes, on_no)?;
    Ok(Some(tree))
}
