//! Plans of trees, and the trees that are made of them by the rules without tokens.

ghost use Rattle.std.specs.Prelude.{◌≡◌, IfOk, IfSome};
ghost use Rattle.tpl_analyser.specs.Prelude.{HasSplitsOf, IsFound, IsReady};
ghost use Rattle.tpl_checker.specs.Prelude.{assumed_of};
ghost use Rattle.tpl_model.specs.Prelude.{LeastLeaf, OnEnd, OnInput, OnWinner};
ghost use Rattle.tpl_trees.specs.Prelude.{height};

use crate::branch::Branch;
use crate::leaf::leaf;
use crate::question::Question;
use crate::win::Win;
use std::alloc::{AllocError, Global};
use tpl_model::{Final, InputId, TaskId};
use tpl_trees::{Node, Tree};

/// The plan with no split.
pub(crate) fn no_split() -> Tree
    ensures { result ≡ LeastLeaf }
{
    Tree::new(Node::Least)
}

/// The plan with a split on an input at its top, and these branches.
pub(crate) fn input_plan(
    alloc: Global,
    input: InputId,
    on_true: Tree,
    on_false: Tree,
) -> Result<Tree, AllocError>
    ensures { IfOk result (λ tree. tree ≡ OnInput input.0 on_true on_false) }
{
    let on_true = Box::new(alloc, on_true)?;
    let on_false = Box::new(alloc, on_false)?;
    Ok(Tree::new(Node::SplitInput(input, on_true, on_false)))
}

/// The plan with a split on how a task ends at its top, and these branches.
pub(crate) fn end_plan(
    alloc: Global,
    task: TaskId,
    ran: Tree,
    canceled: Tree,
    faulted: Tree,
) -> Result<Tree, AllocError>
    ensures { IfOk result (λ tree. tree ≡ OnEnd task.0 ran canceled faulted) }
{
    let ran = Box::new(alloc, ran)?;
    let canceled = Box::new(alloc, canceled)?;
    let faulted = Box::new(alloc, faulted)?;
    Ok(Tree::new(Node::SplitEnd(task, ran, canceled, faulted)))
}

/// The plan with a split on a winner at its top, and these branches.
pub(crate) fn winner_plan(
    alloc: Global,
    win: Win,
    on_yes: Tree,
    on_no: Tree,
) -> Result<Tree, AllocError>
    ensures { IfOk result (λ tree. tree ≡ OnWinner win.task.0 win.argument.0 on_yes on_no) }
{
    let on_yes = Box::new(alloc, on_yes)?;
    let on_no = Box::new(alloc, on_no)?;
    let node = Node::SplitWinner(win.task, win.argument, on_yes, on_no);
    Ok(Tree::new(node))
}

/// The tree with the splits of the plan, whose leaves have the least rows. By the rules without tokens no tree splits on winners.
#[cycle(grown)]
pub(crate) fn grown(
    alloc: Global,
    question: Question<'_>,
    branch: &Branch,
    plan: &Tree,
) -> Result<Option<Tree>, AllocError>
    requires question { IsReady question }
    requires splits { HasSplitsOf question.graph.now.graph plan.now }
    ensures { IfOk result (λ found. IfSome found (IsFound question.entry.graph.now.graph
        question.entry.property question.entry.form (assumed_of branch.now.premises.assumptions)
        (height plan.now))) }
{
    match plan.node() {
        Node::SplitInput(input, yes, no) => {
            grown_by_input(alloc, question, branch, *input, yes, no)
        }
        Node::SplitEnd(task, ran, canceled, faulted) => {
            grown_by_end(alloc, question, branch, *task, ran, canceled, faulted)
        }
        Node::SplitWinner(_, _, _, _) => Ok(None),
        Node::Leaf(_) | Node::Least => leaf(alloc, question, branch),
    }
}

/// The tree of a plan with a split on this input at its top.
#[cycle(grown)]
fn grown_by_input(
    alloc: Global,
    question: Question<'_>,
    branch: &Branch,
    input: InputId,
    yes: &Tree,
    no: &Tree,
) -> Result<Option<Tree>, AllocError>
    requires question { IsReady question }
    requires splits { HasSplitsOf question.graph.now.graph (OnInput input.0 yes.now no.now) }
    ensures { IfOk result (λ found. IfSome found (IsFound question.entry.graph.now.graph
        question.entry.property question.entry.form (assumed_of branch.now.premises.assumptions)
        (height (OnInput input.0 yes.now no.now)))) }
{
    question.graph.valid_law();
    let on_true = branch.with_input(question, input, true);
    let Some(yes) = grown(alloc, question, &on_true, yes)? else {
        return Ok(None);
    };
    let on_false = branch.with_input(question, input, false);
    let Some(no) = grown(alloc, question, &on_false, no)? else {
        return Ok(None);
    };
    let tree = input_plan(alloc, input, yes, no)?;
    Ok(Some(tree))
}

/// The tree of a plan with a split on how this task ends at its top.
#[cycle(grown)]
fn grown_by_end(
    alloc: Global,
    question: Question<'_>,
    branch: &Branch,
    task: TaskId,
    ran: &Tree,
    canceled: &Tree,
    faulted: &Tree,
) -> Result<Option<Tree>, AllocError>
    requires question { IsReady question }
    requires splits { HasSplitsOf question.graph.now.graph
        (OnEnd task.0 ran.now canceled.now faulted.now) }
    ensures { IfOk result (λ found. IfSome found (IsFound question.entry.graph.now.graph
        question.entry.property question.entry.form (assumed_of branch.now.premises.assumptions)
        (height (OnEnd task.0 ran.now canceled.now faulted.now)))) }
{
    let on_ran = branch.with_end(question, task, Final::RanToCompletion);
    let Some(ran) = grown(alloc, question, &on_ran, ran)? else {
        return Ok(None);
    };
    let on_canceled = branch.with_end(question, task, Final::Canceled);
    let Some(canceled) = grown(alloc, question, &on_canceled, canceled)? else {
        return Ok(None);
    };
    let on_faulted = branch.with_end(question, task, Final::Faulted);
    let Some(faulted) = grown(alloc, question, &on_faulted, faulted)? else {
        return Ok(None);
    };
    let tree = end_plan(alloc, task, ran, canceled, faulted)?;
    Ok(Some(tree))
}
