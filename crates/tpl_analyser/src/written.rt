//! Trees of plans, with the rows of their leaves or without them.

ghost use Rattle.std.specs.Prelude.{◌≡◌, ◌<◌, IfOk};
ghost use Rattle.tpl_analyser.specs.Prelude.{HasAllRows, HasLeavesOf, HasNoRows, HasSplitsOf};
ghost use Rattle.tpl_model.specs.Prelude.{OnEnd, OnInput, OnWinner};
ghost use Rattle.tpl_trees.specs.Prelude.{height};
ghost use Rattle.tpl_token_check.specs.Prelude.{IsCheck, graph_in};

use crate::form::Form;
use crate::plan::{end_plan, input_plan, winner_plan};
use crate::win::Win;
use std::alloc::{AllocError, Global};
use tpl_checker::Assumptions;
use tpl_model::{Final, InputId, TaskId};
use tpl_token_check::{Check, WinnerSplit, rows_left_out, with_split};
use tpl_trees::{Node, Tree};

/// The tree of a plan in this form.
pub(crate) fn in_form(
    alloc: Global,
    check: &Check<'_>,
    assumed: &Assumptions,
    form: Form,
    plan: Tree,
) -> Result<Tree, AllocError>
    requires check { IsCheck check.now }
    requires splits { HasSplitsOf (graph_in check.now) plan }
    requires rows { HasNoRows plan }
    ensures height { IfOk result (λ tree. height tree ≡ height plan) }
    ensures leaves { IfOk result (HasLeavesOf form) }
{
    match form {
        Form::Rows => with_rows(alloc, check, assumed, &[], &plan),
        Form::Full | Form::Slim => Ok(plan),
    }
}

/// The tree with the splits of the plan, whose leaves have the least rows.
#[cycle(written)]
fn with_rows(
    alloc: Global,
    check: &Check<'_>,
    assumed: &Assumptions,
    winners: &[WinnerSplit],
    plan: &Tree,
) -> Result<Tree, AllocError>
    requires check { IsCheck check.now }
    requires splits { HasSplitsOf (graph_in check.now) plan.now }
    ensures height { IfOk result (λ tree. height tree ≡ height plan.now) }
    ensures leaves { IfOk result HasAllRows }
{
    match plan.node() {
        Node::SplitInput(input, yes, no) => {
            by_input(alloc, check, assumed, winners, *input, yes, no)
        }
        Node::SplitEnd(task, ran, canceled, faulted) => {
            by_end(
                alloc, check, assumed, winners, *task, ran, canceled, faulted,
            )
        }
        Node::SplitWinner(task, argument, yes, no) => {
            let win = Win {
                task: *task,
                argument: *argument,
            };
            by_winner(alloc, check, assumed, winners, win, yes, no)
        }
        Node::Leaf(_) | Node::Least => {
            let rows = rows_left_out(alloc, check, assumed, winners)?;
            Ok(Tree::new(Node::Leaf(rows)))
        }
    }
}

/// The tree of a plan with a split on this input at its top.
#[cycle(written)]
fn by_input(
    alloc: Global,
    check: &Check<'_>,
    assumed: &Assumptions,
    winners: &[WinnerSplit],
    input: InputId,
    yes: &Tree,
    no: &Tree,
) -> Result<Tree, AllocError>
    requires check { IsCheck check.now }
    requires splits { HasSplitsOf (graph_in check.now) (OnInput input.0 yes.now no.now) }
    ensures height { IfOk result (λ tree. height tree
        ≡ height (OnInput input.0 yes.now no.now)) }
    ensures leaves { IfOk result HasAllRows }
{
    check.graph().valid_law();
    let on_true = assumed.with_input(input, true);
    let yes = with_rows(alloc, check, &on_true, winners, yes)?;
    let on_false = assumed.with_input(input, false);
    let no = with_rows(alloc, check, &on_false, winners, no)?;
    input_plan(alloc, input, yes, no)
}

/// The tree of a plan with a split on how this task ends at its top.
#[cycle(written)]
fn by_end(
    alloc: Global,
    check: &Check<'_>,
    assumed: &Assumptions,
    winners: &[WinnerSplit],
    task: TaskId,
    ran: &Tree,
    canceled: &Tree,
    faulted: &Tree,
) -> Result<Tree, AllocError>
    requires check { IsCheck check.now }
    requires splits { HasSplitsOf (graph_in check.now)
        (OnEnd task.0 ran.now canceled.now faulted.now) }
    ensures height { IfOk result (λ tree. height tree
        ≡ height (OnEnd task.0 ran.now canceled.now faulted.now)) }
    ensures leaves { IfOk result HasAllRows }
{
    check.graph().valid_law();
    let on_ran = assumed.with_end(task, Final::RanToCompletion);
    let ran = with_rows(alloc, check, &on_ran, winners, ran)?;
    let on_canceled = assumed.with_end(task, Final::Canceled);
    let canceled = with_rows(alloc, check, &on_canceled, winners, canceled)?;
    let on_faulted = assumed.with_end(task, Final::Faulted);
    let faulted = with_rows(alloc, check, &on_faulted, winners, faulted)?;
    end_plan(alloc, task, ran, canceled, faulted)
}

/// The tree of a plan with a split at its top on whether this argument wins its task.
#[cycle(written)]
fn by_winner(
    alloc: Global,
    check: &Check<'_>,
    assumed: &Assumptions,
    winners: &[WinnerSplit],
    win: Win,
    yes: &Tree,
    no: &Tree,
) -> Result<Tree, AllocError>
    requires check { IsCheck check.now }
    requires splits { HasSplitsOf (graph_in check.now)
        (OnWinner win.task.0 win.argument.0 yes.now no.now) }
    ensures height { IfOk result (λ tree. height tree
        ≡ height (OnWinner win.task.0 win.argument.0 yes.now no.now)) }
    ensures leaves { IfOk result HasAllRows }
{
    let on_yes = with_split(alloc, winners, win.task, win.argument, true)?;
    let yes = with_rows(alloc, check, assumed, on_yes.as_slice(), yes)?;
    let on_no = with_split(alloc, winners, win.task, win.argument, false)?;
    let no = with_rows(alloc, check, assumed, on_no.as_slice(), no)?;
    winner_plan(alloc, win, yes, no)
}
