//! Builds and tests a leaf.

ghost use Rattle.std.specs.Prelude.{IfOk, IfSome};
ghost use Rattle.tpl_analyser.specs.Prelude.{AreOfForm, IsFound, IsReady};
ghost use Rattle.tpl_checker.specs.Prelude.{assumed_of};

use crate::branch::Branch;
use crate::budget::Budget;
use crate::form::in_form;
use crate::question::Question;
use crate::trial::Trial;
use crate::watch::Watch;
use std::alloc::{AllocError, Global};
use tpl_checker::accepts_leaf;
use tpl_model::TaskId;
use tpl_outline::{least_rows, reached};
use tpl_token_check::{Check, least_leaf_proves};
use tpl_trees::{Node, Row, Tree, is_within_limits};

/// The rows of so many tasks are worked out in the time in which a leaf is tried by what becomes of tasks alone.
const TASKS_A_LEAF: u32 = 8;

/// Builds and tests the leaf of a branch: the leaf, if it is accepted.
pub(crate) fn leaf(
    alloc: Global,
    question: Question<'_>,
    branch: &Branch,
) -> Result<Option<Tree>, AllocError>
    requires { IsReady question }
    ensures { IfOk result (λ found. IfSome found (IsFound question.entry.graph.now.graph
        question.entry.property question.entry.form (assumed_of branch.now.premises.assumptions) 0)) }
{
    match chain_of(alloc, question, branch)? {
        None => Ok(None),
        Some(chain) => {
            let rows = rows_of(alloc, question, branch, &chain)?;
            Ok(tested(question, branch, rows))
        }
    }
}

/// Whether the least rows of the branch prove the property. It uses up leaves that may be tried; where too few are left,
/// there is no answer.
pub(crate) fn try_leaf<W: Watch>(
    alloc: Global,
    question: Question<'_>,
    branch: &Branch,
    budget: &mut Budget<W>,
) -> Result<Option<bool>, AllocError>
    requires { IsReady question }
{
    match question.trial {
        Trial::Whole => try_whole_leaf(alloc, question, branch, budget),
        Trial::Quick if budget.spend(1) => Ok(Some(branch.is_proved(question))),
        Trial::Quick => Ok(None),
    }
}

/// The same by the rules that know of tokens and of winners. All rows are worked out, so it uses up as many leaves as that
/// takes the time of.
fn try_whole_leaf<W: Watch>(
    alloc: Global,
    question: Question<'_>,
    branch: &Branch,
    budget: &mut Budget<W>,
) -> Result<Option<bool>, AllocError>
    requires { IsReady question }
{
    if !budget.spend(1 + question.graph.len() as u32 / TASKS_A_LEAF) {
        return Ok(None);
    }
    let (graph, below, linked) = (question.graph, question.below, question.linked);
    let check = Check::new(graph, question.property, 1, below, linked);
    let premises = &branch.premises;
    let proves = least_leaf_proves(alloc, &check, &premises.assumptions, premises.winners())?;
    Ok(Some(proves))
}

/// The chain with which the least rows of the branch prove the property, if they do.
fn chain_of(
    alloc: Global,
    question: Question<'_>,
    branch: &Branch,
) -> Result<Option<Vec<TaskId>>, AllocError> {
    let setting = question.setting(&branch.premises.assumptions);
    let tasks = &question.cone.tasks;
    reached(alloc, setting, &branch.outline, question.property, tasks)
}

/// The least rows in the form that is asked for, with this chain of the observed task.
fn rows_of(
    alloc: Global,
    question: Question<'_>,
    branch: &Branch,
    chain: &[TaskId],
) -> Result<Vec<Row>, AllocError>
    requires { IsReady question }
    ensures { IfOk result (λ rows.
        AreOfForm question.entry.form question.entry.property rows.items) }
{
    let setting = question.setting(&branch.premises.assumptions);
    let rows = least_rows(alloc, setting, question.property, chain)?;
    in_form(alloc, question.form, question.property, rows)
}

/// A leaf with these rows, if it is accepted and within the limits.
fn tested(question: Question<'_>, branch: &Branch, rows: Vec<Row>) -> Option<Tree>
    requires question { IsReady question }
    requires form { AreOfForm question.form question.property rows.items }
    ensures { IfSome result (IsFound question.entry.graph.now.graph question.entry.property
        question.entry.form (assumed_of branch.now.premises.assumptions) 0) }
{
    if !accepts_leaf(
        question.graph,
        question.property,
        &branch.premises.assumptions,
        question.below,
        &rows,
    ) {
        return None;
    }
    let leaf = Tree::new(Node::Leaf(rows));
    if is_within_limits(&leaf) {
        Some(leaf)
    } else {
        None
    }
}
