//! The search for a tree by the rules that know of tokens and of winners.

ghost use Rattle.std.specs.Prelude.{◌≤◌, [], IfOk, IfSome};
ghost use Rattle.tpl_analyser.specs.Prelude.{IsPlan, IsPlanIfAny, IsReady, IsFoundWithTokens};
ghost use Rattle.tpl_token_leaf.specs.Prelude.{leaf_assumed};
ghost use Rattle.tpl_token_check.specs.Prelude.{IsCheck, graph_in};

use crate::branch::Branch;
use crate::budget::Budget;
use crate::deepening::deepened;
use crate::form::Form;
use crate::question::Question;
use crate::ran_out::RanOut;
use crate::trial::Trial;
use crate::watch::Watch;
use crate::written::in_form;
use std::alloc::{AllocError, Global};
use tpl_checker::Assumptions;
use tpl_model::MOST_SPLITS;
use tpl_token_check::{Check, accepts_tree};
use tpl_trees::{Tree, is_within_limits};

/// A tree by the rules that know of tokens and of winners, under what is assumed at its root.
pub(crate) fn tree_with_tokens<W: Watch>(
    alloc: Global,
    question: Question<'_>,
    assumed: Assumptions,
    depth: u8,
    budget: &mut Budget<W>,
) -> Result<Option<Tree>, AllocError>
    requires question { IsReady question }
    requires depth { depth ≤ MOST_SPLITS }
    ensures { IfOk result (λ found. IfSome found (IsFoundWithTokens question.entry.graph.now.graph
        question.entry.property question.entry.form (leaf_assumed assumed []) depth)) }
{
    let root = Branch::root(question, assumed.copy());
    let Some(plan) = plan_for(alloc, question, &root, depth, budget)? else {
        return Ok(None);
    };
    let Question {
        graph,
        below,
        property,
        form,
        linked,
        ..
    } = question;
    let check = Check::new(graph, property, 1, below, linked);
    tested(alloc, &check, &assumed, form, depth, plan)
}

/// The plan of a tree. Where the leaves that may be tried with all that their rows say are used up, as in a large graph, as
/// many are tried again by what becomes of tasks alone, which takes less time.
fn plan_for<W: Watch>(
    alloc: Global,
    question: Question<'_>,
    root: &Branch,
    depth: u8,
    budget: &mut Budget<W>,
) -> Result<Option<Tree>, AllocError>
    requires { IsReady question }
    ensures { IsPlanIfAny question.entry.graph.now.graph depth result }
{
    if let Some(plan) = deepened(alloc, question, root, depth, budget)? {
        return Ok(Some(plan));
    }
    if budget.ran_out() != RanOut::Leaves {
        return Ok(None);
    }
    budget.again();
    let question = Question {
        trial: Trial::Quick,
        ..question
    };
    deepened(alloc, question, root, depth, budget)
}

/// The tree of a plan in this form, if it is accepted and within the limits.
fn tested(
    alloc: Global,
    check: &Check<'_>,
    assumed: &Assumptions,
    form: Form,
    depth: u8,
    plan: Tree,
) -> Result<Option<Tree>, AllocError>
    requires check { IsCheck check.now }
    requires plan { IsPlan (graph_in check.now) depth plan }
    requires depth { depth ≤ MOST_SPLITS }
    ensures { IfOk result (λ found. IfSome found (IsFoundWithTokens (graph_in check.now)
        check.now.property form (leaf_assumed assumed.now []) depth)) }
{
    let tree = in_form(alloc, check, assumed, form, plan)?;
    if accepts_tree(alloc, check, assumed, &tree)? && is_within_limits(&tree) {
        Ok(Some(tree))
    } else {
        Ok(None)
    }
}
