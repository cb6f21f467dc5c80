//! The least row of a task once it is known whether it begins.

ghost use Rattle.std.specs.Prelude.{◌≡◌, not};
ghost use Rattle.tpl_laws.specs.Prelude.{begun_row};
ghost use Rattle.tpl_token_leaf.specs.Prelude.{IsLeaf, assumed_in, graph_of, rows_in, runs_as};
ghost use Rattle.tpl_model.specs.Prelude.{is_task, kind};
ghost use Rattle.tpl_token_check.specs.Prelude.{IsAll};

use crate::rows::blank_row;
use crate::within::within;
use std::alloc::Global;
use tpl_model::{TaskId, TaskSet};
use tpl_paths::{Facts, TokenSet};
use tpl_token_leaf::{Leaf, NO_END, begin_facts, runs};
use tpl_trees::{PlainRow, Row};

/// The row runs, if it has to, and then has all that it may say of its task's begin.
pub(crate) fn begun_row(alloc: Global, leaf: &Leaf<'_>, all: &Facts, task: TaskId) -> Row
    requires leaf { IsLeaf leaf.now }
    requires task { is_task (graph_of leaf.now) task.0 }
    requires all { IsAll (graph_of leaf.now) all.now }
    ensures { result ≡ begun_row (graph_of leaf.now) (assumed_in leaf.now) (rows_in leaf.now) task.0
        (not (runs_as leaf.now task.0 (kind (graph_of leaf.now) task.0))) }
{
    if runs(leaf, task) {
        return blank_row(alloc);
    }
    let facts = within(all, Some(begin_facts(leaf, task)));
    let row = PlainRow::new(NO_END, true, facts.tasks, TaskSet::empty(), Vec::new(alloc));
    Row::new(row, facts.tokens, TokenSet::empty())
}
