//! A leaf that is checked.

ghost use Rattle.std.specs.Prelude.{◌≡◌, ℕ};
ghost use Rattle.tpl_token_leaf.specs.Prelude.{IsLeaf, assumed_in, graph_of, rows_in};
ghost use Rattle.tpl_model.specs.Prelude.{is_task, linked, may_end, may_run, mem, plain, row, task, token_requested_by, whole_row};
ghost use Rattle.tpl_paths.specs.Prelude.{has_token};

use crate::linking::linked_with;
use crate::winners::{WinnerSplit, all_leave};
use tpl_checker::{Assumptions, Below, some_end};
use tpl_graph::Graph;
use tpl_model::TaskId;
use tpl_paths::{ChildEnd, TokenSet};
use tpl_trees::{PlainRow, Row};

/// A leaf that is checked: what it assumes, and a row for each task, with what is read once for all tasks: by each token
/// those that are requested with it, by each task how it ends, and by each task those below it.
#[derive(Drop)]
pub struct Leaf<'l> {
    pub graph: &'l Graph,
    pub assumed: &'l Assumptions,
    pub winners: &'l [WinnerSplit],
    pub rows: &'l [Row],
    pub linked: &'l [TokenSet],
    pub ends: &'l [ChildEnd],
    pub below: &'l Below,
}

impl<'l> Leaf<'l> {
    /// The row of a task.
    pub fn whole_row(&self, task: TaskId) -> &'l Row
        requires leaf { IsLeaf self.now }
        requires task { is_task (graph_of self.now) task.0 }
        ensures { result.now ≡ whole_row (rows_in self.now) task.0 }
    {
        let rows = self.rows;
        &rows[task.0 as usize]
    }

    /// The row of a task, apart from tokens.
    pub fn row(&self, task: TaskId) -> &'l PlainRow
        requires leaf { IsLeaf self.now }
        requires task { is_task (graph_of self.now) task.0 }
        ensures { result.now ≡ row (plain (rows_in self.now)) task.0 }
    {
        self.whole_row(task).row()
    }

    /// The tokens that are requested when a task begins, by its row.
    pub(crate) fn asked(&self, task: TaskId) -> TokenSet
        requires leaf { IsLeaf self.now }
        requires task { is_task (graph_of self.now) task.0 }
        ensures { (k : ℕ) → has_token result k ≡ mem k (whole_row (rows_in self.now) task.0).asked }
    {
        self.whole_row(task).asked()
    }

    /// The tokens that are requested when a task has ended, by its row.
    pub(crate) fn asks(&self, task: TaskId) -> TokenSet
        requires leaf { IsLeaf self.now }
        requires task { is_task (graph_of self.now) task.0 }
        ensures { (k : ℕ) → has_token result k ≡ mem k (whole_row (rows_in self.now) task.0).asks }
    {
        self.whole_row(task).asks()
    }

    /// The task may begin, by its row.
    pub(crate) fn may_run(&self, task: TaskId) -> bool
        requires leaf { IsLeaf self.now }
        requires task { is_task (graph_of self.now) task.0 }
        ensures { result ≡ may_run (rows_in self.now) task.0 }
    {
        self.row(task).runs()
    }

    /// The task may end, by its row.
    pub(crate) fn may_end(&self, task: TaskId) -> bool
        requires leaf { IsLeaf self.now }
        requires task { is_task (graph_of self.now) task.0 }
        ensures { result ≡ may_end (plain (rows_in self.now)) task.0 }
    {
        some_end(self.row(task).ends())
    }

    /// The tokens that are requested with the own token of a task, if it has one.
    pub(crate) fn linked_with_own(&self, owner: TaskId) -> TokenSet
        requires leaf { IsLeaf self.now }
        requires task { is_task (graph_of self.now) owner.0 }
        ensures { (j : ℕ) → has_token result j ≡ token_requested_by
            (task (graph_of self.now) owner.0).token (λ k. linked (graph_of self.now) k j) }
    {
        self.graph.valid_law();
        match self.graph.own_token(owner) {
            None => TokenSet::empty(),
            Some(token) => linked_with(self.linked, token),
        }
    }

    /// The argument may win the WhenAny task.
    pub(crate) fn may_win(&self, task: TaskId, argument: TaskId) -> bool
        ensures { result ≡ (assumed_in self.now).wins task.0 argument.0 }
    {
        all_leave(self.winners, task, argument)
    }
}
