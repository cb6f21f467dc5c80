//! Facts by the rows of a leaf.

ghost use Rattle.std.specs.Prelude.{◌≡◌, ◌||◌, Bool};
ghost use Rattle.tpl_laws.specs.Prelude.{before_begin, each_begin, each_ending, known_there, own_requested, settled_before};
ghost use Rattle.tpl_token_leaf.specs.Prelude.{IsLeaf, graph_of, rows_in};
ghost use Rattle.tpl_model.specs.Prelude.{Fact, begins_with, ends_with, is_task, kind, once_ended};
ghost use Rattle.tpl_paths.specs.Prelude.{has_fact, knowledge_of};

use crate::leaf::Leaf;
use tpl_checker::parent;
use tpl_graph::Role;
use tpl_model::{TaskId, TaskSet};
use tpl_paths::{Facts, Knowledge, TokenSet};

impl<'l> Leaf<'l> {
    /// The facts that hold when a task begins, by its row.
    pub(crate) fn begins_with(&self, task: TaskId) -> Facts
        requires leaf { IsLeaf self.now }
        requires task { is_task (graph_of self.now) task.0 }
        ensures { (f : Fact) → has_fact result f ≡ begins_with (rows_in self.now) task.0 f }
    {
        Facts {
            tasks: self.row(task).before().copy(),
            tokens: self.asked(task),
        }
    }

    /// The facts that hold when a task has ended, by its row.
    pub(crate) fn ends_with(&self, task: TaskId) -> Facts
        requires leaf { IsLeaf self.now }
        requires task { is_task (graph_of self.now) task.0 }
        ensures { (f : Fact) → has_fact result f ≡ ends_with (rows_in self.now) task.0 f }
    {
        Facts {
            tasks: self.row(task).past().copy(),
            tokens: self.asks(task),
        }
    }

    /// The same, and that the task has ended.
    pub(crate) fn once_ended(&self, task: TaskId) -> Facts
        requires leaf { IsLeaf self.now }
        requires task { is_task (graph_of self.now) task.0 }
        ensures { (f : Fact) → has_fact result f ≡ once_ended (rows_in self.now) task.0 f }
    {
        self.graph.valid_law();
        let mut facts = self.ends_with(task);
        facts.tasks.insert(task);
        facts
    }

    /// The tasks that are settled when a task begins, by its row.
    pub(crate) fn settled_before(&self, task: TaskId) -> Facts
        requires leaf { IsLeaf self.now }
        requires task { is_task (graph_of self.now) task.0 }
        ensures { (f : Fact) → has_fact result f ≡ settled_before (rows_in self.now) task.0 f }
    {
        Facts {
            tasks: self.row(task).before().copy(),
            tokens: TokenSet::empty(),
        }
    }

    /// Each fact with which the row of a task lets it begin is one of these.
    pub(crate) fn begins_within(&self, task: TaskId, limit: &Facts) -> bool
        requires leaf { IsLeaf self.now }
        requires task { is_task (graph_of self.now) task.0 }
        ensures { (test : Fact → Bool) → ((f : Fact) → has_fact limit.now f ≡ test f)
            → result ≡ each_begin (rows_in self.now) task.0 test }
    {
        self.begins_with(task).is_subset(limit)
    }

    /// Each fact with which the row of a task lets it end is one of these.
    pub(crate) fn ends_within(&self, task: TaskId, limit: &Facts) -> bool
        requires leaf { IsLeaf self.now }
        requires task { is_task (graph_of self.now) task.0 }
        ensures { (test : Fact → Bool) → ((f : Fact) → has_fact limit.now f ≡ test f)
            → result ≡ each_ending (rows_in self.now) task.0 test }
    {
        self.ends_with(task).is_subset(limit)
    }

    /// The own token of a task is requested, and those that are linked to it.
    pub(crate) fn own_requested(&self, task: TaskId) -> Facts
        requires leaf { IsLeaf self.now }
        requires task { is_task (graph_of self.now) task.0 }
        ensures { (f : Fact) → has_fact result f ≡ own_requested (graph_of self.now) task.0 f }
    {
        Facts {
            tasks: TaskSet::empty(),
            tokens: self.linked_with_own(task),
        }
    }

    /// What holds once a task may begin, besides what its row says: after its antecedent, or when its parent began.
    pub(crate) fn before_begin(&self, task: TaskId) -> Facts
        requires leaf { IsLeaf self.now }
        requires task { is_task (graph_of self.now) task.0 }
        ensures { (f : Fact) → has_fact result f ≡ before_begin (graph_of self.now)
            (rows_in self.now) task.0 (kind (graph_of self.now) task.0) f }
    {
        self.graph.valid_law();
        match self.graph.role(task) {
            Role::Root => Facts::none(),
            Role::Child => match parent(self.graph, task) {
                None => Facts::none(),
                Some(parent) => self.settled_before(parent),
            },
            Role::Then(antecedent) => self.once_ended(antecedent),
            Role::All(_) => Facts::none(),
            Role::Any(_) => Facts::none(),
        }
    }
}

/// The facts, with the tokens that paths know.
pub(crate) fn with_known(facts: &Facts, known: &Knowledge) -> Facts
    ensures { (f : Fact) → has_fact result f ≡ (has_fact facts.now f
        || known_there (knowledge_of known.now) f) }
{
    Facts {
        tasks: facts.tasks.copy(),
        tokens: facts.tokens.union(known.requested),
    }
}
