//! What a row says without its tokens.

ghost use Rattle.std.specs.Prelude.{◌≡◌, map};
ghost use Rattle.tpl_draft.specs.Prelude.{task_number};

use std::marker::Model;
use tpl_model::{Finals, TaskId, TaskSet};

/// What a leaf says of one task, apart from tokens. Contracts see it with lists of the tasks' numbers.
#[derive(Drop)]
pub struct PlainRow {
    ends: Finals,
    runs: bool,
    before: TaskSet,
    past: TaskSet,
    chain: Vec<TaskId>,
}

impl Model for PlainRow {
    ghost use Rattle.std.specs.Prelude.{map};
    ghost use Rattle.tpl_model.specs.Certificate as certificate;
    ghost use Rattle.tpl_trees.specs.Coding.{plain_row_code};

    ghost Value = { certificate.PlainRow };

    ghost coded = { plain_row_code };

    ghost use Rattle.tpl_draft.specs.Ids.{task_number};

    ghost view = { λ r. record {
      ends = r.ends;
      runs = r.runs;
      before = r.before;
      past = r.past;
      chain = map task_number r.chain.items;
    } };
}

impl PlainRow {
    /// A row: how the task may end, whether it may begin, the tasks that are settled when it begins, those that are
    /// settled when it has ended, and the tasks that take its exception over, one after another, the last of which
    /// reads it (none where that isn't shown).
    pub fn new(
        ends: Finals,
        runs: bool,
        before: TaskSet,
        past: TaskSet,
        chain: Vec<TaskId>,
    ) -> PlainRow
        ensures ends { result.ends ≡ ends }
        ensures runs { result.runs ≡ runs }
        ensures before { result.before ≡ before }
        ensures past { result.past ≡ past }
        ensures chain { result.chain ≡ map task_number chain.items }
    {
        PlainRow {
            ends,
            runs,
            before,
            past,
            chain,
        }
    }

    /// How the task may end.
    pub fn ends(&self) -> Finals
        ensures { result ≡ self.now.ends }
    {
        self.ends
    }

    /// Whether it may begin.
    pub fn runs(&self) -> bool
        ensures { result ≡ self.now.runs }
    {
        self.runs
    }

    /// The tasks that are settled when it begins.
    pub fn before(&self) -> &TaskSet
        ensures { result.now ≡ self.now.before }
    {
        &self.before
    }

    /// The tasks that are settled when it has ended.
    pub fn past(&self) -> &TaskSet
        ensures { result.now ≡ self.now.past }
    {
        &self.past
    }

    /// The tasks that take its exception over, one after another; the last of them reads it.
    pub fn chain(&self) -> &[TaskId]
        ensures { map task_number result.now ≡ self.now.chain }
    {
        self.chain.as_slice()
    }
}
