//! How a body is read.

ghost use Rattle.std.specs.Prelude.{◌≡◌, ◌||◌, slice_index_or};
ghost use Rattle.tpl_model.specs.Prelude.{ends_well, has};
ghost use Rattle.tpl_model.specs.declared.finals.Final.TheVariants.{Faulted};
ghost use Rattle.tpl_paths.specs.Prelude.{child_of, end_of, no_tokens, reading_of};

use crate::facts::Facts;
use crate::token_set::TokenSet;
use tpl_model::{Final, Finals, TaskId, TaskSet, TokenId, View};

/// How a task may end, and the facts that hold once it has.
#[derive(Drop)]
pub struct ChildEnd {
    pub ends: Finals,
    pub facts: Facts,
}

impl ChildEnd {
    /// It may end in another way than Faulted.
    pub(crate) fn ends_well(&self) -> bool
        ensures { result ≡ ends_well (end_of self.now) }
    {
        self.ends.contains(Final::RanToCompletion) || self.ends.contains(Final::Canceled)
    }

    /// It may end.
    pub(crate) fn may_end(&self) -> bool
        ensures { result ≡ (ends_well (end_of self.now) || has self.now.ends Faulted) }
    {
        self.ends_well() || self.ends.contains(Final::Faulted)
    }
}

/// How a body is read: what is known of the runs, by each token those that are requested with it,
/// the tasks that are attached children of its task, and by each task how it may end. A token past
/// the last entry has none that are requested with it, and a task past the last entry is no child.
#[derive(Drop)]
pub struct Reading<'a> {
    pub view: &'a View,
    pub linked: &'a [TokenSet],
    pub attached: &'a TaskSet,
    pub ends: &'a [ChildEnd],
}

impl<'a> Reading<'a> {
    /// The tokens that are requested with this one.
    pub(crate) fn linked_with(&self, token: TokenId) -> TokenSet
        ensures { result ≡ slice_index_or self.now.linked.now token.0 no_tokens }
    {
        let linked = self.linked;
        let at = token.0 as usize;
        if at < linked.len() {
            linked[at]
        } else {
            TokenSet::empty()
        }
    }

    /// How the child may end, if it is an attached one.
    pub(crate) fn child(&self, child: TaskId) -> Option<&'a ChildEnd>
        ensures { child_of result ≡ (reading_of self.now).child child.0 }
    {
        let ends = self.ends;
        let at = child.0 as usize;
        if self.attached.contains(child) && at < ends.len() {
            Some(&ends[at])
        } else {
            None
        }
    }
}
