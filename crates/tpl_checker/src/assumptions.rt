//! What a leaf assumes.

ghost use Rattle.std.specs.Prelude.{◌≡◌, ◌<◌, ◌&&◌, Bool, true, option_map};
ghost use Rattle.tpl_checker.specs.Prelude.{assumed_of, nothing_assumed, with_ended, with_kept, with_quiet, with_sure};
ghost use Rattle.tpl_draft.specs.Prelude.{token_number};
ghost use Rattle.tpl_model.specs.Prelude.{end_left, has, is_final, is_loud, is_task, known, may_have, same, with_end, with_input};

use crate::left::Left;
use tpl_graph::Graph;
use tpl_model::{
    Final, Finals, InputId, MOST_INPUTS, MOST_SITES, MOST_TASKS, MOST_TOKENS, Possible, SiteId,
    TaskId, TokenId, View,
};

/// The one of these values that is `value`, if it is among them.
fn narrowed(possible: Possible, value: bool) -> Possible
    ensures { (b : Bool) → may_have result b ≡ (may_have possible b && same value b) }
{
    Possible {
        on_true: possible.on_true && value,
        on_false: possible.on_false && !value,
    }
}

/// The set of this one way to end.
fn only(status: Final) -> Finals
    ensures { (f : Final) → has result f ≡ is_final status f }
{
    Finals {
        ran: status == Final::RanToCompletion,
        canceled: status == Final::Canceled,
        faulted: status == Final::Faulted,
    }
}

/// What a leaf assumes: the values that each input may have, the tokens that are never requested, the
/// ends that its splits leave to tasks and those that what is given does, and the sites whose jobs don't
/// fail. It is 1,088 bytes long.
#[derive(Drop)]
pub struct Assumptions {
    pub(crate) inputs: [Possible; MOST_INPUTS],
    pub(crate) quiet: [bool; MOST_TOKENS],
    pub(crate) left: Left,
    pub(crate) ended: Left,
    pub(crate) sure: [bool; MOST_SITES],
}

impl Assumptions {
    /// Nothing is assumed.
    pub(crate) fn none() -> Assumptions
        ensures { assumed_of result ≡ nothing_assumed }
    {
        Assumptions {
            inputs: [Possible {
                on_true: true,
                on_false: true,
            }; MOST_INPUTS],
            quiet: [false; MOST_TOKENS],
            left: Left::all(),
            ended: Left::all(),
            sure: [false; MOST_SITES],
        }
    }

    /// A copy.
    pub fn copy(&self) -> Assumptions
        ensures { result ≡ self.now }
    {
        Assumptions {
            inputs: self.inputs,
            quiet: self.quiet,
            left: self.left.copy(),
            ended: self.ended.copy(),
            sure: self.sure,
        }
    }

    /// The assumptions on the branch of a split where the input, one of the first `MOST_INPUTS`, has this value.
    pub fn with_input(&self, input: InputId, value: bool) -> Assumptions
        requires { input.0 < MOST_INPUTS }
        ensures { assumed_of result ≡ with_input (assumed_of self.now) input.0 value }
    {
        let mut assumed = self.copy();
        assumed.inputs[input.0 as usize] = narrowed(self.inputs[input.0 as usize], value);
        assumed
    }

    /// The assumptions, and that the token is never requested.
    pub(crate) fn with_quiet(&self, token: TokenId) -> Assumptions
        requires { token.0 < MOST_TOKENS }
        ensures { assumed_of result ≡ with_quiet (assumed_of self.now) token.0 }
    {
        let mut assumed = self.copy();
        assumed.quiet[token.0 as usize] = true;
        assumed
    }

    /// The assumptions on the branch of a split where the task, one of the first `MOST_TASKS`, ends in this way
    /// if it ends.
    pub fn with_end(&self, task: TaskId, status: Final) -> Assumptions
        requires { task.0 < MOST_TASKS }
        ensures { assumed_of result ≡ with_end (assumed_of self.now) task.0 status }
    {
        let mut assumed = self.copy();
        assumed.assume_end(task, status);
        assumed
    }

    /// Assumes besides that the task, one of the first `MOST_TASKS`, ends in this way if it ends.
    pub fn assume_end(&mut self, task: TaskId, status: Final)
        requires { task.0 < MOST_TASKS }
        ensures { assumed_of self.new ≡ with_end (assumed_of self.old) task.0 status }
    {
        self.left = self.left.keeping(task, only(status));
    }

    /// Assumes besides that the task, one of the first `MOST_TASKS`, ends in one of these ways if it ends.
    pub fn keep_ends(&mut self, task: TaskId, ends: Finals)
        requires { task.0 < MOST_TASKS }
        ensures { assumed_of self.new ≡ with_kept (assumed_of self.old) task.0 ends }
    {
        self.left = self.left.keeping(task, ends);
    }

    /// The assumptions, and that the task, one of the first `MOST_TASKS`, is given to end in one of these ways if
    /// it ends.
    pub(crate) fn with_ended(&self, task: TaskId, ends: Finals) -> Assumptions
        requires { task.0 < MOST_TASKS }
        ensures { assumed_of result ≡ with_ended (assumed_of self.now) task.0 ends }
    {
        let mut assumed = self.copy();
        assumed.ended = self.ended.keeping(task, ends);
        assumed
    }

    /// The assumptions, and that the job of the site doesn't fail.
    pub(crate) fn with_sure(&self, site: SiteId) -> Assumptions
        requires { site.0 < MOST_SITES }
        ensures { assumed_of result ≡ with_sure (assumed_of self.now) site.0 }
    {
        let mut assumed = self.copy();
        assumed.sure[site.0 as usize] = true;
        assumed
    }

    /// The task may end in this way, by the splits and by what is given.
    pub fn may_end(&self, task: TaskId, status: Final) -> bool
        ensures { result ≡ end_left (assumed_of self.now) task.0 status }
    {
        self.left.leaves(task, status) && self.ended.leaves(task, status)
    }

    /// The splits alone, whatever is given, leave the task this end.
    pub fn is_left(&self, task: TaskId, status: Final) -> bool
        ensures { result ≡ (assumed_of self.now).left task.0 status }
    {
        self.left.leaves(task, status)
    }

    /// The token is never requested.
    pub fn is_quiet(&self, token: TokenId) -> bool
        ensures { result ≡ (assumed_of self.now).quiet token.0 }
    {
        let at = token.0 as usize;
        at < MOST_TOKENS && self.quiet[at]
    }

    /// The task has a token that may be requested.
    pub fn is_loud(&self, graph: &Graph, task: TaskId) -> bool
        requires { is_task graph.now.graph task.0 }
        ensures { result ≡ is_loud graph.now.graph (assumed_of self.now) task.0 }
    {
        match graph.own_token(task) {
            None => false,
            Some(token) => !self.is_quiet(token),
        }
    }

    /// What the body of a task with this token sees, whose subject may have ended in these ways.
    pub fn view(&self, own: Option<TokenId>, subject: Finals) -> View
        ensures { known result ≡ record {
          possible = (assumed_of self.now).possible;
          quiet = (assumed_of self.now).quiet;
          own = option_map token_number own;
          subject = has subject;
          sure = (assumed_of self.now).sure;
        } }
    {
        View {
            inputs: self.inputs,
            quiet: self.quiet,
            own,
            subject,
            sure: self.sure,
        }
    }
}
