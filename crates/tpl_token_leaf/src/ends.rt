//! A row has each way in which its task may end (the rule K2).

ghost use Rattle.std.specs.Prelude.{◌≡◌, ◌&&◌, filter, length, map};
ghost use Rattle.tpl_draft.specs.Prelude.{task_number};
ghost use Rattle.tpl_graph.specs.Prelude.{AreTasks};
ghost use Rattle.tpl_laws.specs.Prelude.{all_may_end, token_ends_by};
ghost use Rattle.tpl_token_leaf.specs.Prelude.{AreLeft, IsLeaf, assumed_in, graph_of, has_to_end_as, kind_left_in, rows_in};
ghost use Rattle.tpl_model.specs.Prelude.{end_left, has, is_final, is_task, may_end, plain, some_in};
ghost use Rattle.tpl_model.specs.declared.finals.Final.TheVariants.{RanToCompletion};

use crate::leaf::Leaf;
use crate::ways::Ways;
use tpl_checker::{AllEnds, ends_only_in, some_end};
use tpl_graph::Role;
use tpl_model::{Final, Finals, TaskId};

/// Each way in which the task may end stands in its row, but for those that the leaf leaves out.
pub(crate) fn ends(leaf: &Leaf<'_>, task: TaskId, ways: &Ways) -> bool
    requires leaf { IsLeaf leaf.now }
    requires task { is_task (graph_of leaf.now) task.0 }
    requires ways { AreLeft leaf.now task.0 ways.now }
    ensures { result ≡ token_ends_by (graph_of leaf.now) (assumed_in leaf.now) (rows_in leaf.now)
        task.0 (kind_left_in leaf.now task.0) }
{
    ends_only_in(demanded(leaf, task, ways), leaf.row(task).ends())
}

/// The ways in which the task may end, but for those that the leaf leaves out: its row has to have them.
pub fn demanded(leaf: &Leaf<'_>, task: TaskId, ways: &Ways) -> Finals
    requires leaf { IsLeaf leaf.now }
    requires task { is_task (graph_of leaf.now) task.0 }
    requires ways { AreLeft leaf.now task.0 ways.now }
    ensures { (f : Final) → has result f
        ≡ has_to_end_as leaf.now task.0 (kind_left_in leaf.now task.0) f }
{
    match leaf.graph.role(task) {
        Role::Root => ways.ends,
        Role::Child => ways.ends,
        Role::Then(_) => ways.ends,
        Role::All(args) => left(leaf, task, all_end(leaf, args)),
        Role::Any(args) => left(leaf, task, any_end(leaf, task, args)),
    }
}

/// Of these ways to end, those that are left to the task.
fn left(leaf: &Leaf<'_>, task: TaskId, ends: Finals) -> Finals
    ensures { (f : Final) → has result f ≡ (has ends f
        && end_left (assumed_in leaf.now).assumed task.0 f) }
{
    Finals {
        ran: ends.ran && leaf.assumed.may_end(task, Final::RanToCompletion),
        canceled: ends.canceled && leaf.assumed.may_end(task, Final::Canceled),
        faulted: ends.faulted && leaf.assumed.may_end(task, Final::Faulted),
    }
}

/// How a WhenAll task may end: Faulted if one argument is, else Canceled if one is, else RanToCompletion.
fn all_end(leaf: &Leaf<'_>, args: &[TaskId]) -> Finals
    requires leaf { IsLeaf leaf.now }
    requires args { AreTasks (length (graph_of leaf.now).tasks) args.now }
    ensures { (f : Final) → has result f ≡ all_may_end (plain (rows_in leaf.now))
        (map task_number args.now) f }
{
    let mut found = AllEnds::none();
    for arg in args {
        found = found.with(leaf.row(*arg).ends());
    }
    found.ends()
}

/// How a WhenAny task may end: RanToCompletion, if an argument may end that may win.
fn any_end(leaf: &Leaf<'_>, task: TaskId, args: &[TaskId]) -> Finals
    requires leaf { IsLeaf leaf.now }
    requires args { AreTasks (length (graph_of leaf.now).tasks) args.now }
    ensures { (f : Final) → has result f ≡ (is_final RanToCompletion f
        && some_in (may_end (plain (rows_in leaf.now)))
        (filter ((assumed_in leaf.now).wins task.0) (map task_number args.now))) }
{
    Finals {
        ran: some_end(leaf.winner_ends(task, args)),
        canceled: false,
        faulted: false,
    }
}
