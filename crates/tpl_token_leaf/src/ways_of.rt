//! The ways to end that a leaf leaves to a task with a body.

ghost use Rattle.std.specs.Prelude.{◌≡◌, ◌&&◌, Bool};
ghost use Rattle.tpl_laws.specs.Prelude.{each_body_end, implies};
ghost use Rattle.tpl_token_leaf.specs.Prelude.{AreDrops, AreLeft, AreWays, IsLeaf, assumed_in, each_drop_under, each_end_so, graph_of, has_begun_with, holds_as, rows_in};
ghost use Rattle.tpl_model.specs.Prelude.{Child, Continues, Fact, Root, Way, is_loud, is_task, kind, may_run, way_final};
ghost use Rattle.tpl_model.specs.declared.finals.Final.TheVariants as finals;
ghost use Rattle.tpl_paths.specs.Prelude.{has_fact};

use crate::facts::with_known;
use crate::leaf::Leaf;
use crate::truths::both;
use crate::ways::Ways;
use tpl_checker::{excluded, parent, some_end};
use tpl_graph::Role;
use tpl_model::{Final, TaskId};
use tpl_paths::Facts;

/// The ways to end that are left to a task.
pub fn ways_to_end(leaf: &Leaf<'_>, task: TaskId) -> Ways
    requires leaf { IsLeaf leaf.now }
    requires task { is_task (graph_of leaf.now) task.0 }
    ensures { AreLeft leaf.now task.0 result }
{
    let by_body = body_ways(leaf, task);
    let canceled = leaf.assumed.may_end(task, Final::Canceled);
    by_body.join(drop_ways(leaf, task).only_if(canceled))
}

/// Those in which its body ends it.
fn body_ways(leaf: &Leaf<'_>, task: TaskId) -> Ways
    requires leaf { IsLeaf leaf.now }
    requires task { is_task (graph_of leaf.now) task.0 }
    ensures { AreWays (each_body_end (graph_of leaf.now) (assumed_in leaf.now) (rows_in leaf.now)
        task.0) (holds_as leaf.now task.0 (kind (graph_of leaf.now) task.0)) result }
{
    if !leaf.may_run(task) {
        return Ways::none();
    }
    let begun = begun(leaf, task);
    let ran = body_way(leaf, task, Final::RanToCompletion, &begun);
    let canceled = body_way(leaf, task, Final::Canceled, &begun);
    let faulted = body_way(leaf, task, Final::Faulted, &begun);
    ran.join(canceled.join(faulted))
}

/// What holds once it has begun.
fn begun(leaf: &Leaf<'_>, task: TaskId) -> Facts
    requires leaf { IsLeaf leaf.now }
    requires task { is_task (graph_of leaf.now) task.0 }
    ensures { (f : Fact) → has_fact result f ≡ has_begun_with leaf.now task.0 f }
{
    leaf.begins_with(task).union(&leaf.before_begin(task))
}

/// That in which its body ends it so, where these facts hold when it begins.
fn body_way(leaf: &Leaf<'_>, task: TaskId, status: Final, begun: &Facts) -> Ways
    requires leaf { IsLeaf leaf.now }
    requires task { is_task (graph_of leaf.now) task.0 }
    requires begun { (f : Fact) → has_fact begun.now f ≡ has_begun_with leaf.now task.0 f }
    ensures { AreWays (each_end_so leaf.now task.0 status)
        (holds_as leaf.now task.0 (kind (graph_of leaf.now) task.0)) result }
{
    if !leaf.assumed.may_end(task, status) {
        return Ways::none();
    }
    match leaf.known_at_end(task, status) {
        None => Ways::none(),
        Some(known) => Ways::one(status, begun.union(&known.later)),
    }
}

/// Those in which it is canceled before it begins.
fn drop_ways(leaf: &Leaf<'_>, task: TaskId) -> Ways
    requires leaf { IsLeaf leaf.now }
    requires task { is_task (graph_of leaf.now) task.0 }
    ensures { AreDrops leaf.now task.0 (kind (graph_of leaf.now) task.0) result }
{
    match leaf.graph.role(task) {
        Role::Root => root_drops(leaf, task),
        Role::Child => child_drops(leaf, task),
        Role::Then(antecedent) => continuation_drops(leaf, task, antecedent),
        Role::All(_) => Ways::none(),
        Role::Any(_) => Ways::none(),
    }
}

fn root_drops(leaf: &Leaf<'_>, task: TaskId) -> Ways
    requires leaf { IsLeaf leaf.now }
    requires task { is_task (graph_of leaf.now) task.0 }
    ensures { AreDrops leaf.now task.0 Root result }
{
    let loud = leaf.assumed.is_loud(leaf.graph, task);
    canceled_if(loud, leaf.own_requested(task))
}

/// The way to be canceled in which these facts hold, if the test does.
fn canceled_if(test: bool, facts: Facts) -> Ways
    ensures { (way : Way) (holds : Fact → Way → Bool) → way_final way ≡ finals.Canceled
        → ((f : Fact) → holds f way ≡ has_fact facts f)
        → AreWays (λ (passes : Way → Bool). implies test (passes way)) holds result }
{
    Ways::one(Final::Canceled, facts).only_if(test)
}

fn child_drops(leaf: &Leaf<'_>, task: TaskId) -> Ways
    requires leaf { IsLeaf leaf.now }
    requires task { is_task (graph_of leaf.now) task.0 }
    ensures { AreDrops leaf.now task.0 Child result }
{
    match parent(leaf.graph, task) {
        None => Ways::none(),
        Some(parent) => started_drops(leaf, task, parent),
    }
}

fn started_drops(leaf: &Leaf<'_>, task: TaskId, parent: TaskId) -> Ways
    requires leaf { IsLeaf leaf.now }
    requires task { is_task (graph_of leaf.now) task.0 }
    requires parent { is_task (graph_of leaf.now) parent.0 }
    ensures { AreWays (each_drop_under leaf.now parent.0 task.0) (holds_as leaf.now task.0 Child)
        result }
{
    if !may_drop(leaf, task, parent) {
        return Ways::none();
    }
    match leaf.known_at_start(parent, task) {
        None => Ways::none(),
        Some(known) => {
            let before = with_known(&leaf.settled_before(parent), &known);
            canceled_if(true, leaf.own_requested(task).union(&before))
        }
    }
}

/// The child may be canceled before it begins, which its parent may start.
fn may_drop(leaf: &Leaf<'_>, task: TaskId, parent: TaskId) -> bool
    requires leaf { IsLeaf leaf.now }
    requires task { is_task (graph_of leaf.now) task.0 }
    requires parent { is_task (graph_of leaf.now) parent.0 }
    ensures { result ≡ (is_loud (graph_of leaf.now) (assumed_in leaf.now).assumed task.0
        && may_run (rows_in leaf.now) parent.0) }
{
    leaf.assumed.is_loud(leaf.graph, task) && leaf.may_run(parent)
}

fn continuation_drops(leaf: &Leaf<'_>, task: TaskId, antecedent: TaskId) -> Ways
    requires leaf { IsLeaf leaf.now }
    requires task { is_task (graph_of leaf.now) task.0 }
    requires antecedent { is_task (graph_of leaf.now) antecedent.0 }
    ensures { AreDrops leaf.now task.0 (Continues antecedent.0) result }
{
    let loud = leaf.assumed.is_loud(leaf.graph, task);
    let options = leaf.graph.options(task);
    let lazy = options.lazy_cancellation();
    let excluded_end = some_end(excluded(leaf.row(antecedent).ends(), options));
    let may_end = leaf.may_end(antecedent);
    let own = leaf.own_requested(task);
    let after = leaf.once_ended(antecedent);
    let late = canceled_if(both(loud, may_end), own.union(&after));
    let early = canceled_if(both(loud, !lazy), own);
    let not_allowed = canceled_if(excluded_end, after);
    early.join(late.join(not_allowed))
}
