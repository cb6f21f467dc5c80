//! What a row says of when its task has ended holds then (the rules K4 and K5).

ghost use Rattle.std.specs.Prelude.{◌≡◌, ◌&&◌, ◌||◌, filter, length, map};
ghost use Rattle.tpl_draft.specs.Prelude.{task_number};
ghost use Rattle.tpl_graph.specs.Prelude.{AreTasks};
ghost use Rattle.tpl_laws.specs.Prelude.{all_in, each_ending, implies, settled_below};
ghost use Rattle.tpl_token_leaf.specs.Prelude.{AreLeft, IsLeaf, assumed_in, ends_as, ends_by_ways, graph_of, holds_in_all, kind_left_in, rows_in};
ghost use Rattle.tpl_model.specs.Prelude.{Fact, is_task, kind, may_end, once_ended, plain, some_in};
ghost use Rattle.tpl_paths.specs.Prelude.{has_fact};

use crate::leaf::Leaf;
use crate::ways::{Ways, common};
use tpl_graph::Role;
use tpl_model::TaskId;
use tpl_paths::Facts;

/// What the row of a task says of its end holds once it has ended.
pub(crate) fn past(leaf: &Leaf<'_>, task: TaskId, ways: &Ways) -> bool
    requires leaf { IsLeaf leaf.now }
    requires task { is_task (graph_of leaf.now) task.0 }
    requires ways { AreLeft leaf.now task.0 ways.now }
    ensures { result ≡ each_ending (rows_in leaf.now) task.0
        (ends_as leaf.now task.0 (kind_left_in leaf.now task.0)) }
{
    match end_facts(leaf, task, ways) {
        None => true,
        Some(limit) => leaf.ends_within(task, &limit),
    }
}

/// What holds once the task has ended, which is all that its row may say of its end: each fact, where none are listed.
pub fn end_facts(leaf: &Leaf<'_>, task: TaskId, ways: &Ways) -> Option<Facts>
    requires leaf { IsLeaf leaf.now }
    requires task { is_task (graph_of leaf.now) task.0 }
    requires ways { AreLeft leaf.now task.0 ways.now }
    ensures { (f : Fact) → holds_in_all result f
        ≡ ends_as leaf.now task.0 (kind_left_in leaf.now task.0) f }
{
    match leaf.graph.role(task) {
        Role::Root => in_all_ways(leaf, task, ways),
        Role::Child => in_all_ways(leaf, task, ways),
        Role::Then(_) => in_all_ways(leaf, task, ways),
        Role::All(args) => Some(after_some(leaf, args)),
        Role::Any(args) => after_winners(leaf, task, args),
    }
}

/// What holds in each way, and that each task below has ended: a parent ends after its attached children.
fn in_all_ways(leaf: &Leaf<'_>, task: TaskId, ways: &Ways) -> Option<Facts>
    requires leaf { IsLeaf leaf.now }
    requires task { is_task (graph_of leaf.now) task.0 }
    requires ways { AreLeft leaf.now task.0 ways.now }
    ensures { (f : Fact) → holds_in_all result f
        ≡ ends_by_ways leaf.now task.0 (kind (graph_of leaf.now) task.0) f }
{
    match &ways.common {
        None => None,
        Some(common) => Some(with_below(leaf, task, common)),
    }
}

/// The facts, and that each task below has ended.
fn with_below(leaf: &Leaf<'_>, task: TaskId, facts: &Facts) -> Facts
    requires leaf { IsLeaf leaf.now }
    requires task { is_task (graph_of leaf.now) task.0 }
    ensures { (f : Fact) → has_fact result f ≡ (settled_below (graph_of leaf.now) task.0 f
        || has_fact facts.now f) }
{
    leaf.graph.valid_law();
    Facts {
        tasks: leaf.below.of(task).union(&facts.tasks),
        tokens: facts.tokens,
    }
}

/// What holds once some of the tasks has ended: WhenAll ends after each.
fn after_some(leaf: &Leaf<'_>, tasks: &[TaskId]) -> Facts
    requires leaf { IsLeaf leaf.now }
    requires tasks { AreTasks (length (graph_of leaf.now).tasks) tasks.now }
    ensures { (f : Fact) → has_fact result f ≡ some_in (λ y. once_ended (rows_in leaf.now) y f)
        (map task_number tasks.now) }
{
    let mut facts = Facts::none();
    for task in tasks {
        facts = facts.union(&leaf.once_ended(*task));
    }
    facts
}

/// What holds once any of the arguments of a WhenAny task has ended that may win it: each fact, where none may end.
fn after_winners(leaf: &Leaf<'_>, task: TaskId, args: &[TaskId]) -> Option<Facts>
    requires leaf { IsLeaf leaf.now }
    requires args { AreTasks (length (graph_of leaf.now).tasks) args.now }
    ensures { (f : Fact) → holds_in_all result f ≡ all_in
        (λ y. implies (may_end (plain (rows_in leaf.now)) y) (once_ended (rows_in leaf.now) y f))
        (filter ((assumed_in leaf.now).wins task.0) (map task_number args.now)) }
{
    let mut facts = None;
    for arg in args {
        if may_end_it(leaf, task, *arg) {
            facts = common(facts, Some(leaf.once_ended(*arg)));
        }
    }
    facts
}

/// The argument may win the WhenAny task, and may end.
fn may_end_it(leaf: &Leaf<'_>, task: TaskId, argument: TaskId) -> bool
    requires leaf { IsLeaf leaf.now }
    requires argument { is_task (graph_of leaf.now) argument.0 }
    ensures { result ≡ ((assumed_in leaf.now).wins task.0 argument.0
        && may_end (plain (rows_in leaf.now)) argument.0) }
{
    leaf.may_win(task, argument) && leaf.may_end(argument)
}
