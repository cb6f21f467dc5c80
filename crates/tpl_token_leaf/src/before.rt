//! What a row says of when its task begins holds then (the rule K3).

ghost use Rattle.std.specs.Prelude.{◌≡◌, ◌&&◌, ℕ, false};
ghost use Rattle.tpl_laws.specs.Prelude.{if_known, implies};
ghost use Rattle.tpl_token_leaf.specs.Prelude.{IsLeaf, assumed_in, begin_holds, begins_as, graph_of, rows_in, runs_as};
ghost use Rattle.tpl_model.specs.Prelude.{Child, Fact, is_task, kind, known_at_start, may_run, mem, whole_row};
ghost use Rattle.tpl_paths.specs.Prelude.{has_fact, has_token};

use crate::facts::with_known;
use crate::leaf::Leaf;
use tpl_checker::parent;
use tpl_graph::Role;
use tpl_model::TaskId;
use tpl_paths::{Facts, TokenSet};

/// What the row of a task that runs says of its begin holds then.
pub(crate) fn before(leaf: &Leaf<'_>, task: TaskId) -> bool
    requires leaf { IsLeaf leaf.now }
    requires task { is_task (graph_of leaf.now) task.0 }
    ensures { result ≡ implies (may_run (rows_in leaf.now) task.0)
        (begin_holds leaf.now task.0 (kind (graph_of leaf.now) task.0)) }
{
    !leaf.may_run(task) || holds_at_begin(leaf, task)
}

/// Nothing is known when a root begins; when a continuation does, its antecedent has ended; when a child does, what
/// held when its parent began, and what the parent's paths know where they start it.
fn holds_at_begin(leaf: &Leaf<'_>, task: TaskId) -> bool
    requires leaf { IsLeaf leaf.now }
    requires task { is_task (graph_of leaf.now) task.0 }
    ensures { result ≡ begin_holds leaf.now task.0 (kind (graph_of leaf.now) task.0) }
{
    match leaf.graph.role(task) {
        Role::Root => leaf.begins_within(task, &Facts::none()),
        Role::Child => holds_at_start(leaf, task),
        Role::Then(antecedent) => leaf.begins_within(task, &leaf.once_ended(antecedent)),
        Role::All(_) => true,
        Role::Any(_) => true,
    }
}

fn holds_at_start(leaf: &Leaf<'_>, task: TaskId) -> bool
    requires leaf { IsLeaf leaf.now }
    requires task { is_task (graph_of leaf.now) task.0 }
    ensures { result ≡ begin_holds leaf.now task.0 Child }
{
    match parent(leaf.graph, task) {
        None => true,
        Some(parent) => {
            let limit = Facts {
                tasks: leaf.row(parent).before().copy(),
                tokens: known_tokens(leaf, parent, task),
            };
            leaf.begins_within(task, &limit)
        }
    }
}

/// Of the tokens in the child's row those that the parent's paths know where they start it: all, where none does.
fn known_tokens(leaf: &Leaf<'_>, parent: TaskId, task: TaskId) -> TokenSet
    requires leaf { IsLeaf leaf.now }
    requires parent { is_task (graph_of leaf.now) parent.0 }
    requires task { is_task (graph_of leaf.now) task.0 }
    ensures { (k : ℕ) → has_token result k ≡ (mem k (whole_row (rows_in leaf.now) task.0).asked
        && if_known (known_at_start (graph_of leaf.now) (assumed_in leaf.now) (rows_in leaf.now)
        parent.0 task.0) (λ known. known.requested k)) }
{
    let asked = leaf.asked(task);
    match leaf.known_at_start(parent, task) {
        None => asked,
        Some(known) => asked.intersection(known.requested),
    }
}

/// What holds when a task begins whose row doesn't run, though it has to: all that its row may say of its begin.
pub fn begin_facts(leaf: &Leaf<'_>, task: TaskId) -> Facts
    requires leaf { IsLeaf leaf.now }
    requires task { is_task (graph_of leaf.now) task.0 }
    requires begins { runs_as leaf.now task.0 (kind (graph_of leaf.now) task.0) ≡ false }
    ensures { (f : Fact) → has_fact result f
        ≡ begins_as leaf.now task.0 (kind (graph_of leaf.now) task.0) f }
{
    match leaf.graph.role(task) {
        Role::Root => Facts::none(),
        Role::Child => start_facts(leaf, task),
        Role::Then(antecedent) => leaf.once_ended(antecedent),
        Role::All(_) => Facts::none(),
        Role::Any(_) => Facts::none(),
    }
}

/// The same of a child: what held when its parent began, and what the parent's paths know where they start it.
fn start_facts(leaf: &Leaf<'_>, task: TaskId) -> Facts
    requires leaf { IsLeaf leaf.now }
    requires task { is_task (graph_of leaf.now) task.0 }
    requires begins { runs_as leaf.now task.0 Child ≡ false }
    ensures { (f : Fact) → has_fact result f ≡ begins_as leaf.now task.0 Child f }
{
    match parent(leaf.graph, task) {
        None => Facts::none(),
        Some(parent) => match leaf.known_at_start(parent, task) {
            None => Facts::none(),
            Some(known) => with_known(&leaf.settled_before(parent), &known),
        },
    }
}
