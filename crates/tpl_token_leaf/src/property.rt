//! What a closed leaf proves.

ghost use Rattle.std.specs.Prelude.{◌≡◌, ◌&&◌, not, false};
ghost use Rattle.tpl_graph.specs.Prelude.{TasksOf};
ghost use Rattle.tpl_laws.specs.Prelude.{none_complete, token_proves};
ghost use Rattle.tpl_token_leaf.specs.Prelude.{IsLeaf, assumed_in, graph_of, rows_in};
ghost use Rattle.tpl_model.specs.Prelude.{is_task, kind, may_end, plain, to_end};
ghost use Rattle.tpl_model.specs.declared.claim.Property.TheVariants.{Observed, Runs};

use crate::leaf::Leaf;
use tpl_checker::{begins_itself, ends_only_in, has_to_end};
use tpl_model::{Property, TaskId};

/// The rows of a closed leaf prove the claim's property.
pub fn proves(leaf: &Leaf<'_>, property: Property) -> bool
    requires leaf { IsLeaf leaf.now }
    requires tasks { TasksOf (graph_of leaf.now) property }
    ensures { result ≡ token_proves (graph_of leaf.now) (assumed_in leaf.now) (rows_in leaf.now)
        property }
{
    match property {
        Property::Final(task, ends) => ends_only_in(leaf.row(task).ends(), ends),
        Property::After(first, second) => {
            let runs = leaf.row(second).runs();
            !runs || leaf.row(second).before().contains(first)
        }
        Property::Observed(task) => is_observed(leaf, task),
        Property::Never(task) => !leaf.row(task).runs(),
        Property::Excludes(first, second) => {
            let first_runs = leaf.row(first).runs();
            !first_runs || !leaf.row(second).runs()
        }
        Property::Runs(task) => runs(leaf, task),
    }
}

/// The task's exception has a chain to a reader, or its body can't throw one, or no run is complete.
fn is_observed(leaf: &Leaf<'_>, task: TaskId) -> bool
    requires leaf { IsLeaf leaf.now }
    requires task { is_task (graph_of leaf.now) task.0 }
    ensures { result ≡ token_proves (graph_of leaf.now) (assumed_in leaf.now) (rows_in leaf.now)
        (Observed task) }
{
    let has_chain = !leaf.row(task).chain().is_empty();
    let faulted = leaf.row(task).ends().faulted;
    let runs = leaf.row(task).runs();
    has_chain || !faulted || !runs || !leaf.throws(task) || none_complete(leaf)
}

/// The task has begun in each complete run: it is a root or a continuation that isn't canceled, or no run is complete.
fn runs(leaf: &Leaf<'_>, task: TaskId) -> bool
    requires leaf { IsLeaf leaf.now }
    requires task { is_task (graph_of leaf.now) task.0 }
    ensures { result ≡ token_proves (graph_of leaf.now) (assumed_in leaf.now) (rows_in leaf.now)
        (Runs task) }
{
    let canceled = leaf.row(task).ends().canceled;
    begins_itself(leaf.graph, task) && !canceled || none_complete(leaf)
}

/// No run is complete: a task that is no child can't end.
fn none_complete(leaf: &Leaf<'_>) -> bool
    requires { IsLeaf leaf.now }
    ensures { result ≡ none_complete (graph_of leaf.now) (plain (rows_in leaf.now)) }
{
    leaf.graph.valid_law();
    for number in 0..leaf.graph.len() {
        let task = TaskId(number as u16);
        if is_stuck(leaf, task) {
            return true;
        }
    }
    false
}

/// The task is no child and can't end.
fn is_stuck(leaf: &Leaf<'_>, task: TaskId) -> bool
    requires leaf { IsLeaf leaf.now }
    requires task { is_task (graph_of leaf.now) task.0 }
    ensures { result ≡ (to_end (kind (graph_of leaf.now) task.0) false
        && not (may_end (plain (rows_in leaf.now)) task.0)) }
{
    has_to_end(leaf.graph, task) && !leaf.may_end(task)
}
