//! What is said of a claim kind by kind: what it says of a run, where a leaf proves it, and what may stand in its way.

ghost use Rattle.std.specs.Prelude.{◌≡◌, IfOk, string_bytes};
ghost use Rattle.tpl_reasons.specs.Prelude.{property_words};

use crate::words::{Said, ends_text};
use std::alloc::Global;
use tpl_causes::name;
use tpl_graph::Graph;
use tpl_model::{Final, Property, TaskId};

/// What a property says of a run.
pub(crate) fn property_text(alloc: Global, graph: &Graph, property: Property) -> Said
    ensures { IfOk result (λ text. string_bytes text ≡ property_words graph.now.names property) }
{
    match property {
        Property::Final(task, ends) => {
            let (task, ends) = (name(graph, task), ends_text(ends));
            format!(in alloc; "{task} ends {ends}")
        }
        Property::After(first, second) => {
            let (first, second) = (name(graph, first), name(graph, second));
            format!(in alloc; "{second} begins only after {first} is settled")
        }
        Property::Observed(task) => {
            let task = name(graph, task);
            format!(in alloc; "the exception of {task} is observed")
        }
        Property::Never(task) => {
            let task = name(graph, task);
            format!(in alloc; "{task} never begins")
        }
        Property::Excludes(one, other) => {
            let (one, other) = (name(graph, one), name(graph, other));
            format!(in alloc; "{one} and {other} don't both begin")
        }
        Property::Runs(task) => {
            let task = name(graph, task);
            format!(in alloc; "{task} begins in each complete run")
        }
    }
}

/// When a leaf that keeps the rules proves a property.
pub(crate) fn proved_if(property: Property) -> &'static str {
    match property {
        Property::Final(_, _) => "its row has no other end",
        Property::After(_, _) => "the later task doesn't run, or its `before` has the earlier one",
        Property::Observed(_) => "its row has a `chain`, or no end Faulted, or doesn't run",
        Property::Never(_) => "its row doesn't run",
        Property::Excludes(_, _) => "one of the two rows doesn't run",
        Property::Runs(_) => {
            "it is a root or a continuation whose row has no end Canceled, or the row of a task that is no child has no end"
        }
    }
}

/// What may stand in the way of a property.
#[derive(Clone, Copy)]
pub(crate) enum Obstacle {
    /// It names the task twice.
    Twice(TaskId),
    /// The second task begins before the first is settled.
    Early(TaskId, TaskId),
    /// The task is canceled.
    Canceled(TaskId),
}

/// What may stand in the way of a property, where that can be said simply.
pub(crate) fn obstacle_to(property: Property) -> Option<Obstacle> {
    match property {
        Property::After(one, other) | Property::Excludes(one, other) if one == other => {
            Some(Obstacle::Twice(one))
        }
        Property::After(first, second) => Some(Obstacle::Early(first, second)),
        Property::Final(task, ends) if !ends.contains(Final::Canceled) => {
            Some(Obstacle::Canceled(task))
        }
        _ => None,
    }
}
