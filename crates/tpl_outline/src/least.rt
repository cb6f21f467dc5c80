//! The least rows of a leaf, and whether they prove a property.

ghost use Rattle.std.specs.Prelude.{◌≡◌, ◌≤◌, length, is_some, IfOk, IfSome, All};
ghost use Rattle.tpl_outline.specs.Prelude.{IsAnswer, IsStageOf};

use crate::chain::chain;
use crate::goal::is_reached;
use crate::outline::Outline;
use crate::pass::whole_outline;
use crate::rows::{Parts, rows};
use crate::setting::Setting;
use std::alloc::{AllocError, Global};
use tpl_model::{MOST_IN_CHAIN, Property, TaskId, TaskSet};
use tpl_trees::Row;

/// The chain of the observed task, or an empty one, if the least rows prove the property with it.
/// The outline and the tasks are those that bear on the property.
pub fn reached(
    alloc: Global,
    setting: Setting<'_>,
    outline: &Outline,
    property: Property,
    tasks: &TaskSet,
) -> Result<Option<Vec<TaskId>>, AllocError>
    ensures shown { IfOk result (λ o. IsAnswer property outline.now (is_some o)) }
    ensures chain { IfOk result (λ o. IfSome o (λ chain. length chain.items ≤ MOST_IN_CHAIN)) }
{
    let chain = match observed(property) {
        Some(task) => chain(alloc, setting, task)?,
        None => Vec::new(alloc),
    };
    if is_proved(setting, outline, property, tasks, !chain.is_empty()) {
        Ok(Some(chain))
    } else {
        Ok(None)
    }
}

/// Whether the least rows prove the property, where the task that it says to be observed has a chain or
/// not. The outline and the tasks are those that bear on the property.
pub fn is_proved(
    setting: Setting<'_>,
    outline: &Outline,
    property: Property,
    tasks: &TaskSet,
    has_chain: bool,
) -> bool
    ensures { IsAnswer property outline.now result }
{
    let parts = Parts {
        graph: setting.graph,
        below: setting.below,
        followers: setting.followers,
        assumed: setting.assumed,
        outline,
        rules: setting.rules,
    };
    is_reached(parts, property, tasks, has_chain)
}

/// The least rows of a leaf, one for each task, with this chain of the task that the property says
/// to be observed. Whether they are accepted the checker says, and no clause.
pub fn least_rows(
    alloc: Global,
    setting: Setting<'_>,
    property: Property,
    chain: &[TaskId],
) -> Result<Vec<Row>, AllocError>
    requires { All (IsStageOf setting.graph.now.graph) setting.stages.now }
    ensures { IfOk result (λ rows. length rows.items
        ≡ length setting.entry.graph.now.graph.tasks) }
{
    let outline = whole_outline(setting);
    let parts = Parts {
        graph: setting.graph,
        below: setting.below,
        followers: setting.followers,
        assumed: setting.assumed,
        outline: &outline,
        rules: setting.rules,
    };
    rows(alloc, parts, observed(property), chain)
}

/// The task whose exception the property says to be observed.
fn observed(property: Property) -> Option<TaskId> {
    match property {
        Property::Observed(task) => Some(task),
        _ => None,
    }
}
