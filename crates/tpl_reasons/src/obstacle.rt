//! What stands in the way of a claim, where it can be said simply.

ghost use Rattle.tpl_graph.specs.Prelude.{Fits};

use crate::property::{Obstacle, obstacle_to};
use crate::rules::role;
use crate::words::Said;
use std::alloc::{AllocError, Global};
use tpl_causes::{name, token_name};
use tpl_checker::{Assumptions, assumed_for};
use tpl_graph::{Claim, Graph, Role};
use tpl_model::{RuleSet, TaskId};

/// The name of the task's token, if that may be requested.
fn loud_token<'g>(graph: &'g Graph, assumed: &Assumptions, task: TaskId) -> Option<&'g str> {
    if (task.0 as usize) < graph.len() && assumed.is_loud(graph, task) {
        Some(token_name(graph, graph.own_token(task)?))
    } else {
        None
    }
}

/// Why a task for which another one waits may have ended too early, if it may.
fn early_text(
    alloc: Global,
    graph: &Graph,
    assumed: &Assumptions,
    task: TaskId,
) -> Result<Option<String>, AllocError> {
    let label = name(graph, task);
    if (task.0 as usize) < graph.len() && graph.options(task).lazy_cancellation() {
        return Ok(None);
    }
    let text = match role(graph, task) {
        Some(Role::Then(before)) => {
            let Some(token) = loud_token(graph, assumed, task) else {
                return Ok(None);
            };
            let before = name(graph, before);
            format!(in alloc;
                "{label} may be canceled while {before} still runs: it has the token {token} and is not lazy\n"
            )?
        }
        Some(Role::Any(_)) => {
            format!(in alloc;
                "{label} ends as soon as one task of its list has, while the others may still run\n"
            )?
        }
        Some(Role::Root) => format!(in alloc; "{label} is a root: it waits for nothing\n")?,
        _ => return Ok(None),
    };
    Ok(Some(text))
}

/// Why the second task may begin before the first is settled, where one of those that it waits for says so.
fn order_text(
    alloc: Global,
    graph: &Graph,
    assumed: &Assumptions,
    first: TaskId,
    second: TaskId,
) -> Said {
    let mut task = second;
    for _ in 0..graph.len() {
        match role(graph, task) {
            Some(Role::Then(before)) if before != first => task = before,
            _ => return Ok(String::new(alloc)),
        }
        if let Some(text) = early_text(alloc, graph, assumed, task)? {
            return Ok(text);
        }
    }
    Ok(String::new(alloc))
}

/// What stands in the way of a claim, as a line with its line break; nothing, where it can't be said simply. Out of memory
/// is the only error.
pub fn obstacle_words(
    alloc: Global,
    graph: &Graph,
    claim: &Claim,
    rules: RuleSet,
) -> Result<String, AllocError>
    requires { Fits graph.now.graph claim.now }
{
    let assumed = assumed_for(graph, claim, rules);
    match obstacle_to(claim.body()) {
        Some(Obstacle::Twice(task)) => {
            let task = name(graph, task);
            format!(in alloc;
                "{task} stands there twice, so the claim says that {task} never begins: `never` says that\n"
            )
        }
        Some(Obstacle::Early(first, second)) => {
            order_text(alloc, graph, &assumed, first, second)
        }
        Some(Obstacle::Canceled(task)) => {
            let Some(token) = loud_token(graph, &assumed, task) else {
                return Ok(String::new(alloc));
            };
            let task = name(graph, task);
            format!(in alloc;
                "{task} may be canceled: it has the token {token}, which may be requested\n"
            )
        }
        None => Ok(String::new(alloc)),
    }
}
