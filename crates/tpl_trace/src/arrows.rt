//! The arrows of a trace, from the end of a task to the releases of its continuations.

ghost use Rattle.std.specs.Prelude.{◌≡◌, ◌++◌, map, OnOk};
ghost use Rattle.serde_json.specs.View.{view};
ghost use Rattle.tpl_journal.specs.Prelude.{HasId};
ghost use Rattle.tpl_trace.specs.Prelude.{IsTurn, arrow_of, arrows_of, may_end, releases, some_may_end};

use crate::marks::{arrow_end, arrow_start};
use crate::run::Turn;
use serde_json::Value;
use std::alloc::AllocError;
use tpl_graph::Graph;
use tpl_model::{Act, Event, TaskId};

/// Whether the act may end the task.
fn may_end(task: TaskId, act: Act) -> bool
    ensures { result ≡ may_end task.0 act }
{
    match act {
        Act::Leave(it) | Act::Close(it) | Act::Drop(it) | Act::Settle(it) => it.0 == task.0,
        _ => false,
    }
}

/// Whether one of the events may end the task.
fn some_may_end(task: TaskId, events: &[Event]) -> bool
    ensures { result ≡ some_may_end task.0 events.now }
{
    for event in events {
        if may_end(task, event.act) {
            return true;
        }
    }
    false
}

/// Whether the act releases a continuation of the task.
fn releases(graph: &Graph, task: TaskId, act: Act) -> bool
    requires { HasId graph.now.graph act }
    ensures { result ≡ releases graph.now.graph task.0 act }
{
    match act {
        Act::Release(continuation) => match graph.antecedent(continuation) {
            Some(antecedent) => antecedent.0 == task.0,
            None => false,
        },
        _ => false,
    }
}

/// Adds the arrows that start here, where the task ended, and end at a later event.
pub(crate) fn add_arrows(entries: &mut Vec<Value>, turn: Turn<'_>) -> Result<(), AllocError>
    requires { IsTurn turn }
    ensures { OnOk result (map view entries.new.items ≡ map view entries.old.items
        ++ arrows_of turn.entry) }
{
    let run = turn.run;
    let first = turn.here.before + 1;
    for before in first..run.events.len() {
        let act = run.events[before].act;
        if may_end(turn.task, act) {
            return Ok(());
        }
        if releases(run.graph, turn.task, act) {
            entries.push(arrow_start(run.alloc, before + 1, turn.here)?)?;
        }
    }
    Ok(())
}

/// Adds the end of the arrow to the release of the task, if it starts somewhere.
pub(crate) fn add_arrow_end(entries: &mut Vec<Value>, turn: Turn<'_>) -> Result<(), AllocError>
    requires { IsTurn turn }
    ensures { OnOk result (map view entries.new.items ≡ map view entries.old.items
        ++ arrow_of turn.entry) }
{
    let run = turn.run;
    if let Some(antecedent) = run.graph.antecedent(turn.task) {
        if some_may_end(antecedent, &run.events[..turn.here.before]) {
            entries.push(arrow_end(run.alloc, turn.here.before + 1, turn.here)?)?;
        }
    }
    Ok(())
}
