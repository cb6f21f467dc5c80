//! The bodies that don't nest, each of which has a track of its own.

ghost use Rattle.std.specs.Prelude.{◌≡◌, ◌++◌, [], codes, is_some, map, IfOk, OnOk, string_bytes};
ghost use Rattle.serde_json.specs.View.{view};
ghost use Rattle.tpl_journal.specs.Prelude.{HasId};
ghost use Rattle.tpl_journal.specs.Lines.{task_name};
ghost use Rattle.tpl_model.specs.Prelude.{begun, begun_by, is_task, left_by};
ghost use Rattle.tpl_trace.specs.Prelude.{body_mark, body_track, crosses, leaves_begun, outlives, track_in, track_name, track_of_body};

use crate::entries::name_of;
use crate::marks::track_mark;
use crate::run::Run;
use crate::tracks::{same_actor, track_name, track_of};
use serde_json::Value;
use std::alloc::{AllocError, Global};
use tpl_graph::Graph;
use tpl_model::{Act, Actor, Event, MOST_OUTSIDE, MOST_WORKERS, TaskId};

/// The track of the body of the first task: those of the workers and of the seats outside come before it.
const FIRST_TRACK: u32 = MOST_WORKERS as u32 + MOST_OUTSIDE as u32 + 1;

fn begins(act: Act, task: TaskId) -> bool
    ensures { result ≡ begun_by act task.0 }
{
    match act {
        Act::Begin(it) => it.0 == task.0,
        _ => false,
    }
}

fn leaves(act: Act, task: TaskId) -> bool
    ensures { result ≡ left_by act task.0 }
{
    match act {
        Act::Leave(it) => it.0 == task.0,
        _ => false,
    }
}

/// Whether one of the events begins the task.
fn has_begun(task: TaskId, events: &[Event]) -> bool
    ensures { result ≡ is_some (begun events.now task.0) }
{
    for event in events {
        if begins(event.act, task) {
            return true;
        }
    }
    false
}

/// Whether the act leaves a body that was begun in one of the past events.
fn leaves_begun(past: &[Event], act: Act) -> bool
    ensures { result ≡ leaves_begun past.now act }
{
    match act {
        Act::Leave(task) => has_begun(task, past),
        _ => false,
    }
}

/// Whether the actor leaves a body that was begun in the past before it leaves that of the task, if it leaves one.
fn outlives(actor: Actor, task: TaskId, past: &[Event], later: &[Event]) -> bool
    ensures { result ≡ outlives actor task.0 past.now later.now }
{
    for event in later {
        let is_own = same_actor(actor, event.actor);
        if is_own && leaves(event.act, task) {
            return false;
        }
        if is_own && leaves_begun(past, event.act) {
            return true;
        }
    }
    false
}

/// Whether the task's body is begun inside another of the actor's, and not left before that one.
fn crosses(actor: Actor, task: TaskId, events: &[Event]) -> bool
    ensures { result ≡ crosses actor task.0 [] events.now }
{
    for at in 0..events.len() {
        if begins(events[at].act, task) {
            return outlives(actor, task, &events[..at], &events[at + 1..]);
        }
    }
    false
}

fn body_track(task: TaskId) -> u32
    ensures { result ≡ body_track task.0 }
{
    FIRST_TRACK + u32::from(task.0)
}

/// The track on which the actor begins or leaves the body.
fn track_of_body(events: &[Event], actor: Actor, task: TaskId) -> u32
    ensures { result ≡ track_of_body events.now actor task.0 }
{
    if crosses(actor, task, events) {
        body_track(task)
    } else {
        u32::from(track_of(actor))
    }
}

/// The track of an act in a run.
pub(crate) fn track_in(events: &[Event], actor: Actor, act: Act) -> u32
    ensures { result ≡ track_in events.now actor act }
{
    match act {
        Act::Begin(task) | Act::Leave(task) => track_of_body(events, actor, task),
        _ => u32::from(track_of(actor)),
    }
}

/// The name of the track of a body: its worker's and the task's.
fn body_track_name(
    alloc: Global,
    graph: &Graph,
    actor: Actor,
    task: TaskId,
) -> Result<String, AllocError>
    requires { is_task graph.now.graph task.0 }
    ensures { IfOk result (λ name. string_bytes name
        ≡ (track_name actor ++ codes ": ") ++ task_name graph.now.names task) }
{
    let mut name = track_name(alloc, actor)?;
    name.push_str(": ")?;
    name.push_str(name_of(graph, task))?;
    Ok(name)
}

/// Adds the name of the track of a body that doesn't nest, where it is begun.
pub(crate) fn add_body_track(
    entries: &mut Vec<Value>,
    run: Run<'_>,
    actor: Actor,
    act: Act,
) -> Result<(), AllocError>
    requires { HasId run.graph.now.graph act }
    ensures { OnOk result (map view entries.new.items ≡ map view entries.old.items
        ++ body_mark run.entry.graph.now run.entry.events.now actor act) }
{
    if let Act::Begin(task) = act {
        if crosses(actor, task, run.events) {
            let name = body_track_name(run.alloc, run.graph, actor, task)?;
            entries.push(track_mark(run.alloc, name.as_str(), body_track(task))?)?;
        }
    }
    Ok(())
}
