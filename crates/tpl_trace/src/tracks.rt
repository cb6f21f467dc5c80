//! The tracks of the actors: one for each worker and each seat outside.

ghost use Rattle.std.specs.Prelude.{◌≡◌, ◌++◌, map, IfOk, OnOk, string_bytes};
ghost use Rattle.serde_json.specs.View.{view};
ghost use Rattle.tpl_model.specs.Prelude.{same_actor};
ghost use Rattle.tpl_trace.specs.Prelude.{acts_in, new_track, track_name, track_of};

use crate::marks::track_mark;
use serde_json::Value;
use std::alloc::{AllocError, Global};
use tpl_model::{Actor, Event, MOST_WORKERS, Worker};

/// The number of an actor's track.
pub(crate) fn track_of(actor: Actor) -> u16
    ensures { result ≡ track_of actor }
{
    match actor {
        Actor::Worker(worker) => worker.0,
        Actor::Outside(seat) => MOST_WORKERS + u16::from(seat),
    }
}

/// The name of an actor's track.
pub(crate) fn track_name(alloc: Global, actor: Actor) -> Result<String, AllocError>
    ensures { IfOk result (λ name. string_bytes name ≡ track_name actor) }
{
    match actor {
        Actor::Worker(Worker(number)) => format!(in alloc; "worker {number}"),
        Actor::Outside(seat) => format!(in alloc; "outside {seat}"),
    }
}

pub(crate) fn same_actor(a: Actor, b: Actor) -> bool
    ensures { result ≡ same_actor a b }
{
    match (a, b) {
        (Actor::Worker(Worker(n)), Actor::Worker(Worker(m))) => n == m,
        (Actor::Outside(n), Actor::Outside(m)) => n == m,
        _ => false,
    }
}

/// Whether the actor does one of the events. The newest are looked at first: of most actors one is near.
fn acts_in(actor: Actor, events: &[Event]) -> bool
    ensures { result ≡ acts_in actor events.now }
{
    let mut left = events.len();
    while left > 0 {
        left -= 1;
        if same_actor(actor, events[left].actor) {
            return true;
        }
    }
    false
}

/// Adds the name of an actor's track, if the actor did none of the past events.
pub(crate) fn add_new_track(
    entries: &mut Vec<Value>,
    alloc: Global,
    past: &[Event],
    actor: Actor,
) -> Result<(), AllocError>
    ensures { OnOk result (map view entries.new.items ≡ map view entries.old.items
        ++ new_track past.now actor) }
{
    if !acts_in(actor, past) {
        let name = track_name(alloc, actor)?;
        entries.push(track_mark(alloc, name.as_str(), u32::from(track_of(actor)))?)?;
    }
    Ok(())
}
