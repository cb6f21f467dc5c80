//! Runs that fail, put in order, so that people can read them.

ghost use Rattle.tpl_graph.specs.Prelude.{Fits};

use crate::change::{Change, Kind};
use crate::counterexample::Counterexample;
use crate::crew::Habit;
use crate::replay::{Case, Failing, Stage, replay};
use crate::shortening::sweep;
use crate::size::Size;
use std::alloc::{AllocError, Global};
use tpl_fast::task_of;
use tpl_graph::{Claim, Graph};
use tpl_model::{Event, TaskId};

/// The place behind the last event before this one that is of the same task, if others stand between.
fn place_behind(events: &[Event], at: usize) -> Option<usize> {
    let task = task_of(events.get(at)?.act)?;
    let before = events
        .iter()
        .take(at)
        .rposition(|event| task_of(event.act) == Some(task))?;
    let behind = before.saturating_add(1);
    if behind < at { Some(behind) } else { None }
}

/// The events with one of them at an earlier place.
fn with_earlier(
    alloc: Global,
    events: &[Event],
    from: usize,
    to: usize,
) -> Result<Vec<Event>, AllocError> {
    let mut moved = Vec::from_slice(alloc, events)?;
    if from < moved.len() {
        let event = moved.remove(from);
        moved.insert(to.min(moved.len()), event)?;
    }
    Ok(moved)
}

/// The run with its events in another order, if the claim fails in it and it is no larger; else the run itself.
fn if_no_larger(case: Case<'_>, best: Vec<Event>, other: Vec<Event>, stage: &mut Stage) -> Failing
    requires { Fits case.graph.now.graph case.claim.now }
{
    if stage.budget.is_spent() {
        return Ok(best);
    }
    match replay(case, other.as_slice(), Change::NONE, stage)? {
        Some(played) if Size::of(played.as_slice()) <= Size::of(best.as_slice()) => Ok(played),
        _ => Ok(best),
    }
}

/// Puts each event behind the last one of its task, where the claim fails then too.
fn gathered(case: Case<'_>, found: Vec<Event>, stage: &mut Stage) -> Failing
    requires { Fits case.graph.now.graph case.claim.now }
{
    let mut best = found;
    for at in 1..best.len() {
        if stage.budget.is_spent() {
            break;
        }
        if let Some(to) = place_behind(best.as_slice(), at) {
            let other = with_earlier(case.alloc, best.as_slice(), at, to)?;
            best = if_no_larger(case, best, other, stage)?;
        }
    }
    Ok(best)
}

/// For each task its events, in their order.
fn by_task(alloc: Global, graph: &Graph, events: &[Event]) -> Result<Vec<Vec<Event>>, AllocError> {
    let mut lists = Vec::with_capacity(alloc, graph.len())?;
    for _ in 0..graph.len() {
        lists.push(Vec::new(alloc))?;
    }
    for event in events {
        if let Some(list) = task_of(event.act).and_then(|task| lists.get_mut(task.0 as usize)) {
            list.push(*event)?;
        }
    }
    Ok(lists)
}

/// The same events, those of each task together where its last one was.
fn joined(alloc: Global, graph: &Graph, events: &[Event]) -> Result<Vec<Event>, AllocError> {
    let mut lists = by_task(alloc, graph, events)?;
    let mut order = Vec::with_capacity(alloc, events.len())?;
    for event in events.iter().rev() {
        let Some(task) = task_of(event.act) else {
            order.push(*event)?;
            continue;
        };
        add_reversed(&mut order, &mut lists, task)?;
    }
    order.reverse();
    Ok(order)
}

/// Moves the events of a task behind others, the last one first.
fn add_reversed(
    order: &mut Vec<Event>,
    lists: &mut Vec<Vec<Event>>,
    task: TaskId,
) -> Result<(), AllocError> {
    let at = task.0 as usize;
    if at < lists.len() {
        for event in lists[at].iter().rev() {
            order.push(*event)?;
        }
        lists[at].clear();
    }
    Ok(())
}

/// Puts the events of each task together, as far as the claim fails then too, and has as few workers act as serve, also
/// where a body has to go on to its end for that.
fn in_order(case: Case<'_>, found: Vec<Event>, stage: &mut Stage) -> Failing
    requires { Fits case.graph.now.graph case.claim.now }
{
    let order = joined(case.alloc, case.graph, found.as_slice())?;
    let whole = if_no_larger(case, found, order, stage)?;
    let best = gathered(case, whole, stage)?;
    stage.habit = match stage.habit {
        Habit::Inside => Habit::Aside,
        Habit::Aside => Habit::Inside,
    };
    let same = Vec::from_slice(case.alloc, best.as_slice())?;
    let best = if_no_larger(case, best, same, stage)?;
    sweep(case, best, Kind::Bodies, 1, stage)
}

/// The run, put in order. Nothing is proved of it.
pub(crate) fn tidy(
    alloc: Global,
    graph: &Graph,
    claim: &Claim,
    found: Counterexample,
    stage: &mut Stage,
) -> Result<Counterexample, AllocError>
    requires { Fits graph.now.graph claim.now }
{
    let inputs = found.inputs;
    let case = Case {
        alloc,
        graph,
        claim,
        inputs: &inputs,
    };
    let events = in_order(case, found.events, stage)?;
    Ok(Counterexample { inputs, events })
}
