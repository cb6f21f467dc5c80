//! Which events led to where a claim fails, and what each did.

ghost use Rattle.std.specs.Prelude.{◌+◌, ◌<◌, length, IfOk};
ghost use Rattle.tpl_causes.specs.Prelude.{AreCauses, AreFrom};

use crate::cause::Cause;
use crate::history::event_words;
use std::alloc::{AllocError, Global};
use tpl_audit::causes;
use tpl_fast::Fast;
use tpl_graph::{Claim, Graph};
use tpl_machine::Core;
use tpl_model::{Event, Inputs, Property, TaskId};

/// A place, or another where there is none.
fn place_or(place: Option<u32>, other: usize) -> usize {
    match place {
        Some(place) => place as usize,
        None => other,
    }
}

/// The place at which a task began, or another where it hasn't.
fn began_or<C: Core>(run: &C, task: TaskId, other: usize) -> usize {
    if (task.0 as usize) >= run.graph().len() {
        return other;
    }
    place_or(run.began(task), other)
}

/// The place at which a task ended, or another where it hasn't.
fn ended_or<C: Core>(run: &C, task: TaskId, other: usize) -> usize {
    if (task.0 as usize) >= run.graph().len() {
        return other;
    }
    place_or(run.ended(task), other)
}

/// Of which events it is told how the run came to them, where a property fails at this place: the begins of both tasks
/// that exclude each other, the end of a task whose exception nobody reads or that never began, else the one at the
/// place. 0 stands for none.
fn places<C: Core>(run: &C, body: Property, place: usize) -> [usize; 2] {
    match body {
        Property::Excludes(one, other) => {
            [began_or(run, one, place), began_or(run, other, place)]
        }
        Property::Observed(task) | Property::Runs(task) => [ended_or(run, task, place), 0],
        _ => [place, 0],
    }
}

/// The run of these events, as far as they are allowed.
fn played<'g>(
    alloc: Global,
    graph: &'g Graph,
    inputs: Inputs,
    events: &[Event],
) -> Result<Fast<'g>, AllocError> {
    let mut run = Fast::open(alloc, graph, inputs)?;
    for event in events {
        if run.step(*event).is_err() {
            return Ok(run);
        }
    }
    Ok(run)
}

/// The number at this index; 0 where there is none.
fn at(numbers: &[usize], index: usize) -> usize {
    match numbers.get(index) {
        Some(number) => *number,
        None => 0,
    }
}

/// Adds the event at this index, where it led to one of the run.
fn add_event<C: Core>(
    causes: &mut Vec<Cause>,
    alloc: Global,
    run: &C,
    events: &[Event],
    index: usize,
    led_to: usize,
) -> Result<(), AllocError>
    requires index { index < length events.now }
    requires so_far { AreFrom 0 index (length events.now) causes.old.items }
    ensures { IfOk result (λ _. AreFrom 0 (index + 1) (length events.now) causes.new.items) }
{
    if led_to == 0 || led_to > events.len() {
        return Ok(());
    }
    let says = event_words(alloc, run, events[index].act, events[led_to - 1].act)?;
    let event = index + 1;
    causes.push(Cause {
        event,
        led_to,
        says,
    })?;
    Ok(())
}

/// The events of which it was noted to which one each led.
fn noted_causes<C: Core>(
    alloc: Global,
    run: &C,
    events: &[Event],
    led: &[usize],
) -> Result<Vec<Cause>, AllocError>
    ensures { IfOk result (λ causes. AreCauses (length events.now) causes.items) }
{
    let mut causes = Vec::new(alloc);
    for index in 0..events.len() {
        add_event(&mut causes, alloc, run, events, index, at(led, index))?;
    }
    Ok(causes)
}

/// Why the run of these events came to where the claim fails, after the last of them: the events that led there, as
/// `tpl_audit::causes` has them, in their order, each with what it did. No clause says that they explain it. Out of memory
/// is the only error.
pub fn causes_of(
    alloc: Global,
    graph: &Graph,
    claim: &Claim,
    inputs: &Inputs,
    events: &[Event],
) -> Result<Vec<Cause>, AllocError>
    ensures { IfOk result (λ causes. AreCauses (length events.now) causes.items) }
{
    let run = played(alloc, graph, inputs.copy(), events)?;
    let places = places(&run, claim.body(), events.len());
    let led = causes(alloc, graph, inputs.copy(), events, &places)?;
    noted_causes(alloc, &run, events, &led)
}
