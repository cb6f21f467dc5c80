//! How tasks stand after a run.

ghost use Rattle.std.specs.Prelude.{◌≡◌, [], reverse, IfOk};
ghost use Rattle.tpl_audit.specs.Prelude.{statuses};
ghost use Rattle.tpl_model.specs.Prelude.{Run};

use crate::play::play;
use crate::watch::Watch;
use std::alloc::{AllocError, Global};
use tpl_fast::Fast;
use tpl_graph::Graph;
use tpl_machine::Core;
use tpl_model::{Event, Inputs, Status, TaskId};

/// Does the events of a run, from its start.
fn replay<C: Core>(core: &mut C, events: &[Event])
    requires start { (C.journal core.old).events ≡ [] }
    requires run { let j = C.journal core.old in Run j.graph j.inputs (reverse events.now) }
    ensures { C.journal core.new ≡ record (C.journal core.old) { events = reverse events.now } }
{
    tpl_laws::prefix_is_run();
    let mut watch = Watch::at_start(core);
    match play(core, &mut watch, events) {
        Ok(()) => {}
        Err(_) => unreachable!(),
    }
}

/// How each task stands now.
fn statuses<C: Core>(alloc: Global, core: &C) -> Result<Vec<Status>, AllocError>
    ensures { let j = C.journal core.now in
        IfOk result (λ found. found.items ≡ statuses j.graph j.inputs j.events) }
{
    let mut found = Vec::new(alloc);
    for number in 0..core.graph().len() {
        found.push(core.status(TaskId(number as u16)))?;
    }
    Ok(found)
}

/// How each task of a graph stands after the events of a run of it with these inputs, in declared order. Out of memory is
/// the only error.
pub fn statuses_after(
    alloc: Global,
    graph: &Graph,
    inputs: Inputs,
    events: &[Event],
) -> Result<Vec<Status>, AllocError>
    requires { Run graph.now.graph inputs (reverse events.now) }
    ensures { IfOk result (λ found. found.items
        ≡ statuses graph.now.graph inputs (reverse events.now)) }
{
    let mut core = Fast::open(alloc, graph, inputs)?;
    replay(&mut core, events);
    statuses(alloc, &core)
}
