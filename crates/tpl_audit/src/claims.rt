//! Of a claim, kind by kind: whether it is true of a run, and from which place of the run on it isn't.

ghost use Rattle.std.specs.Prelude.{◌≡◌, ◌↔◌, IsTrue};
ghost use Rattle.tpl_graph.specs.Prelude.{Fits, TasksOf};
ghost use Rattle.tpl_laws.specs.ClaimTests.{later_of};
ghost use Rattle.tpl_laws.specs.Failing.{fails_from};
ghost use Rattle.tpl_model.specs.Prelude.{Holds, HoldsOf, is_task};

use crate::run::{are_given, ends_within, has_begun, settled_at_begin};
use tpl_graph::Claim;
use tpl_model::{Property, TaskId};
use tpl_run::Core;

fn is_observed<C: Core>(core: &C, task: TaskId) -> bool
    requires { is_task (C.journal core.now).graph task.0 }
    ensures { let j = C.journal core.now in IsTrue result
        ↔ HoldsOf j.graph j.inputs j.events (Property.Observed task) }
{
    !core.complete() || core.label(task).is_none() || core.seen(task)
}

/// Whether the property is true of the run.
pub fn is_true_of<C: Core>(core: &C, body: Property) -> bool
    requires { TasksOf (C.journal core.now).graph body }
    ensures { let j = C.journal core.now in IsTrue result ↔ HoldsOf j.graph j.inputs j.events body }
{
    match body {
        Property::Final(task, ends) => ends_within(core, task, ends),
        Property::After(first, second) => settled_at_begin(core, first, second),
        Property::Observed(task) => is_observed(core, task),
        Property::Never(task) => !has_begun(core, task),
        Property::Excludes(one, other) => !(has_begun(core, one) && has_begun(core, other)),
        Property::Runs(task) => !core.complete() || has_begun(core, task),
    }
}

/// Whether the claim holds of the run: its property is true of it, or what it takes as given isn't. `Final` speaks of a
/// task that has ended, `After` of one that has begun, `Observed` and `Runs` of a run that is complete, `Never` and
/// `Excludes` of the tasks that have begun. A task is settled if it has ended (.NET: `Task.IsCompleted`), or if it is a child that
/// isn't started and its parent is settled.
pub fn holds<C: Core>(core: &C, claim: &Claim) -> bool
    requires { Fits (C.journal core.now).graph claim.now }
    ensures { let j = C.journal core.now in IsTrue result
        ↔ Holds j.graph claim.now j.inputs j.events }
{
    !are_given(core, claim.given()) || is_true_of(core, claim.body())
}

fn place_of(place: Option<u32>) -> Option<usize>
    ensures { result ≡ place }
{
    match place {
        Some(place) => Some(place as usize),
        None => None,
    }
}

/// The later of two places, if there are both.
fn later_of(one: Option<u32>, other: Option<u32>) -> Option<usize>
    ensures { result ≡ later_of one other }
{
    match (one, other) {
        (Some(one), Some(other)) => Some(one.max(other) as usize),
        _ => None,
    }
}

/// The place from which on a property isn't true of the run.
pub(crate) fn fails_from<C: Core>(
    core: &C,
    complete: Option<usize>,
    body: Property,
) -> Option<usize>
    requires { TasksOf (C.journal core.now).graph body }
    ensures { let j = C.journal core.now in
        result ≡ fails_from j.graph j.inputs j.events complete body }
{
    core.run_law();
    tpl_laws::decided::holds_of_is_right();
    if is_true_of(core, body) {
        return None;
    }
    match body {
        Property::Final(task, _) => place_of(core.ended(task)),
        Property::After(_, second) => place_of(core.began(second)),
        Property::Observed(_) | Property::Runs(_) => complete,
        Property::Never(task) => place_of(core.began(task)),
        Property::Excludes(one, other) => later_of(core.began(one), core.began(other)),
    }
}
