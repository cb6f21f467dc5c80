//! Which task has not ended as is said of it.

ghost use Rattle.std.specs.Prelude.{◌≡◌, [], ◌∷◌};
ghost use Rattle.tpl_audit.specs.Prelude.{AreTasksOf, FirstOtherEnd, first_of};
ghost use Rattle.tpl_model.specs.Prelude.{is_task};

use crate::verdict::OtherEnd;
use tpl_machine::Core;
use tpl_model::{Final, Status, TaskId};

/// The task, if it has not ended as is said of it.
fn other_end<C: Core>(core: &C, task: TaskId, said: Final) -> Option<OtherEnd>
    requires { is_task (C.journal core.now).graph task.0 }
    ensures { let j = C.journal core.now in FirstOtherEnd j.graph j.inputs j.events
        ((task, said) ∷ []) result }
{
    let status = core.status(task);
    match status {
        Status::Completed(end) if end == said => None,
        _ => Some(OtherEnd { task, said, status }),
    }
}

/// Of two such tasks the one that is declared first.
fn first_of(found: Option<OtherEnd>, other: Option<OtherEnd>) -> Option<OtherEnd>
    ensures { result ≡ first_of found other }
{
    match (found, other) {
        (Some(one), Some(other)) => {
            if other.task.0 < one.task.0 {
                Some(other)
            } else {
                Some(one)
            }
        }
        (None, Some(other)) => Some(other),
        (found, None) => found,
    }
}

/// The first task in declared order that has not ended as is said of it.
pub(crate) fn first_other_end<C: Core>(core: &C, ended: &[(TaskId, Final)]) -> Option<OtherEnd>
    requires { AreTasksOf (C.journal core.now).graph ended.now }
    ensures { let j = C.journal core.now in
        FirstOtherEnd j.graph j.inputs j.events ended.now result }
{
    let mut found = None;
    for (task, said) in ended {
        found = first_of(found, other_end(core, *task, *said));
    }
    found
}
