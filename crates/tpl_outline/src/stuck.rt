//! Which tasks may never end by what is assumed.

ghost use Rattle.tpl_model.specs.Prelude.{is_task};

use crate::cancels::cancels_quiet;
use crate::outline::NO_END;
use tpl_checker::Assumptions;
use tpl_graph::Graph;
use tpl_model::{Final, TaskId};

/// The task may never end by what is assumed, which leaves out one of its ends or has its body request
/// a token that is never requested.
pub(crate) fn may_be_stuck(graph: &Graph, assumed: &Assumptions, task: TaskId) -> bool
    requires { is_task graph.now.graph task.0 }
{
    let ran = assumed.may_end(task, Final::RanToCompletion);
    let canceled = assumed.may_end(task, Final::Canceled);
    let faulted = assumed.may_end(task, Final::Faulted);
    !(ran && canceled && faulted)
        || cancels_quiet(graph.body(task).body(), &assumed.view(None, NO_END))
}
