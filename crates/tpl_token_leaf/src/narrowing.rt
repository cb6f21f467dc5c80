//! The ends that the splits of a leaf leave, narrowed by all tasks.

ghost use Rattle.std.specs.Prelude.{◌≡◌, length, map};
ghost use Rattle.tpl_checker.specs.Prelude.{assumed_of};
ghost use Rattle.tpl_draft.specs.Prelude.{task_number};
ghost use Rattle.tpl_graph.specs.Prelude.{AreTasks};
ghost use Rattle.tpl_token_leaf.specs.Prelude.{narrowed_before, narrowed_once, with_all_kept};
ghost use Rattle.tpl_model.specs.Prelude.{has, is_task, keeps};

use tpl_checker::{Assumptions, allowed};
use tpl_graph::{Graph, Role};
use tpl_model::{Final, Finals, MOST_TASKS, TaskId};

/// Each way to end.
const EACH_END: Finals = Finals {
    ran: true,
    canceled: true,
    faulted: true,
};

/// What is assumed where the ends that the splits left are narrowed by all tasks, in one pass from the last to the first:
/// where a continuation isn't canceled, its antecedent ended as its options allow, and the arguments of a WhenAll task
/// ended no worse than it.
pub fn narrowed(graph: &Graph, assumed: &Assumptions) -> Assumptions
    ensures { assumed_of result ≡ narrowed_before graph.now.graph (assumed_of assumed.now)
        (length graph.now.graph.tasks) }
{
    let mut narrowed = assumed.copy();
    for number in (0..graph.len()).rev() {
        narrow_by(graph, &mut narrowed, TaskId(number as u16));
    }
    narrowed
}

/// Narrows the ends that are left by one task.
fn narrow_by(graph: &Graph, assumed: &mut Assumptions, task: TaskId)
    requires { is_task graph.now.graph task.0 }
    ensures { assumed_of assumed.new ≡ narrowed_once graph.now.graph (assumed_of assumed.old)
        task.0 }
{
    graph.valid_law();
    match graph.role(task) {
        Role::Then(antecedent) => {
            if !assumed.is_left(task, Final::Canceled) {
                assumed.keep_ends(antecedent, allowed(EACH_END, graph.options(task)));
            }
        }
        Role::All(args) => {
            let kept = kept(assumed, task);
            keep_all(assumed, args, kept);
        }
        Role::Root | Role::Child | Role::Any(_) => {}
    }
}

/// How the arguments of a WhenAll task may end, by what is left to it.
fn kept(assumed: &Assumptions, task: TaskId) -> Finals
    ensures { (f : Final) → has result f ≡ keeps ((assumed_of assumed.now).left task.0) f }
{
    let faulted = assumed.is_left(task, Final::Faulted);
    Finals {
        ran: true,
        canceled: faulted || assumed.is_left(task, Final::Canceled),
        faulted,
    }
}

/// Assumes that each of the tasks ends in one of these ways, if it ends.
fn keep_all(assumed: &mut Assumptions, tasks: &[TaskId], ends: Finals)
    requires { AreTasks MOST_TASKS tasks.now }
    ensures { assumed_of assumed.new ≡ with_all_kept (assumed_of assumed.old)
        (map task_number tasks.now) ends }
{
    for task in tasks {
        assumed.keep_ends(*task, ends);
    }
}
