//! The names of tasks.

ghost use Rattle.std.specs.Prelude.{◌≡◌};
ghost use Rattle.tpl_journal.specs.Lines.{task_name};
ghost use Rattle.tpl_model.specs.Prelude.{is_task};

use tpl_graph::Graph;
use tpl_model::TaskId;

/// The name of a task of the graph.
pub fn name_of(graph: &Graph, task: TaskId) -> &str
    requires { is_task graph.now.graph task.0 }
    ensures { result.now ≡ task_name graph.now.names task }
{
    graph.valid_law();
    graph.name(task)
}
