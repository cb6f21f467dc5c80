//! The parent of a child.

ghost use Rattle.std.specs.Prelude.{◌≡◌, IfSome, option_map};
ghost use Rattle.tpl_draft.specs.Prelude.{task_number};
ghost use Rattle.tpl_laws.specs.Prelude.{parent_of};
ghost use Rattle.tpl_model.specs.Prelude.{IsParent, is_task};

use tpl_graph::Graph;
use tpl_model::TaskId;

/// The task whose body starts a child, if there is one.
pub fn parent(graph: &Graph, task: TaskId) -> Option<TaskId>
    requires { is_task graph.now.graph task.0 }
    ensures parent { option_map task_number result ≡ parent_of graph.now.graph task.0 }
    ensures child { IfSome result (λ p. IsParent graph.now.graph p.0 task.0) }
    ensures within { IfSome result (λ p. is_task graph.now.graph p.0) }
{
    graph.valid_law();
    tpl_laws::parent_is_right();
    graph.parent_of(task)
}
