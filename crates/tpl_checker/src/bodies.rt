//! How the bodies may end in the runs of a leaf, and which children they may start.

ghost use Rattle.std.specs.Prelude.{◌≡◌, ◌+◌, [], length};
ghost use Rattle.tpl_checker.specs.Prelude.{AreBodies, AreFirstBodies, assumed_of};
ghost use Rattle.tpl_model.specs.Prelude.{is_task, plain};

use crate::assumptions::Assumptions;
use crate::rows::with_if;
use crate::view::view;
use tpl_graph::Graph;
use tpl_model::{TaskId, TaskSet};
use tpl_trees::Row;

/// How the bodies may end in the runs of a leaf, and which children they may start: the tasks of which
/// some path returns, throws or acknowledges a cancellation, and the children that some path starts. A
/// child has one parent, so one set holds the children of all.
#[derive(Drop)]
pub(crate) struct Bodies {
    pub(crate) returned: TaskSet,
    pub(crate) thrown: TaskSet,
    pub(crate) acknowledged: TaskSet,
    pub(crate) started: TaskSet,
}

impl Bodies {
    /// Empty sets, before any body is read.
    fn none() -> Bodies
        ensures returned { result.returned ≡ [] }
        ensures thrown { result.thrown ≡ [] }
        ensures acknowledged { result.acknowledged ≡ [] }
        ensures started { result.started ≡ [] }
    {
        Bodies {
            returned: TaskSet::empty(),
            thrown: TaskSet::empty(),
            acknowledged: TaskSet::empty(),
            started: TaskSet::empty(),
        }
    }

    /// A copy.
    pub(crate) fn copy(&self) -> Bodies
        ensures { result ≡ self.now }
    {
        Bodies {
            returned: self.returned.copy(),
            thrown: self.thrown.copy(),
            acknowledged: self.acknowledged.copy(),
            started: self.started.copy(),
        }
    }

    /// The sets for all bodies of the graph, each of which is read once.
    pub(crate) fn of_leaf(graph: &Graph, assumed: &Assumptions, rows: &[Row]) -> Bodies
        requires { length (plain rows.now) ≡ length graph.now.graph.tasks }
        ensures { AreBodies graph.now.graph (assumed_of assumed.now) (plain rows.now) result }
    {
        let mut bodies = Bodies::none();
        for task in 0..graph.len() {
            bodies = bodies.with(graph, assumed, rows, TaskId(task as u16));
        }
        bodies
    }

    /// The sets, with the body of one more task.
    fn with(self, graph: &Graph, assumed: &Assumptions, rows: &[Row], task: TaskId) -> Bodies
        requires task { is_task graph.now.graph task.0 }
        requires rows { length (plain rows.now) ≡ length graph.now.graph.tasks }
        ensures { AreFirstBodies graph.now.graph (assumed_of assumed.now) (plain rows.now) task.0
            self → AreFirstBodies graph.now.graph (assumed_of assumed.now) (plain rows.now) (task.0
            + 1) result }
    {
        graph.valid_law();
        tpl_model::may_is_right();
        tpl_model::may_start_is_right();
        let view = view(graph, assumed, rows, task);
        let body = graph.body(task);
        let verdicts = tpl_model::may(body, &view);
        let started = tpl_model::may_start_all(body, &view);
        Bodies {
            returned: with_if(self.returned, task, verdicts.returned),
            thrown: with_if(self.thrown, task, verdicts.thrown),
            acknowledged: with_if(self.acknowledged, task, verdicts.acknowledged),
            started: self.started.union(&started),
        }
    }
}
