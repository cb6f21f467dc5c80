//! The leaf whose bodies were read last.

ghost use Rattle.std.specs.Prelude.{◌≡◌, ◌<◌, ℕ, length, IsTrue, IfSome};
ghost use Rattle.tpl_checker.specs.Prelude.{AreBodies, IsLast, assumed_of};
ghost use Rattle.tpl_model.specs.Prelude.{plain, view};

use crate::assumptions::Assumptions;
use crate::bodies::Bodies;
use crate::view::subject;
use tpl_graph::Graph;
use tpl_model::TaskId;
use tpl_trees::Row;

/// A leaf whose bodies were read: what it assumes, its rows, and how the bodies may end in its runs.
#[derive(Drop)]
pub(crate) struct LastLeaf<'c> {
    assumed: Assumptions,
    rows: &'c [Row],
    bodies: Bodies,
}

/// Each body sees the same in another leaf as in the last one.
fn sees_same(graph: &Graph, last: &LastLeaf<'_>, assumed: &Assumptions, rows: &[Row]) -> bool
    requires last { length (plain last.now.rows.now) ≡ length graph.now.graph.tasks }
    requires rows { length (plain rows.now) ≡ length graph.now.graph.tasks }
    ensures { IsTrue result → (t : ℕ) → t < length graph.now.graph.tasks
        → view graph.now.graph (assumed_of last.now.assumed) (plain last.now.rows.now) t
        ≡ view graph.now.graph (assumed_of assumed.now) (plain rows.now) t }
{
    if last.assumed.inputs != assumed.inputs || last.assumed.quiet != assumed.quiet {
        return false;
    }
    if last.assumed.sure != assumed.sure {
        return false;
    }
    for number in 0..graph.len() {
        let task = TaskId(number as u16);
        if subject(graph, last.rows, task) != subject(graph, rows, task) {
            return false;
        }
    }
    true
}

/// How the bodies may end in a leaf, and which children they may start: as in the last one, where each body sees the same
/// there, and else they are read, and the leaf is the last one.
pub(crate) fn bodies_of<'c>(
    graph: &Graph,
    last: &mut Option<LastLeaf<'c>>,
    assumed: &Assumptions,
    rows: &'c [Row],
) -> Bodies
    requires last { IfSome last.old (IsLast graph.now.graph) }
    requires rows { length (plain rows.now) ≡ length graph.now.graph.tasks }
    ensures bodies { AreBodies graph.now.graph (assumed_of assumed.now) (plain rows.now) result }
    ensures last { IfSome last.new (IsLast graph.now.graph) }
{
    if let Some(before) = last.as_ref() {
        if sees_same(graph, before, assumed, rows) {
            return before.bodies.copy();
        }
    }
    let bodies = Bodies::of_leaf(graph, assumed, rows);
    *last = Some(LastLeaf {
        assumed: assumed.copy(),
        rows,
        bodies: bodies.copy(),
    });
    bodies
}
