//! The first fault of a leaf.

ghost use Rattle.std.specs.Prelude.{◌≡◌, ◌↔◌, IsTrue, length};
ghost use Rattle.tpl_checker.specs.Prelude.{AreBelow, AreBodies, assumed_of, fault_in};
ghost use Rattle.tpl_graph.specs.Prelude.{TasksOf};
ghost use Rattle.tpl_laws.specs.Prelude.{broken, first_broken, leaf_fault, past_rule, rows_fit};
ghost use Rattle.tpl_model.specs.Prelude.{AcceptsTree, RowsLeaf, is_task, kind, plain};

use crate::assumptions::Assumptions;
use crate::before::before;
use crate::begins::runs;
use crate::below::Below;
use crate::bodies::Bodies;
use crate::chain::chain;
use crate::ends::ends;
use crate::past::past;
use crate::property::proves;
use crate::shape::{are_plain, rows_fit};
use tpl_graph::{Graph, Role};
use tpl_model::{Property, Rule, TaskId};
use tpl_trees::Row;

/// Why a leaf fails.
#[derive(Clone, Copy)]
pub enum LeafFault {
    /// The row of the task breaks the rule.
    Breaks(TaskId, Rule),
    /// The leaf is closed and doesn't prove the claim.
    ProvesNot,
}

/// Whether a leaf with these rows is accepted: it has one row for each task, each id in it is the
/// graph's, it says nothing of tokens, it is closed under what is assumed, and it proves the property.
/// The tasks below are the graph's (`Below::of_graph`). No memory is taken.
pub fn accepts_leaf(
    graph: &Graph,
    property: Property,
    assumed: &Assumptions,
    below: &Below,
    rows: &[Row],
) -> bool
    requires tasks { TasksOf graph.now.graph property }
    requires below { AreBelow graph.now.graph below.now }
    ensures { IsTrue result ↔ AcceptsTree graph.now.graph property (assumed_of assumed.now)
        (RowsLeaf rows.now) }
{
    graph.valid_law();
    tpl_laws::first_broken_is_right();
    tpl_laws::proves_is_right();
    if rows.len() != graph.len() {
        return false;
    }
    if !rows_fit(graph, rows) {
        return false;
    }
    if !are_plain(rows) {
        return false;
    }
    let bodies = Bodies::of_leaf(graph, assumed, rows);
    match leaf_fault(graph, property, assumed, below, rows, &bodies) {
        None => true,
        Some(_) => false,
    }
}

/// The first row that breaks a rule, or that the leaf doesn't prove the claim.
pub(crate) fn leaf_fault(
    graph: &Graph,
    property: Property,
    assumed: &Assumptions,
    below: &Below,
    rows: &[Row],
    bodies: &Bodies,
) -> Option<LeafFault>
    requires tasks { TasksOf graph.now.graph property }
    requires below { AreBelow graph.now.graph below.now }
    requires rows { length (plain rows.now) ≡ length graph.now.graph.tasks }
    requires ids { IsTrue (rows_fit graph.now.graph (plain rows.now)) }
    requires bodies { AreBodies graph.now.graph (assumed_of assumed.now) (plain rows.now)
        bodies.now }
    ensures { fault_in result ≡ leaf_fault graph.now.graph property (assumed_of assumed.now)
        (plain rows.now) }
{
    if let Some(fault) = first_broken(graph, assumed, below, rows, bodies) {
        return Some(fault);
    }
    if !proves(graph, assumed, rows, bodies, property) {
        return Some(LeafFault::ProvesNot);
    }
    None
}

/// The first task whose row breaks a rule.
fn first_broken(
    graph: &Graph,
    assumed: &Assumptions,
    below: &Below,
    rows: &[Row],
    bodies: &Bodies,
) -> Option<LeafFault>
    requires below { AreBelow graph.now.graph below.now }
    requires rows { length (plain rows.now) ≡ length graph.now.graph.tasks }
    requires ids { IsTrue (rows_fit graph.now.graph (plain rows.now)) }
    requires bodies { AreBodies graph.now.graph (assumed_of assumed.now) (plain rows.now)
        bodies.now }
    ensures { fault_in result ≡ first_broken graph.now.graph (assumed_of assumed.now)
        (plain rows.now) 0 (length graph.now.graph.tasks) }
{
    for task in 0..graph.len() {
        let task = TaskId(task as u16);
        if let Some(rule) = broken(graph, assumed, below, rows, bodies, task) {
            return Some(LeafFault::Breaks(task, rule));
        }
    }
    None
}

/// The first rule that the row of the task breaks.
fn broken(
    graph: &Graph,
    assumed: &Assumptions,
    below: &Below,
    rows: &[Row],
    bodies: &Bodies,
    task: TaskId,
) -> Option<Rule>
    requires task { is_task graph.now.graph task.0 }
    requires below { AreBelow graph.now.graph below.now }
    requires rows { length (plain rows.now) ≡ length graph.now.graph.tasks }
    requires ids { IsTrue (rows_fit graph.now.graph (plain rows.now)) }
    requires bodies { AreBodies graph.now.graph (assumed_of assumed.now) (plain rows.now)
        bodies.now }
    ensures { result ≡ broken graph.now.graph (assumed_of assumed.now) (plain rows.now) task.0 }
{
    if !runs(graph, rows, bodies, task) {
        return Some(Rule::K1);
    }
    if !ends(graph, assumed, rows, bodies, task) {
        return Some(Rule::K2);
    }
    if !before(graph, rows, task) {
        return Some(Rule::K3);
    }
    if !past(graph, assumed, below, rows, task) {
        return Some(past_rule(graph, task));
    }
    if !chain(graph, assumed, rows, task) {
        return Some(Rule::K6);
    }
    None
}

/// The rule that says what may be past the task.
pub fn past_rule(graph: &Graph, task: TaskId) -> Rule
    requires { is_task graph.now.graph task.0 }
    ensures { result ≡ past_rule (kind graph.now.graph task.0) }
{
    match graph.role(task) {
        Role::All(_) => Rule::K5,
        Role::Any(_) => Rule::K5,
        _ => Rule::K4,
    }
}
