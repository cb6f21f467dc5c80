//! How tasks were seen to end, with ids in place of names.

ghost use Rattle.std.specs.Prelude.{◌≡◌, length, option_and_then, IfOk, IfErr, OnOk, All, option_map};
ghost use Rattle.std.specs.List.{list_all};
ghost use Rattle.serde_json.specs.Find.{get};
ghost use Rattle.tpl_cert.specs.Prelude.{is_declared};
ghost use Rattle.tpl_json.specs.Prelude.{final_at, view};
ghost use Rattle.tpl_model.specs.Prelude.{is_task};
ghost use Rattle.tpl_reader.specs.Prelude.{ends_below, ends_in, knows_ends, with_end};
ghost use Rattle.tpl_reader.specs.declared.fault.ReadFault.TheVariants.{Memory};

use crate::fault::ReadFault;
use json::Value;
use std::alloc::Global;
use tpl_graph::Graph;
use tpl_json::{final_of, find};
use tpl_model::{Final, TaskId};

fn declares(graph: &Graph, members: &[(&str, Value<'_>)]) -> bool
    ensures { result ≡ list_all (λ m. is_declared graph.now.names.tasks m.0.now) members.now }
{
    members.iter().all(|member| graph.task(member.0).is_some())
}

/// Whether the names of the members are tasks'.
#[tactic(auto, unfolding(crate::specs::Begin::knows_members))]
pub(crate) fn knows_ends(graph: &Graph, ended: Option<&Value<'_>>) -> bool
    ensures { result ≡ knows_ends graph.now.names.tasks
        (option_map (λ v. view v.now) ended.entry) }
{
    match ended {
        None => true,
        Some(value) => match value {
            Value::Object(members) => declares(graph, members.as_slice()),
            _ => true,
        },
    }
}

/// The member's final status, if there is one.
fn end_in(value: &Value<'_>, name: &str) -> Option<Final>
    ensures { result ≡ option_and_then final_at (get name.now (view value.now)) }
{
    match find(value, name) {
        None => None,
        Some(member) => final_of(member).ok(),
    }
}

/// The task's end too, if it was seen.
fn add_end(
    ends: &mut Vec<(TaskId, Final)>,
    task: TaskId,
    end: Option<Final>,
) -> Result<(), ReadFault>
    ensures ok { OnOk result (ends.new.items ≡ with_end task end ends.old.items) }
    ensures err { IfErr result (λ e. e ≡ Memory) }
{
    if let Some(end) = end {
        ends.push((task, end))?;
    }
    Ok(())
}

/// The ends of the graph's tasks, as far as the object has them.
fn ends_of(
    alloc: Global,
    graph: &Graph,
    value: &Value<'_>,
) -> Result<Vec<(TaskId, Final)>, ReadFault>
    ensures ok { IfOk result (λ v. v.items ≡ ends_below graph.now.names.tasks (view value.now)
        (length graph.now.names.tasks)) }
    ensures tasks { IfOk result (λ v. All (λ said. is_task graph.now.graph said.0.0) v.items) }
    ensures err { IfErr result (λ e. e ≡ Memory) }
{
    graph.valid_law();
    let mut ends = Vec::new(alloc);
    for index in 0..graph.len() {
        let task = TaskId(index as u16);
        let end = end_in(value, graph.name(task));
        add_end(&mut ends, task, end)?;
    }
    Ok(ends)
}

/// The ends that were seen, in the order in which the tasks are declared. Out of memory is the only error.
pub(crate) fn ends_in(
    alloc: Global,
    graph: &Graph,
    ended: Option<&Value<'_>>,
) -> Result<Vec<(TaskId, Final)>, ReadFault>
    ensures ok { IfOk result (λ v. v.items ≡ ends_in graph.now.names.tasks
        (option_map (λ v. view v.now) ended.entry)) }
    ensures tasks { IfOk result (λ v. All (λ said. is_task graph.now.graph said.0.0) v.items) }
    ensures err { IfErr result (λ e. e ≡ Memory) }
{
    match ended {
        None => Ok(Vec::new(alloc)),
        Some(value) => ends_of(alloc, graph, value),
    }
}
