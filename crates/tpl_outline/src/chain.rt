//! The chain of an observed task: who takes its exception over, and who reads it (the rule K6).

ghost use Rattle.std.specs.Prelude.{◌<◌, ◌≤◌, length, IfOk};
ghost use Rattle.tpl_model.specs.Prelude.{is_task};

use crate::bits::Bits;
use crate::setting::Setting;
use std::alloc::{AllocError, Global};
use tpl_model::{Final, Finals, MOST_IN_CHAIN, MOST_TASKS, TaskId};

/// A task that carries the exception over.
#[derive(Clone, Copy)]
struct Carrier {
    task: TaskId,
    /// The place of the carrier before it.
    from: usize,
    /// How many tasks have taken the exception over.
    taken: usize,
}

/// The shortest chain of the task, of at most `MOST_IN_CHAIN` tasks; of equally short ones the one with the
/// least task where they first differ. It is empty where there is none.
pub(crate) fn chain(
    alloc: Global,
    setting: Setting<'_>,
    task: TaskId,
) -> Result<Vec<TaskId>, AllocError>
    ensures { IfOk result (λ chain. length chain.items ≤ MOST_IN_CHAIN) }
{
    let mut seen = Bits::none();
    let mut carriers = Vec::new(alloc);
    carriers.push(Carrier {
        task,
        from: 0,
        taken: 0,
    })?;
    for place in 0..MOST_TASKS as usize {
        let Some(carrier) = carrier_at(&carriers, place) else {
            return Ok(Vec::new(alloc));
        };
        if let Some(reader) = reader_of(setting, carrier.task) {
            return path(alloc, &carriers, place, reader);
        }
        if carrier.taken < MOST_IN_CHAIN - 1 {
            push_takers(setting, &mut carriers, &mut seen, place, carrier)?;
        }
    }
    Ok(Vec::new(alloc))
}

/// The task has a chain of at most `MOST_IN_CHAIN` tasks. That depends on inputs and quiet tokens alone, and not on
/// how tasks end.
pub fn has_chain(setting: Setting<'_>, task: TaskId) -> bool {
    let mut carriers = Bits::none();
    carriers.insert(task);
    let mut seen = Bits::none();
    for _ in 0..MOST_IN_CHAIN {
        if one_is_read(setting, carriers) {
            return true;
        }
        carriers = takers_of(setting, carriers).without(&seen);
        seen.add(&carriers);
    }
    false
}

/// The exception of one of these carriers is read.
fn one_is_read(setting: Setting<'_>, carriers: Bits) -> bool {
    let mut left = carriers;
    for _ in 0..MOST_TASKS {
        match left.pop_first() {
            None => return false,
            Some(task) if reader_of(setting, task).is_some() => return true,
            Some(_) => {}
        }
    }
    false
}

/// Who takes over what one of these carries.
fn takers_of(setting: Setting<'_>, carriers: Bits) -> Bits {
    let mut left = carriers;
    let mut takers = Bits::none();
    for _ in 0..MOST_TASKS {
        match left.pop_first() {
            None => return takers,
            Some(task) => takers.add(setting.followers.takers(task)),
        }
    }
    takers
}

fn carrier_at(carriers: &[Carrier], place: usize) -> Option<Carrier> {
    match carriers.get(place) {
        None => None,
        Some(carrier) => Some(*carrier),
    }
}

/// The tasks that take over what the carrier at the place carries, if they aren't seen yet.
fn push_takers(
    setting: Setting<'_>,
    carriers: &mut Vec<Carrier>,
    seen: &mut Bits,
    place: usize,
    carrier: Carrier,
) -> Result<(), AllocError>
    requires { carrier.taken < MOST_IN_CHAIN }
{
    let mut takers = setting.followers.takers(carrier.task).without(seen);
    seen.add(&takers);
    for _ in 0..MOST_TASKS {
        let Some(task) = takers.pop_first() else {
            return Ok(());
        };
        carriers.push(Carrier {
            task,
            from: place,
            taken: carrier.taken + 1,
        })?;
    }
    Ok(())
}

/// The tasks from the first that takes over to the reader.
fn path(
    alloc: Global,
    carriers: &[Carrier],
    place: usize,
    reader: TaskId,
) -> Result<Vec<TaskId>, AllocError>
    ensures { IfOk result (λ path. length path.items ≤ MOST_IN_CHAIN) }
{
    let mut path = Vec::new(alloc);
    path.push(reader)?;
    let mut at = place;
    for _ in 0..MOST_IN_CHAIN - 1 {
        match carrier_at(carriers, at) {
            Some(carrier) if carrier.taken > 0 => {
                path.push(carrier.task)?;
                at = carrier.from;
            }
            _ => break,
        }
    }
    path.reverse();
    Ok(path)
}

/// The least continuation that reads the task's exception.
fn reader_of(setting: Setting<'_>, task: TaskId) -> Option<TaskId> {
    for reader in setting.followers.continuations(task) {
        if (reader.0 as usize) < setting.graph.len() && reads(setting, *reader) {
            return Some(*reader);
        }
    }
    None
}

/// The continuation runs where its antecedent is faulted, isn't canceled before, and observes the exception on each path.
fn reads(setting: Setting<'_>, reader: TaskId) -> bool
    requires { is_task setting.graph.now.graph reader.0 }
{
    setting.graph.options(reader).allows(Final::Faulted)
        && !setting.assumed.is_loud(setting.graph, reader)
        && observes(setting, reader)
}

/// Each path of the reader's body passes an `observe`, where its antecedent is faulted.
fn observes(setting: Setting<'_>, reader: TaskId) -> bool
    requires { is_task setting.graph.now.graph reader.0 }
{
    let faulted = Finals {
        ran: false,
        canceled: false,
        faulted: true,
    };
    let view = setting
        .assumed
        .view(setting.graph.own_token(reader), faulted);
    tpl_model::must_observe(setting.graph.body(reader), &view)
}
