//! The jobs of tasks that are ready to run.

ghost use Rattle.std.specs.Prelude.{◌≡◌};
ghost use Rattle.tpl_runtime.specs.Prelude.{Puts};

use crate::queue::{ItemPass, ItemQueue};
use std::sync::Wait;
use tpl_hall::Hall;
use tpl_items::{Children, Stock};
use tpl_machine::Core;
use tpl_model::{Act, Event, Status, TaskId};

/// Puts the job of a task, if it is ready to run and wasn't put before. A job that only a certain worker may begin is
/// kept for that worker, and one for which the queue has no place is shelved.
fn put_one<K: Drop, W: Drop, R: Wait>(
    rt: &R,
    hall: &Hall<'_, K>,
    stock: &mut Stock<W>,
    queue: &ItemQueue<W>,
    pass: &mut ItemPass<W>,
    task: TaskId,
)
    requires { pass.old.queue ≡ queue.now.id }
    ensures pass { pass.new.queue ≡ queue.now.id }
    ensures job { Puts hall.now.core task pass.old.tally pass.new.tally stock.old stock.new }
{
    let number = task.0 as usize;
    if number >= hall.core().graph().len() || hall.core().status(task) != Status::WaitingToRun {
        return;
    }
    if !stock.take_unput(number) {
        return;
    }
    match hall.bound_to(task) {
        Some(worker) => stock.keep(worker, task),
        None => {
            if queue.put(rt, pass, stock.job(task)).is_err() {
                stock.shelve(task);
            }
        }
    }
}

/// Puts the jobs of all tasks that are ready to run and weren't put before, in declared order.
pub(crate) fn put_all<K: Drop, W: Drop, R: Wait>(
    rt: &R,
    hall: &Hall<'_, K>,
    stock: &mut Stock<W>,
    queue: &ItemQueue<W>,
    pass: &mut ItemPass<W>,
)
    requires { pass.old.queue ≡ queue.now.id }
    ensures { pass.new.queue ≡ queue.now.id }
{
    for number in 0..hall.core().graph().len() {
        put_one(rt, hall, stock, queue, pass, TaskId(number as u16));
    }
}

/// Whether these events release tasks in declared order.
fn release_in_order(events: &[(u32, Event)]) -> bool {
    let mut last = 0;
    for (_place, event) in events {
        if let Act::Release(task) = event.act {
            if task.0 < last {
                return false;
            }
            last = task.0;
        }
    }
    true
}

/// Puts the jobs of the tasks that the events of a section made ready, in declared order: a release its own task, and a
/// step a child of its task. A step that starts a child makes no other task ready.
pub(crate) fn put_after<K: Drop, W: Drop, R: Wait>(
    rt: &R,
    hall: &Hall<'_, K>,
    stock: &mut Stock<W>,
    children: &Children,
    queue: &ItemQueue<W>,
    pass: &mut ItemPass<W>,
    events: &[(u32, Event)],
)
    requires { pass.old.queue ≡ queue.now.id }
    ensures { pass.new.queue ≡ queue.now.id }
{
    if !release_in_order(events) {
        put_all(rt, hall, stock, queue, pass);
        return;
    }
    for (_place, event) in events {
        match event.act {
            Act::Release(task) => put_one(rt, hall, stock, queue, pass, task),
            Act::Step(task) => {
                for child in children.of(task) {
                    put_one(rt, hall, stock, queue, pass, *child);
                }
            }
            _ => {}
        }
    }
}
