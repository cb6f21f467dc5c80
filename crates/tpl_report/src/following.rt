//! Who follows a run while it is made.

ghost use Rattle.std.specs.Prelude.{◌≡◌, ◌↔◌, IfOk, IfErr, OnOk, map};
ghost use Rattle.tpl_runtime.specs.Prelude.{AllWorked, ComeBack, IsCount};
ghost use Rattle.tpl_runtime.specs.declared.run.RunWhy.TheVariants.{BadCount};
ghost use Rattle.tpl_runtime.specs.Workers.{workers as first_workers};

use std::alloc::Global;
use std::sync::Wait;
use std::thread;
use std::thread::{Scope, Threads};
use tpl_items::QueuePass;
use tpl_runtime::{Ended, Item, RunFault, Seat, Session, Watcher};

/// Follows a run while it is made. The run doesn't depend on it.
pub trait Follow: Sync {
    /// Sees the events of the run as they come. It is called in a thread of its own, and has to come back once the run
    /// is over.
    fn follow(&self, watcher: Watcher);

    /// The run is over: whoever follows it has to come back.
    fn stop(&self);
}

/// Sees nothing.
#[derive(Drop)]
pub struct Nobody;

impl Follow for Nobody {
    fn follow(&self, _watcher: Watcher) {}

    fn stop(&self) {}
}

/// Who makes a run, and who follows it.
#[derive(Clone, Copy)]
pub struct Crew<'f, F> {
    /// How many workers there are, 1 to 64.
    pub workers: u16,
    /// Who follows it, if somebody does.
    pub follower: Option<&'f F>,
}

/// Lets the follower see the run in a thread of its own. Where there is none for it, the run isn't followed.
fn start<'s, E, F: Follow + 's>(scope: &Scope<'s, E>, follower: &'s F, watcher: Watcher) {
    let _started = scope.spawn(move || follower.follow(watcher));
}

/// Lets the workers run, and the follower see it.
fn run_seen<'g, R: Threads + Wait + Sync, K: Drop + Send, W: Item<K> + Send, F: Follow>(
    rt: &R,
    alloc: Global,
    session: &Session<'g, K, W>,
    pass: QueuePass<Vec<W>>,
    workers: u16,
    follower: &F,
    watcher: Watcher,
) -> Result<(Vec<(Seat, Ended)>, QueuePass<Vec<W>>), RunFault<W>>
    requires { pass.queue ≡ session.now.queue }
    ensures pass { IfOk result (λ r. r.1.queue ≡ session.now.queue) }
    ensures workers { IfOk result (λ r. map (λ d. d.0.actor) r.0.items ≡ first_workers workers) }
    ensures worked { IfOk result (λ r. AllWorked session.now r.0.items) }
    ensures few { OnOk result (IsCount workers) }
    ensures bad_count { IfErr result (λ e. (e.why ≡ BadCount) ↔ (IsCount workers → ⊥)) }
    ensures seats { IfErr result (λ e. ComeBack e.why workers e.seats.items) }
{
    thread::scope(
        thread::scope_env(),
        rt,
        |scope| -> Result<(Vec<(Seat, Ended)>, QueuePass<Vec<W>>), RunFault<W>>
            requires { pass.queue ≡ session.now.queue }
            ensures pass { IfOk result (λ r. r.1.queue ≡ session.entry.now.queue) }
            ensures workers { IfOk result (λ r. map (λ d. d.0.actor) r.0.items ≡ first_workers
                workers) }
            ensures worked { IfOk result (λ r. AllWorked session.entry.now r.0.items) }
            ensures few { OnOk result (IsCount workers) }
            ensures bad_count { IfErr result (λ e. (e.why ≡ BadCount) ↔ (IsCount workers → ⊥)) }
            ensures seats { IfErr result (λ e. ComeBack e.why workers e.seats.items) }
        {
            start(scope, follower, watcher);
            let done = session.run(rt, alloc, pass, workers);
            follower.stop();
            done
        },
    )
}

/// Lets the workers run, and who follows it, if somebody does and there is memory for it, see that.
pub(crate) fn run_followed<
    'g,
    R: Threads + Wait + Sync,
    K: Drop + Send,
    W: Item<K> + Send,
    F: Follow,
>(
    rt: &R,
    alloc: Global,
    session: &Session<'g, K, W>,
    pass: QueuePass<Vec<W>>,
    crew: Crew<'_, F>,
) -> Result<(Vec<(Seat, Ended)>, QueuePass<Vec<W>>), RunFault<W>>
    requires { pass.queue ≡ session.now.queue }
    ensures pass { IfOk result (λ r. r.1.queue ≡ session.now.queue) }
    ensures workers { IfOk result (λ r. map (λ d. d.0.actor) r.0.items ≡ first_workers
        crew.entry.workers) }
    ensures worked { IfOk result (λ r. AllWorked session.now r.0.items) }
    ensures few { OnOk result (IsCount crew.entry.workers) }
    ensures bad_count { IfErr result (λ e. (e.why ≡ BadCount) ↔ (IsCount crew.entry.workers → ⊥)) }
    ensures seats { IfErr result (λ e. ComeBack e.why crew.entry.workers e.seats.items) }
{
    let Some(follower) = crew.follower else {
        return session.run(rt, alloc, pass, crew.workers);
    };
    match session.watch(alloc) {
        Ok(watcher) => run_seen(rt, alloc, session, pass, crew.workers, follower, watcher),
        Err(_) => session.run(rt, alloc, pass, crew.workers),
    }
}
