//! How far the work is, told on the standard error while it goes on, where that is a terminal.

use crate::seen::Seen;
use std::alloc::Global;
use std::io::IsTerminal;
use std::sync::atomic::{AtomicBool, AtomicUsize, Ordering};
use std::thread;
use std::time::Duration;
use tpl_fast::Fast;
use tpl_graph::Graph;
use tpl_machine::Core;
use tpl_model::{Inputs, TaskId};
use tpl_report::{Follow, Watcher};
use tpl_verdicts::Style;
use tpl_verify::{Attend, Verdict};

/// How long it takes until the line is written again, in milliseconds.
const PAUSE: u64 = 20;

/// The most times that the line is written: in an hour.
const MOST_LOOKS: u32 = 180_000;

/// Erases the progress line.
pub(crate) fn clear(rt: &HostRuntime) {
    let _ = eprint!(rt; "\r\x1b[K");
}

/// Tells how many tasks of a run have ended.
#[derive(Drop)]
pub(crate) struct RunProgress<'a> {
    rt: &'a HostRuntime,
    graph: &'a Graph,
    inputs: Inputs,
    over: AtomicBool,
}

impl<'a> RunProgress<'a> {
    /// The progress of a run of the graph with these inputs, which hasn't begun.
    pub(crate) fn new(rt: &'a HostRuntime, graph: &'a Graph, inputs: Inputs) -> RunProgress<'a> {
        RunProgress {
            rt,
            graph,
            inputs,
            over: AtomicBool::new(false),
        }
    }

    /// How many tasks have ended by now.
    fn tell(&self, run: &Fast<'_>) {
        let ended = ended_tasks(run);
        let _ = eprint!(self.rt; "\r{ended} of {} tasks have ended\x1b[K", self.graph.len());
    }
}

/// The task of this number has ended.
fn has_ended(run: &Fast<'_>, number: usize) -> bool {
    if number >= run.graph().len() {
        return false;
    }
    run.ended(TaskId(number as u16)).is_some()
}

/// How many tasks of a run have ended.
fn ended_tasks(run: &Fast<'_>) -> usize {
    let mut count: usize = 0;
    for number in 0..run.graph().len() {
        if has_ended(run, number) {
            count = count.saturating_add(1);
        }
    }
    count
}

/// Does the events behind the first so many, and says how many there are.
fn catch_up(run: &mut Fast<'_>, watcher: &mut Watcher, done: usize) -> usize {
    let _ = watcher.look();
    for event in watcher.list().iter().skip(done) {
        let _done = run.step(*event);
    }
    watcher.list().len()
}

/// Tells how many claims have a verdict.
#[derive(Drop)]
pub(crate) struct ClaimProgress<'a> {
    rt: &'a HostRuntime,
    shows: bool,
    judged: AtomicUsize,
    seen: Option<&'a Seen>,
}

impl<'a> ClaimProgress<'a> {
    /// No claim has a verdict yet. They are counted on a terminal alone.
    pub(crate) fn new(rt: &'a HostRuntime) -> ClaimProgress<'a> {
        ClaimProgress {
            rt,
            shows: rt.stderr().is_terminal(),
            judged: AtomicUsize::new(0),
            seen: None,
        }
    }

    /// The same, but each verdict is seen; and where verdicts are written to a terminal as they come, nothing is told beside
    /// them.
    pub(crate) fn beside(rt: &'a HostRuntime, style: Style, seen: &'a Seen) -> ClaimProgress<'a> {
        let progress = ClaimProgress::new(rt);
        let is_told = style == Style::Text && rt.stdout().is_terminal();
        ClaimProgress {
            shows: progress.shows && !is_told,
            seen: Some(seen),
            ..progress
        }
    }
}

/// What is said at once of a claim with this verdict. Nothing, where it holds and isn't empty.
fn said_of(verdict: &Verdict) -> Option<&'static str> {
    match verdict {
        Verdict::Holds { empty: None, .. } => None,
        Verdict::Holds { empty: Some(_), .. } => Some("is empty"),
        Verdict::Fails(_) => Some("fails"),
        Verdict::Unknown(_) => Some("is unknown"),
    }
}

impl Attend for ClaimProgress<'_> {
    fn judged(&self, number: usize, verdict: &Verdict) {
        if let Some(seen) = self.seen {
            seen.judged(verdict);
        }
        if self.shows {
            let judged = self.judged.fetch_add(1, Ordering::SeqCst).saturating_add(1);
            if let Some(said) = said_of(verdict) {
                let _ = eprint!(self.rt; "\rclaim {number} {said}\x1b[K\n");
            }
            let _ = eprint!(self.rt; "\rclaims with a verdict: {judged}\x1b[K");
        }
    }
}

impl Follow for RunProgress<'_> {
    fn follow(&self, watcher: Watcher) {
        let mut watcher = watcher;
        let Ok(mut run) = Fast::open(self.rt.alloc(), self.graph, self.inputs.copy()) else {
            return;
        };
        let mut done = 0;
        for _ in 0..MOST_LOOKS {
            done = catch_up(&mut run, &mut watcher, done);
            self.tell(&run);
            if self.over.load(Ordering::Acquire) {
                break;
            }
            thread::sleep(self.rt, Duration::from_millis(PAUSE));
        }
        clear(self.rt);
    }

    fn stop(&self) {
        self.over.store(true, Ordering::Release);
    }
}
