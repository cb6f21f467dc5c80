//! How a session runs its workers.

ghost use Rattle.std.specs.Prelude.{◌≡◌, ◌↔◌, ◌≤◌, ℕ, [], List, None, map, vec_len, vec_capacity, IfOk, IfErr, IfSome, IfNone, OnOk, IsPermutation};
ghost use Rattle.tpl_hall.specs.Prelude.{SeatView};
ghost use Rattle.tpl_hall.specs.declared.seat.SeatFault.TheVariants.{BadActor};
ghost use Rattle.tpl_runtime.specs.Prelude.{AllWorked, AreBefore, AreNew, ComeBack, IsCount, workers};
ghost use Rattle.tpl_runtime.specs.declared.run.RunWhy.TheVariants.{BadCount, Spawn};

use crate::queue::ItemPass;
use crate::session::Session;
use crate::shared::Halting;
use crate::threads::{Child, run_crew};
use std::alloc::{AllocError, Global};
use std::sync::Wait;
use std::thread::Threads;
use thiserror::Error;
use tpl_hall::{Ended, Seat, SeatFault};
use tpl_items::Item;
use tpl_model::{Actor, MOST_WORKERS, Worker};

/// Why the workers didn't all run.
#[derive(Clone, Copy, PartialEq, Eq, Debug, Error)]
pub enum RunWhy {
    /// There are 1 to `MOST_WORKERS` workers.
    #[error("BadCount")]
    BadCount,
    /// This worker has no seat, since it has one already. Those before it have theirs.
    #[error("{1}")]
    Seat(Worker, SeatFault),
    /// There was no thread for a worker. The session is halted, and the seats of all workers come back.
    #[error("Spawn")]
    Spawn,
    /// There was no memory for this worker. Those before it have their seats, and none was started.
    #[error("out of memory")]
    Memory(Worker),
}

/// Why the workers didn't all run, the seats that were made, and the pass.
#[derive(Drop)]
pub struct RunFault<W> {
    pub why: RunWhy,
    pub seats: Vec<Seat>,
    pub pass: ItemPass<W>,
}

/// What `run` fills: the seats of its workers, those that are left, the workers that are done, and their threads.
type Lists<L> = (Vec<Seat>, Vec<Seat>, Vec<(Seat, Ended)>, Vec<Child<L>>);

/// Empty lists with room for so many workers.
fn lists<L: Drop>(alloc: Global, count: usize) -> Result<Lists<L>, AllocError>
    ensures empty { IfOk result (λ r. (r.0.items ≡ []) × (r.1.items ≡ []) × (r.2.items ≡ [])
        × (r.3.items ≡ [])) }
    ensures room { IfOk result (λ r. (vec_capacity r.0 ≡ count) × (vec_capacity r.1 ≡ count)
        × (vec_capacity r.2 ≡ count) × (vec_capacity r.3 ≡ count)) }
{
    let seats = Vec::with_capacity(alloc, count)?;
    let left = Vec::with_capacity(alloc, count)?;
    let done = Vec::with_capacity(alloc, count)?;
    let children = Vec::with_capacity(alloc, count)?;
    Ok((seats, left, done, children))
}

/// Why the workers didn't all run, where this one has no seat.
fn no_seat(worker: Worker, fault: SeatFault) -> RunWhy
    requires { fault ≡ BadActor → ⊥ }
    ensures seats { (n : ℕ) (seats : List SeatView) → AreBefore worker.0 n seats
        → ComeBack result n seats }
    ensures count { result ≡ BadCount → ⊥ }
{
    match fault {
        SeatFault::Memory => RunWhy::Memory(worker),
        fault => RunWhy::Seat(worker, fault),
    }
}

/// The seats alone, in an empty list that has room for them.
fn seats_of(done: Vec<(Seat, Ended)>, mut seats: Vec<Seat>) -> Vec<Seat>
    requires empty { seats.items ≡ [] }
    requires room { vec_len done ≤ vec_capacity seats }
    ensures { result.items ≡ map (λ d. d.0) done.items }
{
    for (seat, _ended) in done {
        seats.push_reserved(seat);
    }
    seats
}

/// What a run gives: the workers that are done, with the pass; or their seats, in the empty list `left`, where the session
/// was halted since one of them had no thread.
fn answer_of<W>(
    done: Vec<(Seat, Ended)>,
    left: Vec<Seat>,
    pass: ItemPass<W>,
    halting: Option<Halting>,
) -> Result<(Vec<(Seat, Ended)>, ItemPass<W>), RunFault<W>>
    requires empty { left.items ≡ [] }
    requires room { vec_len done ≤ vec_capacity left }
    ensures done { IfOk result (λ r. (halting ≡ None) × (r.0 ≡ done) × (r.1 ≡ pass)) }
    ensures left { IfErr result (λ e. (e.why ≡ Spawn) × (e.pass ≡ pass)) }
    ensures seats { (n : ℕ) → IsPermutation (workers n) (map (λ d. d.0.actor) done.items)
        → IfErr result (λ e. ComeBack e.why n e.seats.items) }
{
    match halting {
        None => Ok((done, pass)),
        Some(_) => Err(RunFault {
            why: RunWhy::Spawn,
            seats: seats_of(done, left),
            pass,
        }),
    }
}

impl<'g, K: Drop + Send, W: Item<K> + Send> Session<'g, K, W> {
    /// Seats the workers 1 to n and lets each work in a thread of its own, until all have come back. It takes all memory
    /// before the first starts.
    pub fn run<R: Threads + Wait + Sync>(
        &self,
        rt: &R,
        alloc: Global,
        pass: ItemPass<W>,
        n: u16,
    ) -> Result<(Vec<(Seat, Ended)>, ItemPass<W>), RunFault<W>>
        requires { pass.queue ≡ self.now.queue }
        ensures pass { IfOk result (λ r. r.1.queue ≡ self.now.queue) }
        ensures back { IfErr result (λ e. e.pass.queue ≡ self.now.queue) }
        ensures workers { IfOk result (λ r. map (λ d. d.0.actor) r.0.items ≡ workers n) }
        ensures count { IfOk result (λ r. vec_len r.0 ≡ n) }
        ensures worked { IfOk result (λ r. AllWorked self.now r.0.items) }
        ensures few { OnOk result (IsCount n) }
        ensures bad_count { IfErr result (λ e. (e.why ≡ BadCount) ↔ (IsCount n → ⊥)) }
        ensures seats { IfErr result (λ e. ComeBack e.why n e.seats.items) }
    {
        if n == 0 || n > MOST_WORKERS {
            return Err(RunFault {
                why: RunWhy::BadCount,
                seats: Vec::new(alloc),
                pass,
            });
        }
        let Ok((mut seats, left, done, children)) = lists(alloc, n as usize) else {
            return Err(RunFault {
                why: RunWhy::Memory(Worker(1)),
                seats: Vec::new(alloc),
                pass,
            });
        };
        if let Some((worker, fault)) = self.seat_workers(rt, alloc, n, &mut seats) {
            return Err(RunFault {
                why: no_seat(worker, fault),
                seats,
                pass,
            });
        }
        let (done, pass, halting) = run_crew(self, rt, seats, children, done, pass);
        answer_of(done, left, pass, halting)
    }

    /// Seats the workers 1 to n in an empty list that has room for them. The first that can't be seated comes back, and why.
    fn seat_workers<R: Wait>(
        &self,
        rt: &R,
        alloc: Global,
        n: u16,
        seats: &mut Vec<Seat>,
    ) -> Option<(Worker, SeatFault)>
        requires few { n ≤ MOST_WORKERS }
        requires empty { seats.old.items ≡ [] }
        requires room { n ≤ vec_capacity seats.old }
        ensures all { IfNone result (AreNew n seats.new.items) }
        ensures count { IfNone result (vec_len seats.new ≡ n) }
        ensures first { IfSome result (λ r. AreBefore r.0.0 n seats.new.items) }
        ensures known { IfSome result (λ r. r.1 ≡ BadActor → ⊥) }
    {
        for number in 0..n {
            let worker = Worker(number + 1);
            match self.seat(rt, alloc, Actor::Worker(worker)) {
                Ok(seat) => seats.push_reserved(seat),
                Err(fault) => return Some((worker, fault)),
            }
        }
        None
    }
}
