//! The queue.
ghost use Rattle.std.specs.Prelude.{◌≡◌, ◌<◌, ◌+◌, ℕ, [], map, IfOk, IfErr, IfSome, IfNone, OnOk, OnErr};
ghost use Rattle.tpl_items.specs.Prelude.{Accounts, HeldAtOnce, HeldFewer, IsWhole, WasOldest, after_put, after_take, both, first_half, new_tally, second_half, times};

use crate::Job;
use crate::pass::QueuePass;
use crate::reserve::{Reserve, reserved, unreserved, witness};
use crate::rule::{Halves, Placed, Put, Ring, Taken};
use std::alloc::{AllocError, Global};
use std::marker::Model;
use std::sync::Wait;

/// A bounded queue of jobs, for any number of workers at once.
///
/// Contracts see its name and its capacity, in jobs. What it holds changes under every caller, so no
/// contract names it: what a worker knows of it stands in its [`QueuePass`].
#[derive(Drop)]
pub struct JobQueue<I> {
    ring: Ring<I>,
    reserve: Reserve<Job<I>>,
}

impl<I> Model for JobQueue<I> {
    ghost use Rattle.tpl_items.specs.Pass.{QueueView};

    ghost Value = { QueueView };

    ghost use Rattle.std.specs.Prelude.{◌≡◌};
    ghost use Rattle.crossbeam_queue.specs.Passes.{ruled_capacity};

    ghost view = { λ q. record {
      id = q.ring.table.shared.table_id;
      capacity = ruled_capacity q.ring;
    } };

    ghost invariant = { λ q. (q.reserve.shared.key ≡ ruled_capacity q.ring)
        × (q.reserve.shared.table_id.words ≡ 1) };
}

impl<I: Drop> JobQueue<I> {
    /// An empty queue with places for `capacity` jobs, and its whole pass. It takes all memory that the
    /// queue ever needs, and fails only where there is none.
    pub fn new(alloc: Global, capacity: usize) -> Result<(JobQueue<I>, QueuePass<I>), AllocError>
        requires { 0 < capacity }
        ensures capacity { IfOk result (λ made. made.0.capacity ≡ capacity) }
        ensures queue { IfOk result (λ made. made.1.queue ≡ made.0.id) }
        ensures whole { IfOk result (λ made. made.1.tally ≡ new_tally) }
    {
        let reserve = reserved(alloc, capacity)?;
        let (ring, seat) = Ring::ruled(alloc, capacity)?;
        Ok((JobQueue { ring, reserve }, QueuePass { seat }))
    }

    /// Cuts a pass in two halves. The first keeps what the pass put and took.
    ///
    /// Neither half knows what the other puts and takes. So at a half what `put` says of a free place and of a full
    /// queue, `take` of an empty one and of the oldest job, and `drain` of the list, says nothing of what the queue held:
    /// these are facts of the whole pass alone, which is had again once all halves are joined.
    pub fn split(&self, pass: QueuePass<I>) -> (QueuePass<I>, QueuePass<I>)
        requires { pass.queue ≡ self.now.id }
        ensures queue { (result.0.queue ≡ self.now.id) × (result.1.queue ≡ self.now.id) }
        ensures first { result.0.tally ≡ first_half pass.tally }
        ensures second { result.1.tally ≡ second_half pass.tally }
    {
        let QueuePass { mut seat } = pass;
        let other = self.ring.another::<Halves>(&mut seat);
        (QueuePass { seat }, QueuePass { seat: other })
    }

    /// Makes one pass of two. What the second put and took stands behind what the first did.
    pub fn join(&self, first: QueuePass<I>, second: QueuePass<I>) -> QueuePass<I>
        requires first { first.queue ≡ self.now.id }
        requires second { second.queue ≡ self.now.id }
        ensures queue { result.queue ≡ self.now.id }
        ensures both { result.tally ≡ both first.tally second.tally }
    {
        let QueuePass { mut seat } = first;
        let QueuePass { seat: other } = second;
        self.ring.absorb::<Halves>(&mut seat, other);
        QueuePass { seat }
    }

    /// Puts a job at the back. It is put only where the queue had a free place at one moment of the call, and comes back
    /// only where the queue was full at one, as the whole pass knows; at a part of it `room` and `full` say nothing
    /// (`split`).
    pub fn put<R: Wait>(&self, rt: &R, pass: &mut QueuePass<I>, job: Job<I>) -> Result<(), Job<I>>
        requires { pass.old.queue ≡ self.now.id }
        ensures queue { pass.new.queue ≡ pass.old.queue }
        ensures put { OnOk result (pass.new.tally ≡ after_put pass.old.tally job.task.0) }
        ensures refused { IfErr result (λ back. (back ≡ job) × (pass.new.tally ≡ pass.old.tally)) }
        ensures full { OnErr result (HeldAtOnce self.now.capacity pass.old.tally) }
        ensures room { OnOk result (HeldFewer self.now.capacity pass.old.tally) }
    {
        let places = witness(&self.reserve);
        let placed = Placed { job, places };
        if let Err(back) = self.ring.push_as::<Put, R>(rt, &mut pass.seat, placed) {
            return Err(back.into_job());
        }
        Ok(())
    }

    /// Takes the job at the front. There is none only where the queue was empty at one moment of the call, as the whole
    /// pass knows; at a part of it `empty` and `oldest` say nothing (`split`).
    pub fn take<R: Wait>(&self, rt: &R, pass: &mut QueuePass<I>) -> Option<Job<I>>
        requires { pass.old.queue ≡ self.now.id }
        ensures queue { pass.new.queue ≡ pass.old.queue }
        ensures taken { IfSome result (λ job. pass.new.tally
            ≡ after_take pass.old.tally job.task.0) }
        ensures oldest { IfSome result (λ job. WasOldest job.task.0 pass.old.tally) }
        ensures none { IfNone result (pass.new.tally ≡ pass.old.tally) }
        ensures empty { IfNone result (HeldAtOnce 0 pass.old.tally) }
    {
        let placed = self.ring.pop_as::<Taken, R>(rt, &mut pass.seat)?;
        Some(placed.into_job())
    }

    /// Takes all jobs that are left, the oldest first, into the list that `new` reserved. Where the pass
    /// is the whole one, each task was put as often as it was taken or is in this list; at a part of it the clauses say
    /// nothing (`split`).
    pub fn drain<R: Wait>(self, rt: &R, pass: QueuePass<I>) -> Vec<Job<I>>
        requires { pass.queue ≡ self.id }
        ensures accounts { Accounts pass.tally (map (λ j. j.task.0) result.items) }
        ensures each_once { IsWhole pass.tally → (t : ℕ) → times t pass.tally.put
            ≡ times t pass.tally.taken + times t (map (λ j. j.task.0) result.items) }
    {
        let JobQueue { ring, reserve } = self;
        let QueuePass { mut seat } = pass;
        let mut list = unreserved(reserve);
        let count = ring.len_as::<Taken, R>(rt, &mut seat);
        for _turn in 0..count {
            match ring.pop_as::<Taken, R>(rt, &mut seat) {
                Some(placed) => list.push_reserved(placed.into_job()),
                None => return list,
            }
        }
        ring.learn_as::<Taken>(&mut seat);
        list
    }
}
