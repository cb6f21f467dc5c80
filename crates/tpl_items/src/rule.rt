//! What the passes of a queue and the jobs in it have to do with each other at every moment.
ghost use Rattle.std.specs.Prelude.{◌≡◌};

use crate::Job;
use atomic_table::Badge;
use crossbeam_queue::RuledArrayQueue;
use crossbeam_queue::protocol::{Join, Lesson, Outcome, Protocol, Split};
use std::collections::LinkedList;

/// What one pass knows: the tasks of the jobs that it put and took, in order, and that it is
/// `parts / 2 ^ halvings` of the whole pass. No value of it is made.
pub struct Tally {
    pub parts: u64,
    pub halvings: u64,
    pub put: LinkedList<u16>,
    pub taken: LinkedList<u16>,
}

/// A job in the queue, with a witness of how many places the queue has, so that the contract of a push can name the
/// number. The witness has no bytes.
#[derive(Drop)]
pub struct Placed<I> {
    pub job: Job<I>,
    pub places: Badge<usize>,
}

impl<I> Placed<I> {
    /// The job alone.
    pub(crate) fn into_job(self) -> Job<I>
        ensures { result ≡ self.job }
    {
        let Placed { job, places: _ } = self;
        job
    }
}

/// The queue that keeps the rule.
pub type Ring<I> = RuledArrayQueue<Placed<I>, Tally, Balance>;

/// The rule: each task was put as often as it was taken or is in the queue.
pub struct Balance;

impl<I> Protocol<Placed<I>, Tally> for Balance {
    ghost use Rattle.std.specs.Prelude.{map};
    ghost use Rattle.tpl_items.specs.Tally.{new_tally};
    ghost use Rattle.tpl_items.specs.Balance.{IsBalanced};

    ghost holds = { λ jobs tallies. IsBalanced (map (λ p. p.job.task.0) jobs) tallies };

    ghost first = { new_tally };
}

/// A job joins at the back.
pub struct Put;

impl<I> Outcome<Placed<I>, Tally> for Put {
    ghost use Rattle.std.specs.Prelude.{◌≡◌};
    ghost use Rattle.tpl_items.specs.Tally.{after_put, HadRoom};

    ghost then = { λ v p w. (w ≡ after_put v p.job.task.0) × HadRoom p.places.views v };
}

/// A job leaves at the front.
pub struct Taken;

impl<I> Outcome<Placed<I>, Tally> for Taken {
    ghost use Rattle.std.specs.Prelude.{◌≡◌};
    ghost use Rattle.tpl_items.specs.Tally.{after_take, WasOldest};

    ghost then = { λ v p w. (w ≡ after_take v p.job.task.0) × WasOldest p.job.task.0 v };
}

impl<I> Lesson<Placed<I>, Tally> for Put {
    ghost use Rattle.std.specs.Prelude.{map};
    ghost use Rattle.tpl_items.specs.Tally.{Accounts};

    ghost fact = { λ v jobs. Accounts v (map (λ p. p.job.task.0) jobs) };
}

impl<I> Lesson<Placed<I>, Tally> for Taken {
    ghost use Rattle.std.specs.Prelude.{map};
    ghost use Rattle.tpl_items.specs.Tally.{Accounts};

    ghost fact = { λ v jobs. Accounts v (map (λ p. p.job.task.0) jobs) };
}

/// How a pass is cut in two, and how two become one.
pub struct Halves;

impl Split<Tally> for Halves {
    ghost use Rattle.tpl_items.specs.Tally.{first_half, second_half};

    ghost left = { first_half };

    ghost right = { second_half };
}

impl Join<Tally> for Halves {
    ghost use Rattle.std.specs.Prelude.{[]};
    ghost use Rattle.tpl_items.specs.Tally.{tally, both};

    ghost both = { both };

    ghost spent = { tally 0 0 [] [] };
}
