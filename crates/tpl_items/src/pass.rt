//! What a worker uses the queue by.

use crate::rule::{Placed, Tally};
use crossbeam_queue::Pass;
use std::marker::Model;

/// A pass of one queue. It has no bytes, and is neither copied nor cloned.
///
/// Contracts see which queue it belongs to, and its tally: the tasks of the jobs that it put and
/// took, and its share of the whole pass. A pass that is dropped takes its share with it, and the
/// whole pass is never had again.
#[derive(Drop)]
pub struct QueuePass<I> {
    pub(crate) seat: Pass<Placed<I>, Tally>,
}

impl<I> Model for QueuePass<I> {
    ghost use Rattle.tpl_items.specs.Pass.{PassView};

    ghost Value = { PassView };

    ghost use Rattle.std.specs.Prelude.{◌≡◌, ◌<◌, []};
    ghost use Rattle.crossbeam_queue.specs.Passes as passes;

    ghost view = { λ p. record { queue = p.seat.table_id; tally = passes.view p.seat } };

    ghost invariant = { λ p. (p.seat.me.1 ≡ []) × (0 < (passes.view p.seat).parts) };
}
