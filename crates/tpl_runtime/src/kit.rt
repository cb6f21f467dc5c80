//! What a worker works with.

ghost use Rattle.std.specs.Prelude.{◌≡◌};

use crate::queue::{ItemPass, ItemQueue};
use tpl_graph::Graph;
use tpl_hall::{Seat, Stint};
use tpl_model::Inputs;

/// What a worker works with: the graph, the inputs and the queue of its session, its seat, its pass of the queue, and what
/// it remembers between its sections.
#[derive(Drop)]
pub struct Kit<'s, W> {
    pub graph: &'s Graph,
    pub inputs: &'s Inputs,
    pub queue: &'s ItemQueue<W>,
    pub seat: Seat,
    pub pass: ItemPass<W>,
    pub stint: Stint,
    ghost of_queue: { pass.queue ≡ queue.now.id },
}
