//! What workers share, seen without its items.

ghost use Rattle.std.specs.Prelude.{◌≡◌};
ghost use Rattle.tpl_hall.specs.Prelude.{Leaves};
ghost use Rattle.tpl_items.specs.Prelude.{both, first_half, second_half};

use crate::session::Session;
use crate::shared::Halting;
use std::sync::Wait;
use tpl_graph::Graph;
use tpl_hall::{Ended, Seat};
use tpl_items::{Item, QueuePass};
use tpl_model::Inputs;

/// What workers share, seen without the items that its queue carries: so a thread's answer can be known to hold a pass
/// of the same queue.
pub(crate) trait Crew {
    type Load: Drop;

    ghost use Rattle.std.specs.Prelude.{◌≡◌};
    ghost use Rattle.tpl_hall.specs.Stays.{Leaves};
    ghost use Rattle.tpl_items.specs.Tally.{first_half, second_half, both};
    ghost use Rattle.tpl_runtime.specs.Views.{SessionView};

    ghost session: { Self → SessionView };

    /// What they run.
    fn graph(&self) -> &Graph
        ensures { result.now ≡ (session self.now).graph };

    /// The inputs of the run.
    fn inputs(&self) -> &Inputs
        ensures { result.now ≡ (session self.now).inputs };

    /// Works with a seat.
    fn work_with<R: Wait>(
        &self,
        rt: &R,
        seat: Seat,
        pass: QueuePass<Self::Load>,
    ) -> (Seat, QueuePass<Self::Load>, Ended)
        requires { pass.queue ≡ (session self.now).queue }
        ensures actor { result.0.actor ≡ seat.actor }
        ensures pass { result.1.queue ≡ (session self.now).queue }
        ensures left { let s = session self.now in Leaves result.2 s.graph.graph s.inputs seat
            result.0 };

    /// Workers leave.
    fn stop<R: Wait>(&self, rt: &R) -> Halting;

    /// Cuts a pass in two.
    fn cut(&self, pass: QueuePass<Self::Load>) -> (QueuePass<Self::Load>, QueuePass<Self::Load>)
        requires { pass.queue ≡ (session self.now).queue }
        ensures queue { (result.0.queue ≡ (session self.now).queue) × (result.1.queue ≡ (session self.now).queue) }
        ensures first { result.0.tally ≡ first_half pass.tally }
        ensures second { result.1.tally ≡ second_half pass.tally };

    /// Makes one pass of two.
    fn mend(
        &self,
        first: QueuePass<Self::Load>,
        second: QueuePass<Self::Load>,
    ) -> QueuePass<Self::Load>
        requires first { first.queue ≡ (session self.now).queue }
        requires second { second.queue ≡ (session self.now).queue }
        ensures queue { result.queue ≡ (session self.now).queue }
        ensures both { result.tally ≡ both first.tally second.tally };
}

impl<'g, K: Drop, W: Item<K>> Crew for Session<'g, K, W> {
    type Load = Vec<W>;

    ghost session = { λ s. s };

    fn graph(&self) -> &Graph
        ensures { result.now ≡ self.now.graph }
    {
        self.graph
    }

    fn inputs(&self) -> &Inputs
        ensures { result.now ≡ self.now.inputs }
    {
        &self.inputs
    }

    fn work_with<R: Wait>(
        &self,
        rt: &R,
        seat: Seat,
        pass: QueuePass<Vec<W>>,
    ) -> (Seat, QueuePass<Vec<W>>, Ended)
        requires { pass.queue ≡ self.now.queue }
        ensures actor { result.0.actor ≡ seat.actor }
        ensures pass { result.1.queue ≡ self.now.queue }
        ensures left { Leaves result.2 self.now.graph.graph self.now.inputs seat result.0 }
    {
        self.work(rt, seat, pass)
    }

    fn stop<R: Wait>(&self, rt: &R) -> Halting {
        self.halted(rt)
    }

    fn cut(&self, pass: QueuePass<Vec<W>>) -> (QueuePass<Vec<W>>, QueuePass<Vec<W>>)
        requires { pass.queue ≡ self.now.queue }
        ensures queue { (result.0.queue ≡ self.now.queue) × (result.1.queue ≡ self.now.queue) }
        ensures first { result.0.tally ≡ first_half pass.tally }
        ensures second { result.1.tally ≡ second_half pass.tally }
    {
        self.split(pass)
    }

    fn mend(&self, first: QueuePass<Vec<W>>, second: QueuePass<Vec<W>>) -> QueuePass<Vec<W>>
        requires first { first.queue ≡ self.now.queue }
        requires second { second.queue ≡ self.now.queue }
        ensures queue { result.queue ≡ self.now.queue }
        ensures both { result.tally ≡ both first.tally second.tally }
    {
        self.join(first, second)
    }
}
