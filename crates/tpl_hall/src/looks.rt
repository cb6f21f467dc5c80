//! Whether a seat fits the run, and what is reported to it.

ghost use Rattle.std.specs.Prelude.{◌≡◌, ◌↔◌, length, None, Some, IsTrue, IsFalse};
ghost use Rattle.tpl_hall.specs.Prelude.{Fits, GoesAs, GoesOn, HasRoom, IsSeen, Leaves, MatchLooked, MayEnd, MayGoOn, SeatView, Stays};
ghost use Rattle.tpl_hall.specs.declared.sight.Sight.TheVariants.{At, Already};
ghost use Rattle.tpl_model.specs.Prelude.{is_task, is_token, requested};

use crate::checks::{is_within, stands};
use crate::hall::Hall;
use crate::seat::Seat;
use crate::sight::{Ended, Looked, Sight};
use crate::stint::Stint;
use tpl_graph::Graph;
use tpl_laws::is_bounded;
use tpl_machine::Core;
use tpl_model::{Inputs, TaskId, TokenId};

impl<'g, K: Drop> Hall<'g, K> {
    /// The run is of this graph with these inputs, what the seat has is of this run, and it has room as long as the run
    /// can go on.
    pub fn fits(&self, graph: &Graph, inputs: &Inputs, seat: &Seat) -> bool
        ensures fits { IsTrue result → Fits self.now.core graph.now inputs.now seat.now }
        ensures room { IsTrue result → HasRoom graph.now.graph (length self.now.core.events)
            seat.now }
        ensures stray { IsFalse result → Fits self.now.core graph.now inputs.now seat.now
            → HasRoom graph.now.graph (length self.now.core.events) seat.now → ⊥ }
    {
        self.is_of(graph, inputs)
            && stands(seat.mine(), self.journal.as_slice())
            && is_within(seat.last(), self.journal.len())
            && (!seat.is_full() || self.journal.len() >= graph.bound() as usize)
    }

    /// Where a task stands at this moment, for a seat of this run.
    pub fn look(&self, graph: &Graph, inputs: &Inputs, seat: &mut Seat, task: TaskId) -> Looked
        requires { is_task graph.now.graph task.0 }
        ensures looked { MatchLooked result (λ status place. IsSeen graph.now.graph inputs.now
            seat.old.mine seat.old.last (At task status) place
            × (seat.new ≡ record seat.old { last = Some (place, At task status) })) (seat.new ≡
            seat.old) }
        ensures stray { MatchLooked result (λ status place. Unit {0}) (Fits self.now.core graph.now
            inputs.now seat.old → HasRoom graph.now.graph (length self.now.core.events) seat.old
            → ⊥) }
    {
        if !self.fits(graph, inputs, seat) {
            return Looked::Stray;
        }
        self.core.run_law();
        let place = self.len();
        let status = self.core.status(task);
        seat.tell(place, Sight::At(task, status));
        Looked::At { status, place }
    }

    /// How many events the run has.
    pub fn len(&self) -> u32
        ensures { result ≡ length self.now.core.events }
    {
        self.journal().len() as u32
    }

    /// A worker's seat may go on. Where it comes for the first time, it has to fit; later it is enough that the run has
    /// not become shorter since.
    pub fn goes_on(&self, graph: &Graph, inputs: &Inputs, seat: &Seat, stint: Stint) -> bool
        ensures exact { IsTrue result ↔ MayGoOn stint.seen self.now.core graph.now inputs.now
            seat.now }
        ensures goes { IsTrue result → (first : SeatView) → Stays stint first seat.now
            → GoesOn (length self.now.core.events) first seat.now }
    {
        match stint.seen {
            Some(events) => events <= self.len(),
            None => self.fits(graph, inputs, seat),
        }
    }

    /// Lets a worker go whose work ends so, and reports to it where the run is complete. Its seat has to fit once more;
    /// exactly where it doesn't, it goes as stray, with the events with which it came.
    pub fn let_go(
        &self,
        graph: &Graph,
        inputs: &Inputs,
        seat: &mut Seat,
        stint: Stint,
        ended: Ended,
    ) -> Ended
        requires { MayEnd ended self.now.core }
        ensures actor { seat.new.actor ≡ seat.old.actor }
        ensures left { (first : SeatView) → Stays stint first seat.old
            → GoesOn (length self.now.core.events) first seat.old
            → Leaves result graph.now.graph inputs.now first seat.new }
        ensures ended { GoesAs result ended (MayGoOn None self.now.core graph.now inputs.now
            seat.old) }
    {
        if !self.fits(graph, inputs, seat) {
            seat.stray(stint);
            return Ended::Stray;
        }
        self.core.run_law();
        match ended {
            Ended::Complete => {
                let place = self.len();
                seat.tell(place, Sight::Complete);
                Ended::Complete
            }
            Ended::Halted => Ended::Halted,
            Ended::Stray => Ended::Stray,
        }
    }

    /// Reports to a seat that a token was requested, if it was. True where it was.
    pub fn tell_requested(&self, seat: &mut Seat, token: TokenId) -> bool
        requires { is_token self.now.core.graph token.0 }
        ensures exact { result ≡ requested self.now.core.graph self.now.core.inputs
            self.now.core.events token.0 }
        ensures told { IsTrue result → seat.new ≡ record seat.old {
          last = Some (
            length
                self.now.core.events,
            Already token,
          );
        } }
        ensures not_told { IsFalse result → seat.new ≡ seat.old }
    {
        if !self.core.requested(token) {
            return false;
        }
        let place = self.len();
        seat.tell(place, Sight::Already(token));
        true
    }
}
