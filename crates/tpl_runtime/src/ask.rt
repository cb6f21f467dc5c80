//! The request of a token.

ghost use Rattle.std.specs.Prelude.{◌≡◌};
ghost use Rattle.tpl_model.specs.Prelude.{is_token, requested};
ghost use Rattle.tpl_runtime.specs.Prelude.{Asks, IsAnswer, MayAsk};

use crate::put::put_all;
use crate::queue::{ItemPass, ItemQueue};
use crate::shared::{Shared, is_worker};
use std::sync::Wait;
use tpl_graph::Graph;
use tpl_hall::{Asked, Seat};
use tpl_items::Item;
use tpl_laws::is_bounded;
use tpl_model::{Act, Inputs, TokenId};

impl<'g, K: Drop, W: Item<K>> Shared<'g, K, W> {
    /// Requests a token, for an outside seat. A seat that is stray comes first, then a session that is halted, then a token
    /// that was requested before.
    pub fn ask<R: Wait>(
        &mut self,
        rt: &R,
        graph: &Graph,
        inputs: &Inputs,
        queue: &ItemQueue<W>,
        pass: &mut ItemPass<W>,
        seat: &mut Seat,
        token: TokenId,
    ) -> Asked
        requires token { is_token graph.now.graph token.0 }
        requires pass { pass.old.queue ≡ queue.now.id }
        ensures pass { pass.new.queue ≡ queue.now.id }
        ensures actor { seat.new.actor ≡ seat.old.actor }
        ensures asked { Asks graph.now.graph inputs.now seat.old seat.new token result }
        ensures room { seat.new.room ≡ seat.old.room }
        ensures halted { self.new.halted ≡ self.old.halted }
        ensures order { let j = self.old.hall.core in IsAnswer result (MayAsk j graph.now inputs.now
            seat.old) self.old.halted (requested j.graph j.inputs j.events token.0) }
    {
        if is_worker(seat.actor()) || !self.hall.fits(graph, inputs, seat) {
            return Asked::Stray;
        }
        if self.halted {
            return Asked::Halted;
        }
        self.hall.run_law();
        if self.hall.tell_requested(seat, token) {
            return Asked::Already;
        }
        is_bounded();
        let Ok(place) = self.hall.step(seat, Act::Request(token)) else {
            unreachable!()
        };
        self.hall.sweep(seat);
        self.hall.run_law();
        put_all(rt, &self.hall, &mut self.stock, queue, pass);
        Asked::Place(place)
    }
}
