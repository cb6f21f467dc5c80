//! A worker's locked section, from what it brings to what it does next.

ghost use Rattle.std.specs.Prelude.{◌≡◌, ◌↔◌, IsTrue, length, map};
ghost use Rattle.tpl_hall.specs.Prelude.{GoesOn, MayAnswer, MayEnd, SeatView, Stays};
ghost use Rattle.tpl_hall.specs.declared.sight.Ended.TheVariants.{Stray};
ghost use Rattle.tpl_runtime.specs.Prelude.{IfOver, IsBrought, IsDone, IsPlayed, Keeps, MayTurn, Proceeds, Turns};
ghost use Rattle.tpl_runtime.specs.declared.shared.Turn.TheVariants.{Over};

use crate::kit::Kit;
use crate::shared::{Hand, Held, Shared, Turn, is_worker};
use std::sync::Wait;
use tpl_hall::Ended;
use tpl_items::{Item, Receipt};
use tpl_model::TaskId;

/// How often a worker goes on under the lock that it has, before others may have it.
const MORE_TURNS: u32 = 64;

impl<'g, K: Drop, W: Item<K>> Shared<'g, K, W> {
    /// A worker's first section: what is due, and then the test whether its work ends here. It holds a job that was kept
    /// for it, if there is one.
    fn come<R: Wait>(&mut self, rt: &R, kit: &mut Kit<'_, W>) -> Turn<W>
        ensures proceeds { Proceeds kit.old kit.new self.old.hall.core self.new.hall.core }
        ensures plays { IsBrought result (Unit {0}) self.old.halted self.new.halted
            (IsDone self.new.hall.core) }
    {
        self.enter(rt, kit);
        match self.end_of() {
            Some(ended) => Turn::Over(ended),
            None => Turn::Go(self.hand_on(kit.seat.actor())),
        }
    }

    /// Does the Worked event of a receipt that a worker brings, and what is due after it, and then tests whether its work
    /// ends here. The session is halted where the receipt is refused.
    fn bring<R: Wait>(
        &mut self,
        rt: &R,
        kit: &mut Kit<'_, W>,
        task: TaskId,
        receipt: Receipt<K>,
    ) -> Turn<W>
        ensures proceeds { Proceeds kit.old kit.new self.old.hall.core self.new.hall.core }
        ensures plays { IsBrought result (MayAnswer self.old.hall.core kit.old.seat task receipt)
            self.old.halted self.new.halted (IsDone self.new.hall.core) }
    {
        if !self.answer(rt, kit, task, receipt) {
            self.halt();
            return Turn::Over(Ended::Stray);
        }
        match self.end_of() {
            Some(ended) => Turn::Over(ended),
            None => Turn::Go(Held::Running(task)),
        }
    }

    /// A worker's section, once its seat was found to fit. What it brings comes first, then the test whether its work
    /// ends here, then one event of its own.
    fn play<R: Wait>(&mut self, rt: &R, kit: &mut Kit<'_, W>, hand: Hand<K>) -> Turn<W>
        ensures proceeds { Proceeds kit.old kit.new self.old.hall.core self.new.hall.core }
        ensures over { IfOver result (λ ended. MayEnd ended self.new.hall.core) }
        ensures plays { IsPlayed hand result kit.old.seat (map W.site self.old.stock.items)
            self.old.hall.core self.new.hall.core self.old.halted self.new.halted }
    {
        match hand {
            Hand::New => self.come(rt, kit),
            Hand::Called(task, receipt) => self.bring(rt, kit, task, receipt),
            Hand::With(held) => match self.end_of() {
                Some(ended) => Turn::Over(ended),
                None => self.next(rt, kit, held),
            },
        }
    }

    /// Whether a worker's section may begin.
    fn may_turn(&self, kit: &Kit<'_, W>) -> bool
        ensures exact { IsTrue result ↔ MayTurn kit.now self.now.hall.core }
        ensures goes { IsTrue result → (first : SeatView) → Stays kit.now.stint first kit.now.seat
            → GoesOn (length self.now.hall.core.events) first kit.now.seat }
    {
        let actor = kit.seat.actor();
        is_worker(actor)
            && self
                .hall
                .goes_on(kit.graph, kit.inputs, &kit.seat, kit.stint)
    }

    /// One section of a worker's work. A seat that is stray comes first, then a receipt that is refused, then a session
    /// that is halted, then a run that is complete, and last a task that went on without its worker. The seat is compared
    /// with the run where it comes for the first time and where its work ends; between them it is enough that the run has
    /// not become shorter.
    pub fn turn<R: Wait>(&mut self, rt: &R, kit: &mut Kit<'_, W>, hand: Hand<K>) -> Turn<W>
        ensures keeps { Keeps result kit.old kit.new }
        ensures stray { (MayTurn kit.old self.old.hall.core → ⊥) → result ≡ Over Stray }
        ensures plays { MayTurn kit.old self.old.hall.core → Turns hand result kit.old (map W.site
            self.old.stock.items) self.old self.new }
    {
        if !self.may_turn(kit) {
            kit.seat.stray(kit.stint);
            return Turn::Over(Ended::Stray);
        }
        let graph = kit.graph;
        let inputs = kit.inputs;
        let turn = self.play(rt, kit, hand);
        kit.stint.seen = Some(self.hall.len());
        match turn {
            Turn::Over(ended) => {
                let seat = &mut kit.seat;
                Turn::Over(self.hall.let_go(graph, inputs, seat, kit.stint, ended))
            }
            turn => turn,
        }
    }

    /// A worker's sections one after another, as long as it goes on: until it calls an item, waits or ends, or has gone
    /// on so often that others may have the lock. It waits only where its first section does. After one that did
    /// something it comes again instead, so that those who wait hear of that before.
    pub fn turns<R: Wait>(&mut self, rt: &R, kit: &mut Kit<'_, W>, hand: Hand<K>) -> Turn<W>
        ensures { Keeps result kit.old kit.new }
    {
        let mut held = match self.turn(rt, kit, hand) {
            Turn::Go(held) => held,
            turn => return turn,
        };
        for _more in 0..MORE_TURNS {
            let hand = Hand::With(held);
            match self.turn(rt, kit, hand) {
                Turn::Go(next) => held = next,
                Turn::Wait => return Turn::Go(held),
                turn => return turn,
            }
        }
        Turn::Go(held)
    }
}
