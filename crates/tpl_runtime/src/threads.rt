//! Workers in threads of their own.

ghost use Rattle.std.specs.Prelude.{◌≡◌, ◌+◌, ◌<◌, ◌≤◌, [], ◌∷◌, ◌++◌, map, vec_len, vec_capacity, All, IfOk, IfErr, IfNone, IsPermutation};
ghost use Rattle.tpl_runtime.specs.Prelude.{AllWorked, HasWorked, IsNew};

use crate::crew::Crew;
use crate::shared::Halting;
use std::marker::Model;
use std::snapshot::Snapshot;
use std::sync::Wait;
use std::thread;
use std::thread::{Promise, PromisedHandle, Scope, Threads};
use tpl_graph::Graph;
use tpl_hall::{Ended, Seat};
use tpl_items::QueuePass;
use tpl_model::{Actor, Inputs};

/// What a worker comes back with.
type Back<L> = (Seat, QueuePass<L>, Ended);

/// That a worker comes back as the same actor, with a pass of the same queue, from work in the same session.
#[derive(Drop)]
pub(crate) struct Same<L> {
    actor: Actor,
    pass: Snapshot<QueuePass<L>>,
    graph: Snapshot<Graph>,
    inputs: Snapshot<Inputs>,
}

impl<L> Model for Same<L> {
    ghost use Rattle.tpl_runtime.specs.Views.{PromiseView};
    ghost use Rattle.tpl_runtime.specs.Promises.{promise_code};

    ghost Value = { PromiseView };

    ghost coded = { promise_code };

    ghost view = { λ s. record {
      actor = s.actor;
      session = record {
        graph = s.graph.value;
        inputs = s.inputs.value;
        queue = s.pass.value.queue;
      };
    } };
}

impl<L> Promise<(Seat, QueuePass<L>, Ended)> for Same<L> {
    ghost kept_by = { λ p r. (r.0.actor ≡ p.actor) × (r.1.queue ≡ p.session.queue)
        × HasWorked p.session.graph.graph p.session.inputs r.0 r.2 };
}

/// A thread with a worker.
pub(crate) type Child<L> = PromisedHandle<Back<L>, Same<L>>;

/// Starts a worker. Where no thread can be made, the crew is stopped, and the worker's work ends here.
fn start<'s, E, C: Crew + Sync + 's, R: Threads + Wait + Sync>(
    crew: &'s C,
    rt: &'s R,
    scope: &Scope<'s, E>,
    seat: Seat,
    pass: QueuePass<C::Load>,
) -> Result<Child<C::Load>, (Back<C::Load>, Halting)>
where
    C::Load: Send,
    requires pass { pass.queue ≡ (C.session crew.now).queue }
    requires new { IsNew seat }
    ensures child { IfOk result (λ h. h.promise.session ≡ C.session crew.now) }
    ensures actor { IfOk result (λ h. h.promise.actor ≡ seat.actor) }
    ensures same { IfErr result (λ b. b.0.0.actor ≡ seat.actor) }
    ensures back { IfErr result (λ b. b.0.1.queue ≡ (C.session crew.now).queue) }
    ensures worked { let s = C.session crew.now in IfErr result (λ b. HasWorked s.graph.graph s.inputs
        b.0.0 b.0.2) }
{
    let promise = Same {
        actor: seat.actor(),
        pass: Snapshot::of(&pass),
        graph: Snapshot::of(crew.graph()),
        inputs: Snapshot::of(crew.inputs()),
    };
    match scope.spawn_with(
        promise,
        move || -> (Seat, QueuePass<C::Load>, Ended)
            requires pass { pass.queue ≡ (C.session crew.now).queue }
            requires new { IsNew seat }
            ensures actor { result.0.actor ≡ seat.actor }
            ensures pass { result.1.queue ≡ (C.session crew.entry.now).queue }
            ensures worked { let s = C.session crew.entry.now in HasWorked s.graph.graph s.inputs
                result.0 result.2 }
        { crew.work_with(rt, seat, pass) },
    ) {
        Ok(child) => Ok(child),
        Err(refused) => {
            let halting = crew.stop(rt);
            Err(((refused.value)(), halting))
        }
    }
}

/// Starts a worker with a part of the pass. It stands last among the children where there was a thread for it; else among
/// those that are done, and the crew was stopped.
fn start_one<'s, E, C: Crew + Sync + 's, R: Threads + Wait + Sync>(
    crew: &'s C,
    rt: &'s R,
    scope: &Scope<'s, E>,
    seat: Seat,
    pass: QueuePass<C::Load>,
    children: &mut Vec<Child<C::Load>>,
    done: &mut Vec<(Seat, Ended)>,
) -> (QueuePass<C::Load>, Option<Halting>)
where
    C::Load: Send,
    requires pass { pass.queue ≡ (C.session crew.now).queue }
    requires new { IsNew seat }
    requires worked { AllWorked (C.session crew.now) done.old.items }
    requires children { All (λ h. h.promise.session ≡ C.session crew.now)
        children.old.items }
    requires child_room { vec_len children.old < vec_capacity children.old }
    requires done_room { vec_len done.old < vec_capacity done.old }
    ensures pass { result.0.queue ≡ (C.session crew.now).queue }
    ensures children { All (λ h. h.promise.session ≡ C.session crew.now) children.new.items }
    ensures worked { AllWorked (C.session crew.now) done.new.items }
    ensures started { IfNone result.1 ((done.new ≡ done.old)
        × (map (λ h. h.promise.actor) children.new.items
        ≡ map (λ h. h.promise.actor) children.old.items ++ seat.actor ∷ [])) }
    ensures everyone { IsPermutation
        (seat.actor ∷ (map (λ d. d.0.actor) done.old.items
        ++ map (λ h. h.promise.actor) children.old.items))
        (map (λ d. d.0.actor) done.new.items ++ map (λ h. h.promise.actor) children.new.items) }
    ensures count { vec_len children.new + vec_len done.new ≡ vec_len children.old + vec_len
        done.old + 1 }
    ensures longer { (vec_len children.old ≤ vec_len children.new)
        × (vec_len done.old ≤ vec_len done.new) }
    ensures capacity { (vec_capacity children.new ≡ vec_capacity children.old)
        × (vec_capacity done.new ≡ vec_capacity done.old) }
{
    let (rest, own) = crew.cut(pass);
    match start(crew, rt, scope, seat, own) {
        Ok(child) => {
            children.push_reserved(child);
            (rest, None)
        }
        Err((back, halting)) => {
            let (seat, own, ended) = back;
            done.push_reserved((seat, ended));
            (crew.mend(rest, own), Some(halting))
        }
    }
}

/// Starts the workers. The children are theirs, in the same order, where there was a thread for each; else the crew was
/// stopped.
fn start_all<'s, E, C: Crew + Sync + 's, R: Threads + Wait + Sync>(
    crew: &'s C,
    rt: &'s R,
    scope: &Scope<'s, E>,
    seats: Vec<Seat>,
    pass: QueuePass<C::Load>,
    children: &mut Vec<Child<C::Load>>,
    done: &mut Vec<(Seat, Ended)>,
) -> (QueuePass<C::Load>, Option<Halting>)
where
    C::Load: Send,
    requires pass { pass.queue ≡ (C.session crew.now).queue }
    requires new { All IsNew seats.items }
    requires empty { (children.old.items ≡ []) × (done.old.items ≡ []) }
    requires child_room { vec_len seats ≤ vec_capacity children.old }
    requires done_room { vec_len seats ≤ vec_capacity done.old }
    ensures pass { result.0.queue ≡ (C.session crew.now).queue }
    ensures children { All (λ h. h.promise.session ≡ C.session crew.now) children.new.items }
    ensures worked { AllWorked (C.session crew.now) done.new.items }
    ensures started { IfNone result.1 ((done.new.items ≡ [])
        × (map (λ h. h.promise.actor) children.new.items ≡ map (λ s. s.actor) seats.items)) }
    ensures everyone { IsPermutation (map (λ s. s.actor) seats.items)
        (map (λ d. d.0.actor) done.new.items ++ map (λ h. h.promise.actor) children.new.items) }
    ensures count { vec_len children.new + vec_len done.new ≡ vec_len seats }
    ensures capacity { vec_capacity done.new ≡ vec_capacity done.old }
{
    let mut pass = pass;
    let mut halting = None;
    for seat in seats {
        let (rest, stopped) = start_one(crew, rt, scope, seat, pass, children, done);
        pass = rest;
        halting = stopped.or(halting);
    }
    (pass, halting)
}

/// Joins the workers, in their order, and their passes.
fn join_all<C: Crew, R: Threads + Wait>(
    crew: &C,
    rt: &R,
    children: Vec<Child<C::Load>>,
    pass: QueuePass<C::Load>,
    done: &mut Vec<(Seat, Ended)>,
) -> QueuePass<C::Load>
    requires pass { pass.queue ≡ (C.session crew.now).queue }
    requires children { All (λ h. h.promise.session ≡ C.session crew.now) children.items }
    requires worked { AllWorked (C.session crew.now) done.old.items }
    requires room { vec_len done.old + vec_len children ≤ vec_capacity done.old }
    ensures pass { result.queue ≡ (C.session crew.now).queue }
    ensures worked { AllWorked (C.session crew.now) done.new.items }
    ensures joined { map (λ d. d.0.actor) done.new.items
        ≡ map (λ d. d.0.actor) done.old.items ++ map (λ h. h.promise.actor) children.items }
    ensures count { vec_len done.new ≡ vec_len done.old + vec_len children }
{
    let mut pass = pass;
    for child in children {
        let (seat, own, ended) = child.join(rt);
        pass = crew.mend(pass, own);
        done.push_reserved((seat, ended));
    }
    pass
}

/// Starts and joins the workers, all of whom come back: in the order of their seats where there was a thread for each; else
/// in another, and the crew was stopped. `children` and `done` are empty lists with room for them.
pub(crate) fn run_crew<C: Crew + Sync, R: Threads + Wait + Sync>(
    crew: &C,
    rt: &R,
    seats: Vec<Seat>,
    children: Vec<Child<C::Load>>,
    done: Vec<(Seat, Ended)>,
    pass: QueuePass<C::Load>,
) -> (Vec<(Seat, Ended)>, QueuePass<C::Load>, Option<Halting>)
where
    C::Load: Send,
    requires pass { pass.queue ≡ (C.session crew.now).queue }
    requires new { All IsNew seats.items }
    requires empty { (children.items ≡ []) × (done.items ≡ []) }
    requires child_room { vec_len seats ≤ vec_capacity children }
    requires done_room { vec_len seats ≤ vec_capacity done }
    ensures pass { result.1.queue ≡ (C.session crew.now).queue }
    ensures all { IfNone result.2 (map (λ d. d.0.actor) result.0.items ≡ map (λ s. s.actor)
        seats.items) }
    ensures everyone { IsPermutation (map (λ s. s.actor) seats.items) (map (λ d. d.0.actor)
        result.0.items) }
    ensures worked { AllWorked (C.session crew.now) result.0.items }
    ensures count { vec_len result.0 ≡ vec_len seats }
{
    thread::scope(
        thread::scope_env(),
        rt,
        |scope| -> (Vec<(Seat, Ended)>, QueuePass<C::Load>, Option<Halting>)
            requires pass { pass.queue ≡ (C.session crew.now).queue }
            requires new { All IsNew seats.items }
            requires empty { (children.items ≡ []) × (done.items ≡ []) }
            requires child_room { vec_len seats ≤ vec_capacity children }
            requires done_room { vec_len seats ≤ vec_capacity done }
            ensures pass { result.1.queue ≡ (C.session crew.entry.now).queue }
            ensures all { IfNone result.2 (map (λ d. d.0.actor) result.0.items ≡ map (λ s. s.actor)
                seats.items) }
            ensures everyone { IsPermutation (map (λ s. s.actor) seats.items) (map (λ d. d.0.actor)
                result.0.items) }
            ensures worked { AllWorked (C.session crew.entry.now) result.0.items }
            ensures count { vec_len result.0 ≡ vec_len seats }
        {
            let mut children = children;
            let mut done = done;
            let (pass, halting) = start_all(crew, rt, scope, seats, pass, &mut children, &mut done);
            let pass = join_all(crew, rt, children, pass, &mut done);
            (done, pass, halting)
        },
    )
}
