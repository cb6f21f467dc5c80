//! Whether what was last reported to seats is true of a journal.

ghost use Rattle.std.specs.Prelude.{◌≡◌, ◌↔◌, ◌+◌, [], length, reverse, IsTrue, IfOk};
ghost use Rattle.tpl_hall.specs.Prelude.{AllHoldAt, AllHoldBelow, AllLast, HoldsAt, IsOf, IsTrueOf};
ghost use Rattle.tpl_model.specs.Prelude.{Run};

use crate::own::are_within;
use crate::seat::Seat;
use crate::sight::Sight;
use std::alloc::{AllocError, Global};
use tpl_fast::Fast;
use tpl_graph::Graph;
use tpl_machine::Core;
use tpl_model::{Event, Inputs};

/// What was reported is of the graph, and true of this run.
fn is_true(core: &Fast<'_>, sight: Sight) -> bool
    ensures { IsTrue result ↔ (IsOf core.now.graph sight
        × IsTrueOf core.now.graph core.now.inputs core.now.events sight) }
{
    match sight {
        Sight::At(task, status) => {
            (task.0 as usize) < core.graph().len() && core.status(task) == status
        }
        Sight::Already(token) => {
            (token.0 as usize) < core.graph().token_count() && core.requested(token)
        }
        Sight::Complete => core.complete(),
    }
}

/// What was reported at this place is true of this run.
fn holds_at(core: &Fast<'_>, place: usize, last: Option<(u32, Sight)>) -> bool
    ensures { IsTrue result ↔ HoldsAt core.now.graph core.now.inputs core.now.events place last }
{
    match last {
        Some((at, sight)) => at as usize != place || is_true(core, sight),
        None => true,
    }
}

/// What was reported to each seat at this place is true of this run.
fn all_hold_at(core: &Fast<'_>, place: usize, seats: &[Seat]) -> bool
    ensures { IsTrue result ↔ AllHoldAt core.now.graph core.now.inputs core.now.events place
        seats.now }
{
    for seat in seats {
        if !holds_at(core, place, seat.last()) {
            return false;
        }
    }
    true
}

/// Plays a journal, as far as it is a run, and tests at each place what was reported to the seats there.
fn seats_hold(core: &mut Fast<'_>, journal: &[Event], seats: &[Seat]) -> bool
    requires { core.old.events ≡ [] }
    ensures { IsTrue result ↔ (Run core.old.graph core.old.inputs (reverse journal.now)
        × AllHoldBelow core.old.graph core.old.inputs journal.now (length journal.now + 1)
        seats.now) }
{
    for place in 0..journal.len() {
        if !all_hold_at(core, place, seats) {
            return false;
        }
        match core.step(journal[place]) {
            Ok(()) => {}
            Err(_) => return false,
        }
    }
    core.run_law();
    all_hold_at(core, journal.len(), seats)
}

/// Plays the journal again, and tests at each place what was reported to the seats there: the journal is a run, and
/// what was last reported to each seat is true of it. Out of memory is the only error.
pub fn all_last(
    alloc: Global,
    graph: &Graph,
    inputs: &Inputs,
    journal: &[Event],
    seats: &[Seat],
) -> Result<bool, AllocError>
    ensures { IfOk result (λ b. IsTrue b ↔ (Run graph.now.graph inputs.now (reverse journal.now)
        × AllLast graph.now.graph inputs.now seats.now journal.now)) }
{
    if !are_within(seats, journal.len()) {
        return Ok(false);
    }
    let mut core = Fast::open(alloc, graph, inputs.copy())?;
    Ok(seats_hold(&mut core, journal, seats))
}
