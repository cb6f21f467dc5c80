//! Runs that fail, made smaller.

ghost use Rattle.tpl_graph.specs.Prelude.{Fits};

use crate::change::{Change, Kind};
use crate::replay::{Case, Failing, Stage, replay};
use crate::size::Size;
use tpl_model::Event;

/// The most tasks or events that are changed at once.
const MOST_AT_ONCE: usize = 1 << 10;
/// How often the number of those that are changed at once is halved.
const HALVINGS: u32 = 10;
/// How often each is changed by itself, as long as a run gets smaller.
const SINGLY: u32 = 4;
/// What is tried, in this order.
const KINDS: [Kind; 4] = [Kind::Failures, Kind::Tasks, Kind::Events, Kind::Begins];

/// The run as it is with the change, if the claim fails in it and it is smaller; else the run itself.
fn smaller(case: Case<'_>, best: Vec<Event>, change: Change, stage: &mut Stage) -> Failing
    requires { Fits case.graph.now.graph case.claim.now }
{
    if stage.budget.is_spent() || !change.changes(case.graph, &stage.needed, best.as_slice()) {
        return Ok(best);
    }
    match replay(case, best.as_slice(), change, stage)? {
        Some(played) if Size::of(played.as_slice()) < Size::of(best.as_slice()) => {
            stage
                .needed
                .find(case.graph, case.claim, played.as_slice())?;
            Ok(played)
        }
        _ => Ok(best),
    }
}

/// Tries changes of this kind, of so many at once, the last ones first. What is needed of the run is known.
pub(crate) fn sweep(
    case: Case<'_>,
    found: Vec<Event>,
    kind: Kind,
    size: usize,
    stage: &mut Stage,
) -> Failing
    requires { Fits case.graph.now.graph case.claim.now }
{
    let mut to = match kind {
        Kind::Tasks => case.graph.len(),
        _ => found.len(),
    };
    let mut best = found;
    for _ in 0..to {
        if to == 0 || stage.budget.is_spent() {
            break;
        }
        let from = to.saturating_sub(size);
        best = smaller(case, best, Change { kind, from, to }, stage)?;
        to = from;
    }
    Ok(best)
}

/// Tries changes of each kind, of so many at once.
fn sweep_each(case: Case<'_>, found: Vec<Event>, size: usize, stage: &mut Stage) -> Failing
    requires { Fits case.graph.now.graph case.claim.now }
{
    let mut best = found;
    for kind in KINDS {
        best = sweep(case, best, kind, size, stage)?;
    }
    Ok(best)
}

/// Changes one at a time, until that makes nothing smaller.
fn sweep_singly(case: Case<'_>, found: Vec<Event>, stage: &mut Stage) -> Failing
    requires { Fits case.graph.now.graph case.claim.now }
{
    let mut best = found;
    for _ in 0..SINGLY {
        let before = Size::of(best.as_slice());
        best = sweep_each(case, best, 1, stage)?;
        if Size::of(best.as_slice()) == before {
            break;
        }
    }
    Ok(best)
}

/// Changes many at once, then fewer and fewer.
pub(crate) fn cut_down(case: Case<'_>, found: Vec<Event>, stage: &mut Stage) -> Failing
    requires { Fits case.graph.now.graph case.claim.now }
{
    let most = found.len();
    stage.needed.find(case.graph, case.claim, found.as_slice())?;
    let mut best = found;
    for halving in 0..HALVINGS {
        let size = MOST_AT_ONCE >> halving;
        if size < most.saturating_mul(2) {
            best = sweep_each(case, best, size, stage)?;
        }
    }
    sweep_singly(case, best, stage)
}
