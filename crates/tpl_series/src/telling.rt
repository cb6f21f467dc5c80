//! Values, told one after another.

ghost use Rattle.std.specs.Prelude.{◌≡◌, ◌+◌, ◌<◌, ℕ, [], length, IfOk, IfSome, MatchResult, Some};
ghost use Rattle.tpl_series.specs.Prelude.{HasKept, IsHalted, IsStopped, TellsAll, TellsNext};

use crate::known::Known;
use crate::ring::{End, take};
use crate::stop::Stop;
use crate::tell::Tell;
use std::alloc::Global;
use std::io::Write;
use std::sync::{OnceLock, Wait};
use tpl_journal::{Counting, write_whole};

/// Tells the value at this place, and gives what is kept of it; none is memory that was refused.
fn tell_next<V: Drop, T: Tell<V>, W: Write>(
    alloc: Global,
    telling: &T,
    place: usize,
    value: Option<V>,
    to: &mut Counting<W>,
) -> Result<T::Kept, Stop>
    requires { IfSome value (T.fits telling.now place) }
    ensures { MatchResult result
        (TellsNext (T.tells telling.now) T.keep place W.contents to.old to.new)
        (IsHalted (T.tells telling.now) place W.contents to.old to.new) }
{
    let Some(value) = value else {
        return Err(Stop::Memory);
    };
    let Ok(text) = telling.text(alloc, place, &value) else {
        return Err(Stop::Memory);
    };
    match write_whole(text.as_bytes(), to) {
        Ok(()) => Ok(telling.kept(&value)),
        Err(_) => Err(Stop::Device),
    }
}

/// Tells the value at this place, and puts what is kept of it behind what was kept before.
#[tactic(auto, using(crate::proofs::ToldLemmas::told_more, crate::proofs::ToldLemmas::halted, crate::proofs::ToldLemmas::lost))]
fn tell_more<V: Drop, T: Tell<V>, W: Write>(
    alloc: Global,
    telling: &T,
    place: usize,
    kept: &mut Vec<T::Kept>,
    value: Option<V>,
    to: &mut Counting<W>,
) -> Result<(), Stop>
    requires place { place ≡ length kept.old.items }
    requires fits { IfSome value (T.fits telling.now place) }
    ensures length { IfOk result (λ _. length kept.new.items ≡ place + 1) }
    ensures told { (start : Counting W)
        → HasKept (T.tells telling.now) T.keep W.contents start to.old kept.old.items
        → MatchResult result
        (λ _. HasKept (T.tells telling.now) T.keep W.contents start to.new kept.new.items)
        (IsStopped (T.tells telling.now) W.contents start to.new) }
{
    match tell_next(alloc, telling, place, value, to) {
        Ok(one) => match kept.push(one) {
            Ok(()) => Ok(()),
            Err(_) => Err(Stop::Memory),
        },
        Err(stop) => Err(stop),
    }
}

/// What the function answers at this place.
pub(crate) fn answer_at<V, F: Fn(usize) -> Option<V>>(answer: &F, place: usize) -> Option<V>
    requires { F.pre answer.now place }
    ensures { IfSome result (λ value. F.post answer.now place (Some value)) }
{
    answer(place)
}

/// Tells what the function answers at each of the first places, one after another, and gives what is kept of it.
#[tactic(auto, using(crate::proofs::ToldLemmas::told_nothing))]
pub(crate) fn tell_alone<V: Drop, F: Fn(usize) -> Option<V>, T: Tell<V>, W: Write>(
    alloc: Global,
    count: usize,
    answer: &F,
    telling: &T,
    to: &mut Counting<W>,
) -> Result<Vec<T::Kept>, Stop>
    requires callable { (i : ℕ) → i < count → F.pre answer.now i }
    requires fits { (i : ℕ) (value : V) → i < count → F.post answer.now i (Some value)
        → T.fits telling.now i value }
    requires begins { T.tells telling.now [] [] }
    ensures { MatchResult result
        (λ kept. TellsAll (T.tells telling.now) T.keep count W.contents to.old to.new kept.items)
        (IsStopped (T.tells telling.now) W.contents to.old to.new) }
{
    let mut kept = Vec::new(alloc);
    for place in 0..count {
        let value = answer_at(answer, place);
        match tell_more(alloc, telling, place, &mut kept, value, to) {
            Ok(()) => {}
            Err(stop) => return Err(stop),
        }
    }
    Ok(kept)
}

/// Tells what other threads put into the rings, one after another, and gives what is kept of it.
#[tactic(auto, using(crate::proofs::ToldLemmas::told_nothing))]
pub(crate) fn tell_taken<R: Wait, K: Known<V>, V: Drop, T: Tell<V>, W: Write>(
    rt: &R,
    alloc: Global,
    said: &[OnceLock<usize>],
    telling: &T,
    to: &mut Counting<W>,
    ends: &mut [End<K, V>],
) -> Result<Vec<T::Kept>, Stop>
    requires fits { (i : ℕ) (value : V) → K.fits i value → T.fits telling.now i value }
    requires begins { T.tells telling.now [] [] }
    ensures { MatchResult result
        (λ kept. TellsAll (T.tells telling.now) T.keep (length said.now) W.contents to.old to.new
        kept.items)
        (IsStopped (T.tells telling.now) W.contents to.old to.new) }
{
    let mut kept = Vec::new(alloc);
    for place in 0..said.len() {
        let value = take(rt, ends, said, place);
        match tell_more(alloc, telling, place, &mut kept, value, to) {
            Ok(()) => {}
            Err(stop) => return Err(stop),
        }
    }
    Ok(kept)
}
