//! Values that threads find beside each other, told in order.

ghost use Rattle.std.specs.Prelude.{◌≡◌, ◌<◌, ℕ, [], length, IfOk, IfSome, MatchResult, Some};
ghost use Rattle.tpl_series.specs.Prelude.{IsStopped, TellsAll};

use crate::known::Known;
use crate::ring::{End, Rings, Seat, put, rings_for, unsaid};
use crate::stop::Stop;
use crate::tell::Tell;
use crate::telling::{answer_at, tell_alone, tell_taken};
use std::alloc::Global;
use std::io::Write;
use std::marker::Brand;
use std::sync::atomic::{AtomicBool, AtomicUsize, Ordering};
use std::sync::{Mutex, OnceLock, Wait};
use std::thread;
use std::thread::{Threads, join_mut};
use tpl_journal::Counting;

/// What threads share that find values.
#[derive(Drop)]
struct Shared<K: Known<V>, V> {
    /// For each place the number of the ring into which its value was put.
    said: Vec<OnceLock<usize>>,
    /// Where the values are taken.
    ends: Mutex<Vec<End<K, V>>>,
    /// The next place for which a value is sought.
    next: AtomicUsize,
    /// No more is told.
    over: AtomicBool,
}

/// What the function answers at this place; nothing, where no more is told.
fn sought<V, F: Fn(usize) -> Option<V>>(answer: &F, over: &AtomicBool, place: usize) -> Option<V>
    requires { F.pre answer.now place }
    ensures { IfSome result (λ value. F.post answer.now place (Some value)) }
{
    if over.load(Ordering::SeqCst) {
        None
    } else {
        answer_at(answer, place)
    }
}

/// Seeks the value for the next place, and puts it into the ring of this number.
fn seek<K: Known<V>, V: Drop, F: Fn(usize) -> Option<V>>(
    answer: &F,
    shared: &Shared<K, V>,
    number: usize,
    seat: &mut Seat<K, V>,
)
    requires callable { (i : ℕ) → i < length shared.now.said.items → F.pre answer.now i }
    requires fits { (i : ℕ) (value : V) → i < length shared.now.said.items
        → F.post answer.now i (Some value) → K.fits i value }
{
    let place = shared.next.fetch_add(1, Ordering::SeqCst);
    if place < shared.said.len() {
        put(seat, place, sought(answer, &shared.over, place));
        let _ = shared.said[place].try_set(number);
    }
}

/// Seeks a value for each place, by at most this many threads.
fn seek_all<
    R: Threads + Sync,
    K: Known<V> + Send,
    V: Drop + Send,
    F: Fn(usize) -> Option<V> + Sync,
>(rt: &R, jobs: usize, answer: &F, shared: &Shared<K, V>, seats: &mut [Seat<K, V>])
    requires jobs { 0 < jobs }
    requires callable { (i : ℕ) → i < length shared.now.said.items → F.pre answer.now i }
    requires fits { (i : ℕ) (value : V) → i < length shared.now.said.items
        → F.post answer.now i (Some value) → K.fits i value }
{
    let one = move |number: usize, seat: &mut Seat<K, V>|
        requires { ((i : ℕ) → i < length shared.now.said.items → F.pre answer.now i)
            × ((i : ℕ) (value : V) → i < length shared.now.said.items
            → F.post answer.now i (Some value) → K.fits i value) }
    {
        seek(answer, shared, number, seat);
    };
    thread::for_each_mut(rt, seats, jobs, &one);
}

/// Tells what is found, and says when no more is told.
fn tell_found<R: Wait, K: Known<V>, V: Drop, T: Tell<V>, W: Write>(
    rt: &R,
    alloc: Global,
    shared: &Shared<K, V>,
    telling: &T,
    to: &mut Counting<W>,
) -> Result<Vec<T::Kept>, Stop>
    requires fits { (i : ℕ) (value : V) → K.fits i value → T.fits telling.now i value }
    requires begins { T.tells telling.now [] [] }
    ensures { MatchResult result
        (λ kept. TellsAll (T.tells telling.now) T.keep (length shared.now.said.items) W.contents
        to.old to.new kept.items)
        (IsStopped (T.tells telling.now) W.contents to.old to.new) }
{
    let mut ends = shared.ends.lock(rt);
    let said = shared.said.as_slice();
    let kept = tell_taken(rt, alloc, said, telling, to, ends.as_mut_slice());
    shared.over.store(true, Ordering::SeqCst);
    kept
}

/// Seeks a value for each place, and tells in order what is found.
fn seek_and_tell<
    'a,
    R: Threads + Wait + Sync,
    K: Known<V> + Send + Sync,
    V: Drop + Send,
    F: Fn(usize) -> Option<V> + Sync,
    T: Tell<V> + Sync,
    W: Write + Send,
>(
    rt: &'a R,
    alloc: Global,
    jobs: usize,
    answer: &'a F,
    telling: &'a T,
    shared: &'a Shared<K, V>,
    seats: &'a mut [Seat<K, V>],
    to: &'a mut Counting<W>,
) -> Result<Vec<T::Kept>, Stop>
    requires jobs { 0 < jobs }
    requires callable { (i : ℕ) → i < length shared.now.said.items → F.pre answer.now i }
    requires known { (i : ℕ) (value : V) → i < length shared.now.said.items
        → F.post answer.now i (Some value) → K.fits i value }
    requires fits { (i : ℕ) (value : V) → K.fits i value → T.fits telling.now i value }
    requires begins { T.tells telling.now [] [] }
    ensures { MatchResult result
        (λ kept. TellsAll (T.tells telling.now) T.keep (length shared.now.said.items) W.contents
        to.old to.new kept.items)
        (IsStopped (T.tells telling.now) W.contents to.old to.new) }
{
    let mut tell = || -> Result<Vec<T::Kept>, Stop>
        requires { ((i : ℕ) (value : V) → K.fits i value → T.fits telling.now i value)
            × T.tells telling.now [] [] }
        ensures { MatchResult result
            (λ kept. TellsAll (T.tells telling.entry.now) T.keep
            (length shared.entry.now.said.items) W.contents to.entry.now to.exit.now kept.items)
            (IsStopped (T.tells telling.entry.now) W.contents to.entry.now to.exit.now) }
    { tell_found(rt, alloc, shared, telling, to) };
    let mut seek = ||
        requires { (0 < jobs)
            × ((i : ℕ) → i < length shared.now.said.items → F.pre answer.now i)
            × ((i : ℕ) (value : V) → i < length shared.now.said.items
            → F.post answer.now i (Some value) → K.fits i value) }
    { seek_all(rt, jobs, answer, shared, seats) };
    let (kept, _) = join_mut(rt, &mut tell, &mut seek);
    kept
}

/// Tells in order what the function answers at each of the first places, as [`tell_in_order`] does, by several threads.
#[tactic(auto, using(crate::proofs::ToldLemmas::stopped_at_once))]
fn tell_beside<
    K: Known<V> + Send + Sync,
    R: Threads + Wait + Sync,
    V: Drop + Send,
    F: Fn(usize) -> Option<V> + Sync,
    T: Tell<V> + Sync,
    W: Write + Send,
>(
    rt: &R,
    alloc: Global,
    count: usize,
    jobs: usize,
    answer: &F,
    telling: &T,
    to: &mut Counting<W>,
) -> Result<Vec<T::Kept>, Stop>
    requires jobs { 0 < jobs }
    requires callable { (i : ℕ) → i < count → F.pre answer.now i }
    requires known { (i : ℕ) (value : V) → i < count → F.post answer.now i (Some value)
        → K.fits i value }
    requires fits { (i : ℕ) (value : V) → K.fits i value → T.fits telling.now i value }
    requires begins { T.tells telling.now [] [] }
    ensures { MatchResult result
        (λ kept. TellsAll (T.tells telling.now) T.keep count W.contents to.old to.new kept.items)
        (IsStopped (T.tells telling.now) W.contents to.old to.new) }
{
    let Ok(
        Rings {
            mut seats,
            mut ends,
        },
    ) = rings_for::<K, V>(alloc, count)
    else {
        return Err(Stop::Memory);
    };
    let Ok(said) = unsaid(alloc, count) else {
        return Err(Stop::Memory);
    };
    let shared = Shared {
        said,
        ends: Mutex::new(ends),
        next: AtomicUsize::new(0),
        over: AtomicBool::new(false),
    };
    let seats = seats.as_mut_slice();
    seek_and_tell(rt, alloc, jobs, answer, telling, &shared, seats, to)
}

/// Tells what the function answers at each of the first places, in order, each value as soon as it is found and those before
/// it are told, by at most this many threads that seek and one that writes. What is kept of the values, each of which is let go
/// once it is told; or why telling has ended before the last one.
pub fn tell_in_order<
    R: Threads + Wait + Sync,
    V: Drop + Send,
    F: Fn(usize) -> Option<V> + Sync,
    T: Tell<V> + Sync,
    W: Write + Send,
>(
    rt: &R,
    alloc: Global,
    count: usize,
    jobs: usize,
    answer: &F,
    telling: &T,
    to: &mut Counting<W>,
) -> Result<Vec<T::Kept>, Stop>
    requires jobs { 0 < jobs }
    requires callable { (i : ℕ) → i < count → F.pre answer.now i }
    requires fits { (i : ℕ) (value : V) → i < count → F.post answer.now i (Some value)
        → T.fits telling.now i value }
    requires begins { T.tells telling.now [] [] }
    ensures { MatchResult result
        (λ kept. TellsAll (T.tells telling.now) T.keep count W.contents to.old to.new kept.items)
        (IsStopped (T.tells telling.now) W.contents to.old to.new) }
{
    if jobs == 1 || count < 2 {
        tell_alone(alloc, count, answer, telling, to)
    } else {
        tell_beside::<Brand, _, _, _, _, _>(rt, alloc, count, jobs, answer, telling, to)
    }
}
