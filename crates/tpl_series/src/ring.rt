//! Where values lie from when they are found until they are told.

ghost use Rattle.std.specs.Prelude.{IfOk, IfSome, length, ◌≡◌};

use crate::known::Known;
use rtrb::{Consumer, Producer, Protocol, RingBuffer};
use std::alloc::{AllocError, Global};
use std::marker::PhantomData;
use std::sync::{OnceLock, Wait};

/// What was found for a place: none, where memory was refused.
#[derive(Drop)]
pub(crate) struct Found<V> {
    place: usize,
    value: Option<V>,
}

/// Each value that goes through a ring may be told at its place.
pub(crate) struct Fitting<K> {
    known: PhantomData<K>,
}

impl<K: Known<V>, V> Protocol<Found<V>> for Fitting<K> {
    ghost use Rattle.std.specs.Prelude.{IfSome};

    ghost allows = { λ before found. IfSome found.value (K.fits found.place) };
}

/// The end of a ring at which a value is put.
pub(crate) type Seat<K, V> = Producer<Found<V>, Global, Fitting<K>>;

/// The end of a ring at which it is taken.
pub(crate) type End<K, V> = Consumer<Found<V>, Global, Fitting<K>>;

/// The ends of rings.
pub(crate) struct Rings<K: Known<V>, V> {
    /// The ends at which values are put.
    pub(crate) seats: Vec<Seat<K, V>>,
    /// The ends at which they are taken.
    pub(crate) ends: Vec<End<K, V>>,
}

/// So many rings, each for one value.
pub(crate) fn rings_for<K: Known<V>, V: Drop>(
    alloc: Global,
    count: usize,
) -> Result<Rings<K, V>, AllocError> {
    let mut seats = Vec::with_capacity(alloc, count)?;
    let mut ends = Vec::with_capacity(alloc, count)?;
    for _ in 0..count {
        let (seat, end) = RingBuffer::with_protocol::<Global, Fitting<K>>(alloc, 1)?;
        seats.push(seat)?;
        ends.push(end)?;
    }
    Ok(Rings { seats, ends })
}

/// For so many places, that nothing was found yet.
pub(crate) fn unsaid(alloc: Global, count: usize) -> Result<Vec<OnceLock<usize>>, AllocError>
    ensures { IfOk result (λ said. length said.items ≡ count) }
{
    let mut said = Vec::with_capacity(alloc, count)?;
    for _ in 0..count {
        said.push(OnceLock::new())?;
    }
    Ok(said)
}

/// Puts what was found for a place.
pub(crate) fn put<K: Known<V>, V: Drop>(seat: &mut Seat<K, V>, place: usize, value: Option<V>)
    requires { IfSome value (K.fits place) }
{
    let _ = seat.push(Found { place, value });
}

/// Takes what was found for this place from a ring.
fn pop<K: Known<V>, V: Drop>(end: &mut End<K, V>, place: usize) -> Option<V>
    ensures { IfSome result (K.fits place) }
{
    match end.pop() {
        Ok(found) => {
            if found.place == place {
                found.value
            } else {
                None
            }
        }
        Err(_) => None,
    }
}

/// Takes what was found for this place, once it is said in which ring it lies.
pub(crate) fn take<R: Wait, K: Known<V>, V: Drop>(
    rt: &R,
    ends: &mut [End<K, V>],
    said: &[OnceLock<usize>],
    place: usize,
) -> Option<V>
    ensures { IfSome result (K.fits place) }
{
    let at = *said.get(place)?.wait(rt);
    pop(ends.get_mut(at)?, place)
}
