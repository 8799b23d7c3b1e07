//! The calls on rings, each of what is there.

use crate::missing::Missing;
use bucket_ring::{BucketId, RingId, RingRefusal, Rings};
use std::alloc::AllocError;

/// What a call answers that puts a bucket in: its name, or why there is none, with what was to be put in.
pub(crate) type Put<T> = Result<BucketId, (RingRefusal, T)>;

/// Where a bucket is put: at an end of a ring of this name, or beside another bucket.
#[derive(Clone, Copy)]
pub(crate) enum RingPlace {
    Head(u64),
    Tail(u64),
    Before(BucketId),
    After(BucketId),
}

/// A call that moves buckets.
#[derive(Clone, Copy)]
pub(crate) enum RingCall {
    /// Moves one bucket.
    Move(BucketId, RingPlace),
    /// Moves a bucket and those behind it to the tail of this one.
    WithRest(BucketId, u64),
    /// Moves all buckets of the second to the tail of the first.
    All(u64, u64),
}

/// No ring of a row has more buckets.
const MOST: usize = 1_000;

/// Adds the names and payloads of a ring to a list, from its first bucket on.
pub(crate) fn list<R: Rings<u8>>(
    rings: &R,
    ring: RingId,
    buckets: &mut Vec<(BucketId, u8)>,
) -> Result<(), AllocError> {
    if !rings.has_ring(ring) {
        return Ok(());
    }
    let mut place = rings.first(ring);
    for _ in 0..MOST {
        let Some(id) = place else {
            break;
        };
        if rings.ring_of(id).is_none() {
            break;
        }
        buckets.push((id, *rings.payload(id)))?;
        place = rings.next(id).ok();
    }
    Ok(())
}

/// Puts a new bucket in.
pub(crate) fn put<R: Rings<u8>>(
    rings: &mut R,
    place: RingPlace,
    letter: u8,
) -> Result<Put<u8>, Missing> {
    match place {
        RingPlace::Head(ring) if rings.has_ring(ring) => Ok(rings.add_head(ring, letter)),
        RingPlace::Tail(ring) if rings.has_ring(ring) => Ok(rings.add_tail(ring, letter)),
        RingPlace::Before(at) if rings.ring_of(at).is_some() => Ok(rings.add_before(at, letter)),
        RingPlace::After(at) if rings.ring_of(at).is_some() => Ok(rings.add_after(at, letter)),
        _ => Err(Missing),
    }
}

/// Moves a bucket.
fn shift<R: Rings<u8>>(rings: &mut R, id: BucketId, place: RingPlace) -> Result<(), Missing> {
    if rings.ring_of(id).is_none() {
        return Err(Missing);
    }
    match place {
        RingPlace::Head(ring) if rings.has_ring(ring) => rings.move_head(ring, id),
        RingPlace::Tail(ring) if rings.has_ring(ring) => rings.move_tail(ring, id),
        RingPlace::Before(at) if rings.ring_of(at).is_some() => rings.move_before(at, id),
        _ => return Err(Missing),
    }
    Ok(())
}

/// Makes a call that moves buckets.
pub(crate) fn make_call<R: Rings<u8>>(rings: &mut R, call: RingCall) -> Result<(), Missing> {
    match call {
        RingCall::Move(id, place) => return shift(rings, id, place),
        RingCall::WithRest(id, ring) if rings.ring_of(id).is_some() && rings.has_ring(ring) => {
            rings.splice_from(id, ring)
        }
        RingCall::All(ring, from) if rings.has_ring(ring) && rings.has_ring(from) => {
            rings.splice_tail(ring, from)
        }
        _ => return Err(Missing),
    }
    Ok(())
}
