//! Rows of the calls that put buckets into a brigade where the host puts none: at its head, beside another bucket, and many at once.

use crate::buckets::letters;
use crate::missing::Missing;
use crate::rings::{Put, RingPlace};
use anyhow::Result;
use brigade_ops::{BrigadeId, Brigades, BucketId, ContentView, Rings, Stored};
use bucket_kinds::Bucket;
use std::alloc::Global;

/// No brigade of a row has more buckets.
const MOST: usize = 9;

/// Puts a new bucket in.
fn put<R: Rings<Stored> + Drop>(
    store: &mut Brigades<R>,
    place: RingPlace,
    bucket: Bucket,
) -> Result<Put<Bucket>, Missing> {
    match place {
        RingPlace::Head(brigade) if store.has(brigade) => Ok(store.add_head(brigade, bucket)),
        RingPlace::Tail(brigade) if store.has(brigade) => Ok(store.add_tail(brigade, bucket)),
        RingPlace::Before(at) if store.ring_of(at).is_some() => Ok(store.add_before(at, bucket)),
        RingPlace::After(at) if store.ring_of(at).is_some() => Ok(store.add_after(at, bucket)),
        _ => Err(Missing),
    }
}

/// Puts a new bucket of these letters in, and gives its name.
fn add<R: Rings<Stored> + Drop>(
    alloc: Global,
    store: &mut Brigades<R>,
    place: RingPlace,
    text: &[u8],
) -> Result<BucketId> {
    match put(store, place, letters(alloc, text)?)? {
        Ok(id) => Ok(id),
        Err((why, _)) => Err(why.into()),
    }
}

/// Puts two new buckets at the tail at once.
fn add_two<R: Rings<Stored> + Drop>(
    alloc: Global,
    store: &mut Brigades<R>,
    brigade: BrigadeId,
) -> Result<()> {
    let two = vec![in alloc; letters(alloc, b"e")?, letters(alloc, b"f")?]?;
    if !store.has(brigade) {
        return Err(Missing.into());
    }
    Ok(store.add_all(brigade, two)?)
}

/// Tells the letters of a brigade.
fn show_letters<R: Rings<Stored> + Drop>(
    rt: &HostRuntime,
    store: &mut Brigades<R>,
    brigade: BrigadeId,
) -> Result<()> {
    if !store.has(brigade) {
        return Err(Missing.into());
    }
    let mut place = store.first(brigade);
    for _ in 0..MOST {
        let Some(id) = place else {
            break;
        };
        if store.ring_of(id).is_none() {
            break;
        }
        if let ContentView::Bytes(bytes) = store.payload(id).content {
            print!(rt; "{}", str::from_utf8(bytes)?)?;
        }
        place = store.next(id).ok();
    }
    Ok(println!(rt; "")?)
}

/// Puts buckets into a brigade, each at a place of its own.
fn add_all<R: Rings<Stored> + Drop>(
    alloc: Global,
    store: &mut Brigades<R>,
    brigade: BrigadeId,
) -> Result<()> {
    let a = add(alloc, store, RingPlace::Tail(brigade), b"a")?;
    add(alloc, store, RingPlace::Head(brigade), b"b")?;
    add(alloc, store, RingPlace::Before(a), b"c")?;
    add(alloc, store, RingPlace::After(a), b"d")?;
    add_two(alloc, store, brigade)
}

/// Tells the letters of a brigade into which buckets are put.
pub(crate) fn show_rows<R: Rings<Stored> + Drop>(rt: &HostRuntime) -> Result<()> {
    println!(rt; "a at the tail, b at the head, c before a, d after a, and e and f at the tail")?;
    let mut store = Brigades::<R>::new(rt.alloc(), 1);
    let brigade = store.loose()?;
    add_all(rt.alloc(), &mut store, brigade)?;
    show_letters(rt, &mut store, brigade)
}
