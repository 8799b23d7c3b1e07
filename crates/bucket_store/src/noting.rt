//! The buckets of a ring are noted under the pools that they depend on.

ghost use Rattle.std.specs.Prelude.{◌≡◌, ◌≤◌, ℕ, drop, Some, true, false, is_some, IfSome};
ghost use Rattle.std.specs.List.{list_any};
ghost use Rattle.bucket_store.specs.Prelude.{BucketId, list_at, rest, found, noted, StayNoted, from_place, kind_under, home_under, place_under, place_of, held_under, is_noted, NoneDepends, bucket_named, still_under};

use crate::dependents::Dependents;
use crate::pruning::{depends_there, keeps_pools, place_of};
use bucket_kinds::Stored;
use bucket_ring::{BucketId, RingId, Rings};
use run_model::{Home, Kind};
use std::alloc::AllocError;

/// Where a walk along a ring goes on behind a bucket.
fn after<R: Rings<Stored>>(rings: &R, ring: RingId, id: BucketId) -> Option<BucketId>
    requires { R.ring_at rings.now id ≡ Some ring }
    ensures rest { from_place result (list_at (R.lists rings.now) ring) ≡ drop 1 (rest id (list_at (R.lists rings.now) ring)) }
    ensures inside { IfSome result (λ j. R.ring_at rings.now j ≡ Some ring) }
{
    match rings.next(id) {
        Ok(next) => Some(next),
        Err(_) => None,
    }
}

/// Whether a bucket depends on a pool.
fn depends(bucket: &Stored) -> bool
    ensures { result ≡ held_under (λ p. true) bucket.now }
{
    let in_pool = matches!(bucket.kind, Kind::Pool(_));
    let at_pool = matches!(bucket.home, Home::Pool(_));
    in_pool || at_pool || place_of(&bucket.kept).is_some()
}

/// Whether one of these does.
pub(crate) fn any_depends(buckets: &[Stored]) -> bool
    ensures { result ≡ list_any (held_under (λ p. true)) buckets.now }
{
    buckets.iter().any(depends)
}

/// Makes room for the names of new buckets.
pub(crate) fn make_room_for_all(
    dependents: &mut Dependents,
    buckets: &[Stored],
) -> Result<(), AllocError>
    ensures { StayNoted dependents.old dependents.new }
{
    for bucket in buckets {
        dependents.make_room(bucket.kind, bucket.home, buckets.len())?;
    }
    Ok(())
}

/// Notes a bucket of a ring whose birth is not below a name.
fn note_bucket<R: Rings<Stored>>(
    dependents: &mut Dependents,
    rings: &R,
    ring: RingId,
    id: BucketId,
    from: u64,
)
    requires { R.ring_at rings.now id ≡ Some ring }
    ensures here { (x : Stored) → found id (list_at (R.lists rings.now) ring) ≡ Some x → from ≤ id.birth → is_noted (noted dependents.new) (id, x) ≡ true }
    ensures kept { (p : ℕ) (j : BucketId) → noted dependents.old p j ≡ true → noted dependents.new p j ≡ true }
{
    if id.birth >= from {
        let bucket = rings.payload(id);
        dependents.note(id, bucket.kind, bucket.home, place_of(&bucket.kept));
    }
}

/// Notes the buckets of a ring whose births are not below a name.
pub(crate) fn note_ring<R: Rings<Stored>>(
    dependents: &mut Dependents,
    rings: &R,
    ring: RingId,
    from: u64,
)
    requires { is_some (R.lists rings.now ring) ≡ true }
    ensures here { (id : BucketId) (x : Stored) → found id (list_at (R.lists rings.now) ring) ≡ Some x → from ≤ id.birth → is_noted (noted dependents.new) (id, x) ≡ true }
    ensures kept { (p : ℕ) (j : BucketId) → noted dependents.old p j ≡ true → noted dependents.new p j ≡ true }
{
    let mut place = rings.first(ring);
    while let Some(id) = place {
        note_bucket(dependents, rings, ring, id, from);
        place = after(rings, ring, id);
    }
}

/// Notes a bucket that was changed, where it depends on other pools than it did.
pub(crate) fn note_changed(
    dependents: &mut Dependents,
    id: BucketId,
    had: &Stored,
    kind: Kind,
    home: Home,
    place: Option<u64>,
)
    ensures kind { kind_under (λ p. noted dependents.old p id) had.now.kind ≡ true → kind_under (λ p. noted dependents.new p id) kind ≡ true }
    ensures home { home_under (λ p. noted dependents.old p id) had.now.home ≡ true → home_under (λ p. noted dependents.new p id) home ≡ true }
    ensures place { place_under (λ p. noted dependents.old p id) (place_of had.now.kept) ≡ true → place_under (λ p. noted dependents.new p id) place ≡ true }
    ensures kept { (p : ℕ) (j : BucketId) → noted dependents.old p j ≡ true → noted dependents.new p j ≡ true }
{
    if !keeps_pools(had, kind, home, place) {
        dependents.note(id, kind, home, place);
    }
}

/// Whether no bucket of a ring depends on a pool.
fn ring_has_none<R: Rings<Stored>>(rings: &R, ring: RingId, pool: u64) -> bool
    requires { is_some (R.lists rings.now ring) ≡ true }
    ensures none { result ≡ true → (id : BucketId) → R.ring_at rings.now id ≡ Some ring → still_under pool (bucket_named (R.ring_at rings.now) (R.lists rings.now) id) ≡ false }
    ensures sure { NoneDepends (R.ring_at rings.now) (R.lists rings.now) pool → result ≡ true }
{
    let mut place = rings.first(ring);
    while let Some(id) = place {
        if depends_there(rings, id, pool) {
            return false;
        }
        place = after(rings, ring, id);
    }
    true
}

/// Whether no bucket depends on a pool, found in a walk along all rings.
pub(crate) fn none_depends<R: Rings<Stored>>(rings: &R, pool: u64) -> bool
    ensures none { result ≡ true → NoneDepends (R.ring_at rings.now) (R.lists rings.now) pool }
    ensures sure { NoneDepends (R.ring_at rings.now) (R.lists rings.now) pool → result ≡ true }
{
    for ring in 0..rings.next_name() {
        if rings.has_ring(ring) && !ring_has_none(rings, ring, pool) {
            return false;
        }
    }
    true
}
