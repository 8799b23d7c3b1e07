//! Rings of buckets that know which of them depend on a pool.

ghost use Rattle.std.specs.Prelude.{◌≡◌, ◌≢◌, ◌↔◌, ℕ, ◌+◌, ◌<◌, ◌++◌, [], length, Some, true, false, is_some, is_ok, if◌then◌else◌, IfOk, OnOk, OnErr};
ghost use Rattle.bucket_store.specs.Prelude.{upd, on, by_birth, numbered, IsKept, NoneRevived, StoredItems, names_of, noted, AreNoted, NoneDepends};

use crate::dependents::Dependents;
use crate::noting::{any_depends, make_room_for_all, none_depends, note_changed, note_ring};
use crate::pruning::{place_of, prune, tidy};
use bucket_kinds::Stored;
use bucket_ring::{BucketId, RingId, RingRefusal, Rings};
use std::alloc::{AllocError, Global};

/// Rings of buckets. The ghost fields are the law of all rings, and that each bucket is noted under the pools that it depends on. By the
/// first the type of a store knows its rings, so that what contracts see of a store takes no argument but the store, and what is true of
/// each store needs none either.
#[derive(Drop)]
pub struct Indexed<R: Rings<Stored>> {
    pub rings: R,
    pub dependents: Dependents,
    ghost kept: { IsKept (R.ring_at rings) (R.lists rings) (R.next_name rings) },
    ghost indexed: { AreNoted (noted dependents) (R.lists rings) },
}

impl<R: Rings<Stored> + Drop> Indexed<R> {
    /// Throws out the names under a pool whose buckets are gone or depend on it no more, and tells whether no bucket depends on it. Where
    /// names were lost, it walks along all rings.
    pub fn forget(&mut self, pool: u64) -> bool
        ensures rings { self.new.rings ≡ self.old.rings }
        ensures others { (p : ℕ) → p ≢ pool → names_of self.new.dependents p ≡ names_of self.old.dependents p }
        ensures lost { self.new.dependents.lost ≡ self.old.dependents.lost }
        ensures none { result ≡ true → NoneDepends (R.ring_at self.old.rings) (R.lists self.old.rings) pool }
        ensures sure { NoneDepends (R.ring_at self.old.rings) (R.lists self.old.rings) pool → result ≡ true }
    {
        prune(&mut self.dependents, &self.rings, pool);
        self.dependents.drop_empty(pool);
        self.has_none(pool)
    }

    /// Whether no bucket depends on a pool under which no other names stand than those of buckets that do.
    fn has_none(&self, pool: u64) -> bool
        ensures none { result ≡ true → NoneDepends (R.ring_at self.now.rings) (R.lists self.now.rings) pool }
        ensures sure { names_of self.now.dependents pool ≡ [] → NoneDepends (R.ring_at self.now.rings) (R.lists self.now.rings) pool → result ≡ true }
    {
        if self.dependents.is_lost() {
            return none_depends(&self.rings, pool);
        }
        self.dependents.has_none(pool)
    }
}

impl<R: Rings<Stored> + Drop> Rings<Stored> for Indexed<R> {
    ghost lists = { λ s. R.lists s.rings };

    ghost ring_at = { λ s. R.ring_at s.rings };

    ghost next_name = { λ s. R.next_name s.rings };

    ghost has_room = { λ s. R.has_room s.rings };

    ghost kept = { λ s. R.kept s.rings };

    ghost counted = { λ s. R.counted s.rings };

    ghost found_in = { λ s. R.found_in s.rings };

    ghost in_found = { λ s. R.in_found s.rings };

    ghost ring_there = { λ s. R.ring_there s.rings };

    ghost young = { λ s. R.young s.rings };

    ghost births = { λ s. R.births s.rings };

    ghost rings = { λ s. R.rings s.rings };

    ghost limit = { λ s. R.limit s.rings };

    fn new(alloc: Global, first: u64) -> Self {
        Indexed {
            rings: R::new(alloc, first),
            dependents: Dependents::new(alloc),
        }
    }

    fn make_room(&mut self) -> Result<(), AllocError> {
        self.rings.make_room()
    }

    fn new_ring(&mut self) -> Result<RingId, RingRefusal> {
        self.rings.new_ring()
    }

    fn add_tail(
        &mut self,
        ring: RingId,
        payload: Stored,
    ) -> Result<BucketId, (RingRefusal, Stored)> {
        let (kind, home, place) = (payload.kind, payload.home, place_of(&payload.kept));
        let id = self.rings.add_tail(ring, payload)?;
        self.dependents.note(id, kind, home, place);
        tidy(&mut self.dependents, &self.rings, kind, home);
        Ok(id)
    }

    fn add_all(&mut self, ring: RingId, given: Vec<Stored>) -> Result<(), RingRefusal>
        requires { is_some (R.lists self.old.rings ring) ≡ true }
        ensures ok { OnOk result ((bs : StoredItems) × (by_birth bs ≡ numbered (R.next_name self.old.rings) given.items)
            × ((n : ℕ) → R.lists self.new.rings n ≡ on ring (λ xs. xs ++ bs) (R.lists self.old.rings) n)) }
        ensures next { R.next_name self.new.rings ≡ (if is_ok result then R.next_name self.old.rings + length given.items else R.next_name self.old.rings) }
        ensures names { NoneRevived (R.ring_at self.old.rings) (R.ring_at self.new.rings) (R.next_name self.old.rings) }
        ensures spent { (result ≡ Err RingRefusal.NamesSpent) ↔ (u64.MAX < R.next_name self.old.rings + length given.items) }
        ensures err { OnErr result ((n : ℕ) → R.lists self.new.rings n ≡ R.lists self.old.rings n) }
    {
        let before = self.rings.next_name();
        if u64::MAX - before < given.len() as u64 {
            return Err(RingRefusal::NamesSpent);
        }
        make_room_for_all(&mut self.dependents, given.as_slice())?;
        self.rings.add_all(ring, given)?;
        note_ring(&mut self.dependents, &self.rings, ring, before);
        Ok(())
    }

    fn new_pair(&mut self, given: Vec<Stored>) -> Result<(RingId, RingId), RingRefusal>
        ensures ok { OnOk result ((bs : StoredItems) × (by_birth bs ≡ numbered (R.next_name self.old.rings + 2) given.items)
            × ((n : ℕ) → R.lists self.new.rings n ≡ upd (upd (R.lists self.old.rings) (R.next_name self.old.rings) (Some [])) (R.next_name self.old.rings + 1) (Some bs) n)) }
        ensures name { IfOk result (λ pair. pair ≡ (R.next_name self.old.rings, R.next_name self.old.rings + 1)) }
        ensures next { R.next_name self.new.rings ≡ (if is_ok result then R.next_name self.old.rings + 2 + length given.items else R.next_name self.old.rings) }
        ensures names { NoneRevived (R.ring_at self.old.rings) (R.ring_at self.new.rings) (R.next_name self.old.rings) }
        ensures spent { (result ≡ Err RingRefusal.NamesSpent) ↔ (u64.MAX < R.next_name self.old.rings + 2 + length given.items) }
        ensures err { OnErr result ((n : ℕ) → R.lists self.new.rings n ≡ R.lists self.old.rings n) }
    {
        let left = u64::MAX - self.rings.next_name();
        if left < 2 || left - 2 < given.len() as u64 {
            return Err(RingRefusal::NamesSpent);
        }
        let depend = any_depends(given.as_slice());
        make_room_for_all(&mut self.dependents, given.as_slice())?;
        let (first, second) = self.rings.new_pair(given)?;
        if depend {
            note_ring(&mut self.dependents, &self.rings, second, 0);
        }
        Ok((first, second))
    }

    fn add_head(
        &mut self,
        ring: RingId,
        payload: Stored,
    ) -> Result<BucketId, (RingRefusal, Stored)> {
        let (kind, home, place) = (payload.kind, payload.home, place_of(&payload.kept));
        let id = self.rings.add_head(ring, payload)?;
        self.dependents.note(id, kind, home, place);
        tidy(&mut self.dependents, &self.rings, kind, home);
        Ok(id)
    }

    fn add_before(
        &mut self,
        at: BucketId,
        payload: Stored,
    ) -> Result<BucketId, (RingRefusal, Stored)> {
        let (kind, home, place) = (payload.kind, payload.home, place_of(&payload.kept));
        let id = self.rings.add_before(at, payload)?;
        self.dependents.note(id, kind, home, place);
        tidy(&mut self.dependents, &self.rings, kind, home);
        Ok(id)
    }

    fn add_after(
        &mut self,
        at: BucketId,
        payload: Stored,
    ) -> Result<BucketId, (RingRefusal, Stored)> {
        let (kind, home, place) = (payload.kind, payload.home, place_of(&payload.kept));
        let id = self.rings.add_after(at, payload)?;
        self.dependents.note(id, kind, home, place);
        tidy(&mut self.dependents, &self.rings, kind, home);
        Ok(id)
    }

    fn move_tail(&mut self, ring: RingId, id: BucketId) {
        self.rings.move_tail(ring, id);
    }

    fn move_head(&mut self, ring: RingId, id: BucketId) {
        self.rings.move_head(ring, id);
    }

    fn move_before(&mut self, at: BucketId, id: BucketId) {
        self.rings.move_before(at, id);
    }

    fn splice_tail(&mut self, ring: RingId, from: RingId) {
        self.rings.splice_tail(ring, from);
    }

    fn splice_from(&mut self, id: BucketId, ring: RingId) {
        self.rings.splice_from(id, ring);
    }

    fn drop_bucket(&mut self, id: BucketId) {
        self.rings.drop_bucket(id);
    }

    fn drop_all(&mut self, ring: RingId) {
        self.rings.drop_all(ring);
    }

    fn end_ring(&mut self, ring: RingId) {
        self.rings.end_ring(ring);
    }

    fn next_name(&self) -> u64 {
        self.rings.next_name()
    }

    fn set_next(&mut self, next: u64) {
        self.rings.set_next(next);
    }

    fn has_ring(&self, ring: RingId) -> bool {
        self.rings.has_ring(ring)
    }

    fn first(&self, ring: RingId) -> Option<BucketId> {
        self.rings.first(ring)
    }

    fn next(&self, id: BucketId) -> Result<BucketId, RingId> {
        self.rings.next(id)
    }

    fn ring_of(&self, id: BucketId) -> Option<RingId> {
        self.rings.ring_of(id)
    }

    fn payload(&self, id: BucketId) -> &Stored {
        self.rings.payload(id)
    }

    fn set_payload(&mut self, id: BucketId, payload: Stored) -> Stored {
        let (kind, home, place) = (payload.kind, payload.home, place_of(&payload.kept));
        let had = self.rings.set_payload(id, payload);
        note_changed(&mut self.dependents, id, &had, kind, home, place);
        tidy(&mut self.dependents, &self.rings, kind, home);
        had
    }
}
