//! Rings as links between slots.

ghost use Rattle.std.specs.Prelude.{◌≡◌, ◌≢◌, ◌↔◌, ℕ, ◌+◌, ◌<◌, ◌≤◌, ◌^◌, length, List, [], ◌∷◌, ◌++◌, Some, None, true, is_some, is_ok, if◌then◌else◌, IsOk, IfOk, IfErr, OnOk, OnErr};
ghost use Rattle.bucket_ring.specs.Prelude.{upd, on, list_at, found, front, rest, without, same, by_birth, numbered, room_in, placed, ring_at, lists_of, IsSpot, AreLinked, IsKept, NoneRevived};
ghost use Rattle.bucket_ring.specs.declared.names.BucketId.{BucketId};

use crate::links::{Links, Position};
use crate::names::{BucketId, RingId, RingRefusal};
use crate::rings::Rings;
use crate::slots::Slots;
use raw_nodes::{Node, Nodes, SlotBucket};
use slab::Slab;
use std::alloc::{AllocError, Global};

/// Rings as links between the slots of a slab. Each call takes constant time, but those that move, make or end many buckets.
pub type PlainRings<T> = LinkedRings<T, Slab<Node<T>>>;

/// Rings as links between nodes of one raw block. Only `new_ring`, `new_pair` and the calls that add take memory; times as `PlainRings`.
pub type RawRings<T> = LinkedRings<T, Nodes<T>>;

/// Rings as links between slots. Each call takes constant time, but those that move, make or end many buckets.
#[derive(Drop)]
pub struct LinkedRings<T, S: Slots<T>> {
    next: u64,
    links: Links<T, S>,
    ghost linked: { AreLinked links },
    ghost kept: { IsKept (ring_at links) (lists_of links) next },
}

impl<T: Drop, S: Slots<T> + Drop> LinkedRings<T, S> {
    /// Puts a new bucket into a ring. There is room for it, and a name.
    fn settle(&mut self, ring: RingId, position: Position, payload: T) -> BucketId
        requires there { is_some (lists_of self.old.links ring) ≡ true }
        requires position { IsSpot (ring_at self.old.links) ring position }
        requires room { 1 ≤ S.room self.old.links.nodes }
        requires unspent { self.old.next < u64.MAX }
        ensures out { (n : ℕ) → lists_of self.new.links n ≡ on ring (placed position ((result, payload) ∷ [])) (lists_of self.old.links) n }
        ensures name { result.birth ≡ self.old.next }
        ensures next { self.new.next ≡ self.old.next + 1 }
        ensures room { (count : ℕ) → count + 1 ≤ S.room self.old.links.nodes → count ≤ S.room self.new.links.nodes }
        ensures names { NoneRevived (ring_at self.old.links) (ring_at self.new.links) self.old.next }
    {
        let id = BucketId {
            slot: self.links.add(),
            birth: self.next,
        };
        self.links.put(
            id.slot,
            ring,
            position,
            SlotBucket {
                birth: id.birth,
                payload,
            },
        );
        self.next = id.birth + 1;
        id
    }

    /// Puts new buckets at the tail of a ring. There is room for them, and names.
    fn settle_all(&mut self, ring: RingId, given: Vec<T>)
        requires there { is_some (lists_of self.old.links ring) ≡ true }
        requires room { length given.items ≤ S.room self.old.links.nodes }
        requires unspent { self.old.next + length given.items ≤ u64.MAX }
        ensures out { (bs : List (BucketId × T)) × (by_birth bs ≡ numbered self.old.next given.items) × ((n : ℕ) → lists_of self.new.links n ≡ on ring (λ xs. xs ++ bs) (lists_of self.old.links) n) }
        ensures next { self.new.next ≡ self.old.next + length given.items }
        ensures names { NoneRevived (ring_at self.old.links) (ring_at self.new.links) self.old.next }
    {
        let mut left = given.into_iter();
        while let Some(payload) = left.next() {
            self.settle(ring, Position::Tail, payload);
        }
    }

    /// Makes room for so many slots, and rings. Where there is room, it takes no memory.
    fn reserve(&mut self, slots: usize, rings: usize) -> Result<(), AllocError>
        ensures room { OnOk result (slots ≤ S.room self.new.links.nodes) }
        ensures spare { OnOk result (rings ≤ room_in self.new.links.heads) }
        ensures sure { slots ≤ S.room self.old.links.nodes → rings ≤ room_in self.old.links.heads → IsOk result }
        ensures same { (n : ℕ) → lists_of self.new.links n ≡ lists_of self.old.links n }
        ensures still { (id : BucketId) → ring_at self.new.links id ≡ ring_at self.old.links id }
        ensures next { self.new.next ≡ self.old.next }
    {
        self.links.reserve(slots, rings)
    }

    /// Makes room for so many buckets and rings, where so many names are left.
    fn ready(&mut self, count: usize, rings: usize) -> Result<(), RingRefusal>
        requires { rings ≤ 2 }
        ensures room { OnOk result (count + rings ≤ S.room self.new.links.nodes) }
        ensures spare { OnOk result (rings ≤ room_in self.new.links.heads) }
        ensures spent { (result ≡ Err RingRefusal.NamesSpent) ↔ (u64.MAX < self.old.next + rings + count) }
        ensures same { (n : ℕ) → lists_of self.new.links n ≡ lists_of self.old.links n }
        ensures still { (id : BucketId) → ring_at self.new.links id ≡ ring_at self.old.links id }
        ensures next { self.new.next ≡ self.old.next }
    {
        let left = u64::MAX - self.next;
        if left < rings as u64 || left - (rings as u64) < count as u64 {
            return Err(RingRefusal::NamesSpent);
        }
        self.reserve(count + rings, rings)?;
        Ok(())
    }

    /// Puts a new bucket into a ring.
    fn add(
        &mut self,
        ring: RingId,
        position: Position,
        payload: T,
    ) -> Result<BucketId, (RingRefusal, T)>
        requires there { is_some (lists_of self.old.links ring) ≡ true }
        requires position { IsSpot (ring_at self.old.links) ring position }
        ensures ok { IfOk result (λ id. (n : ℕ) → lists_of self.new.links n ≡ on ring (placed position ((id, payload) ∷ [])) (lists_of self.old.links) n) }
        ensures name { IfOk result (λ id. id.birth ≡ self.old.next) }
        ensures next { self.new.next ≡ (if is_ok result then self.old.next + 1 else self.old.next) }
        ensures names { NoneRevived (ring_at self.old.links) (ring_at self.new.links) self.old.next }
        ensures spent { self.old.next ≡ u64.MAX → result ≡ Err (RingRefusal.NamesSpent, payload) }
        ensures unspent { IfErr result (λ why. why.0 ≡ RingRefusal.NamesSpent → self.old.next ≡ u64.MAX) }
        ensures sure { 1 ≤ S.room self.old.links.nodes → self.old.next < u64.MAX → IsOk result }
        ensures err { OnErr result ((n : ℕ) → lists_of self.new.links n ≡ lists_of self.old.links n) }
        ensures back { IfErr result (λ why. why.1 ≡ payload) }
    {
        if self.next == u64::MAX {
            return Err((RingRefusal::NamesSpent, payload));
        }
        match self.reserve(1, 0) {
            Ok(()) => Ok(self.settle(ring, position, payload)),
            Err(_) => Err((RingRefusal::NoMemory, payload)),
        }
    }

    /// Makes an empty ring. There is room for it, and a name.
    fn put_ring(&mut self) -> RingId
        requires room { 1 ≤ S.room self.old.links.nodes }
        requires spare { 0 < room_in self.old.links.heads }
        requires unspent { self.old.next < u64.MAX }
        ensures name { result ≡ self.old.next }
        ensures out { (n : ℕ) → lists_of self.new.links n ≡ upd (lists_of self.old.links) result (Some []) n }
        ensures next { self.new.next ≡ self.old.next + 1 }
        ensures room { (count : ℕ) → count + 1 ≤ S.room self.old.links.nodes → count ≤ S.room self.new.links.nodes }
        ensures spare { room_in self.old.links.heads ≤ room_in self.new.links.heads + 1 }
        ensures places { (id : BucketId) → ring_at self.new.links id ≡ ring_at self.old.links id }
    {
        let name = self.next;
        self.links.put_ring(name);
        self.next = name + 1;
        name
    }

    /// The ring that a bucket is in.
    fn ring_with(&self, id: BucketId) -> RingId
        requires { is_some (ring_at self.now.links id) ≡ true }
        ensures ring { ring_at self.now.links id ≡ Some result }
        ensures there { is_some (lists_of self.now.links result) ≡ true }
        ensures found { is_some (found id (list_at (lists_of self.now.links) result)) ≡ true }
    {
        match self.links.ring_of(id) {
            Some(ring) => ring,
            None => unreachable!(),
        }
    }

    /// Moves a bucket to a spot in a ring.
    fn carry(&mut self, ring: RingId, position: Position, id: BucketId)
        requires ring { is_some (lists_of self.old.links ring) ≡ true }
        requires bucket { is_some (ring_at self.old.links id) ≡ true }
        requires position { IsSpot (λ j. if same id j then None else ring_at self.old.links j) ring position }
        ensures out { (q n : ℕ) (x : T) → ring_at self.old.links id ≡ Some q → found id (list_at (lists_of self.old.links) q) ≡ Some x
            → lists_of self.new.links n ≡ on ring (placed position ((id, x) ∷ [])) (on q (without id) (lists_of self.old.links)) n }
        ensures next { self.new.next ≡ self.old.next }
        ensures names { (j : BucketId) → is_some (ring_at self.new.links j) ≡ true → is_some (ring_at self.old.links j) ≡ true }
    {
        let from = self.ring_with(id);
        self.links.carry(from, id, ring, position);
    }
}

impl<T: Drop, S: Slots<T> + Drop> Rings<T> for LinkedRings<T, S> {
    ghost use Rattle.bucket_ring.specs.Laws.{found_in, in_found, ring_there};

    ghost lists = { λ s. lists_of s.links };

    ghost ring_at = { λ s. ring_at s.links };

    ghost next_name = { λ s. s.next };

    ghost has_room = { λ s. (1 ≤ S.room s.links.nodes) × (1 ≤ room_in s.links.heads) };

    ghost kept = { λ s. s.kept };

    ghost counted = { λ s. s.kept.counted };

    ghost found_in = { λ s. found_in (ring_at s.links) (lists_of s.links) s.next s.kept };

    ghost in_found = { λ s. in_found (ring_at s.links) (lists_of s.links) s.next s.kept };

    ghost ring_there = { λ s. ring_there (ring_at s.links) (lists_of s.links) s.next s.kept };

    ghost young = { λ s. s.kept.young };

    ghost births = { λ s. s.kept.births };

    ghost rings = { λ s. s.kept.rings };

    ghost limit = { λ s. s.kept.limit };

    fn new(alloc: Global, first: u64) -> Self {
        LinkedRings {
            next: first,
            links: Links::new(alloc),
        }
    }

    fn make_room(&mut self) -> Result<(), AllocError> {
        self.reserve(1, 1)
    }

    fn new_ring(&mut self) -> Result<RingId, RingRefusal> {
        if self.next == u64::MAX {
            return Err(RingRefusal::NamesSpent);
        }
        self.reserve(1, 1)?;
        Ok(self.put_ring())
    }

    fn add_tail(&mut self, ring: RingId, payload: T) -> Result<BucketId, (RingRefusal, T)> {
        self.add(ring, Position::Tail, payload)
    }

    fn add_all(&mut self, ring: RingId, given: Vec<T>) -> Result<(), RingRefusal>
        requires { is_some (lists_of self.old.links ring) ≡ true }
        ensures ok { OnOk result ((bs : List (BucketId × T)) × (by_birth bs ≡ numbered self.old.next given.items)
            × ((n : ℕ) → lists_of self.new.links n ≡ on ring (λ xs. xs ++ bs) (lists_of self.old.links) n)) }
        ensures next { self.new.next ≡ (if is_ok result then self.old.next + length given.items else self.old.next) }
        ensures names { NoneRevived (ring_at self.old.links) (ring_at self.new.links) self.old.next }
        ensures spent { (result ≡ Err RingRefusal.NamesSpent) ↔ (u64.MAX < self.old.next + length given.items) }
        ensures err { OnErr result ((n : ℕ) → lists_of self.new.links n ≡ lists_of self.old.links n) }
    {
        self.ready(given.len(), 0)?;
        self.settle_all(ring, given);
        Ok(())
    }

    fn new_pair(&mut self, given: Vec<T>) -> Result<(RingId, RingId), RingRefusal>
        ensures ok { OnOk result ((bs : List (BucketId × T)) × (by_birth bs ≡ numbered (self.old.next + 2) given.items)
            × ((n : ℕ) → lists_of self.new.links n ≡ upd (upd (lists_of self.old.links) self.old.next (Some [])) (self.old.next + 1) (Some bs) n)) }
        ensures name { IfOk result (λ pair. pair ≡ (self.old.next, self.old.next + 1)) }
        ensures next { self.new.next ≡ (if is_ok result then self.old.next + 2 + length given.items else self.old.next) }
        ensures names { NoneRevived (ring_at self.old.links) (ring_at self.new.links) self.old.next }
        ensures spent { (result ≡ Err RingRefusal.NamesSpent) ↔ (u64.MAX < self.old.next + 2 + length given.items) }
        ensures err { OnErr result ((n : ℕ) → lists_of self.new.links n ≡ lists_of self.old.links n) }
    {
        self.ready(given.len(), 2)?;
        let first = self.put_ring();
        let second = self.put_ring();
        self.settle_all(second, given);
        Ok((first, second))
    }

    fn add_head(&mut self, ring: RingId, payload: T) -> Result<BucketId, (RingRefusal, T)> {
        self.add(ring, Position::Head, payload)
    }

    fn add_before(&mut self, at: BucketId, payload: T) -> Result<BucketId, (RingRefusal, T)> {
        let ring = self.ring_with(at);
        self.add(ring, Position::Before(at), payload)
    }

    fn add_after(&mut self, at: BucketId, payload: T) -> Result<BucketId, (RingRefusal, T)> {
        let ring = self.ring_with(at);
        self.add(ring, Position::After(at), payload)
    }

    fn move_tail(&mut self, ring: RingId, id: BucketId) {
        self.carry(ring, Position::Tail, id);
    }

    fn move_head(&mut self, ring: RingId, id: BucketId) {
        self.carry(ring, Position::Head, id);
    }

    fn move_before(&mut self, at: BucketId, id: BucketId) {
        if at == id {
            return;
        }
        let ring = self.ring_with(at);
        self.carry(ring, Position::Before(at), id);
    }

    fn splice_tail(&mut self, ring: RingId, from: RingId) {
        if let Some(id) = self.links.first(from) {
            self.splice_from(id, ring);
        }
    }

    fn splice_from(&mut self, id: BucketId, ring: RingId) {
        let from = self.ring_with(id);
        if ring == from {
            return;
        }
        let mut here = Some(id);
        while let Some(id) = here {
            here = self.links.next(id);
            self.carry(ring, Position::Tail, id);
        }
    }

    fn drop_bucket(&mut self, id: BucketId) {
        let ring = self.ring_with(id);
        self.links.take(ring, id);
        self.links.end(id.slot);
    }

    fn drop_all(&mut self, ring: RingId) {
        while let Some(id) = self.links.first(ring) {
            self.drop_bucket(id);
        }
    }

    fn end_ring(&mut self, ring: RingId) {
        self.drop_all(ring);
        self.links.end_ring(ring);
    }

    fn next_name(&self) -> u64 {
        self.next
    }

    fn set_next(&mut self, next: u64) {
        self.next = next;
    }

    fn has_ring(&self, ring: RingId) -> bool {
        self.links.has(ring)
    }

    fn first(&self, ring: RingId) -> Option<BucketId> {
        self.links.first(ring)
    }

    fn next(&self, id: BucketId) -> Result<BucketId, RingId> {
        let ring = self.ring_with(id);
        match self.links.next(id) {
            Some(next) => Ok(next),
            None => Err(ring),
        }
    }

    fn ring_of(&self, id: BucketId) -> Option<RingId> {
        self.links.ring_of(id)
    }

    fn payload(&self, id: BucketId) -> &T {
        self.links.payload(id)
    }

    fn set_payload(&mut self, id: BucketId, payload: T) -> T {
        self.links.set_payload(id, payload)
    }
}
