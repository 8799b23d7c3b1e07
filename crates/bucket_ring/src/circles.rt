//! Rings as circles of slots: buckets that come in and out, and what stands in a ring.

ghost use Rattle.std.specs.Prelude.{◌≡◌, ℕ, ◌+◌, ◌<◌, ◌≤◌, ◌^◌, length, drop, [], ◌∷◌, if◌then◌else◌, Some, None, true, is_some};
ghost use Rattle.bucket_ring.specs.Prelude.{room_in, upd, on, list_at, same, rest, without, found, first_of, with_payload, placed, id_of, IsKept};

use crate::links::{Links, Position, RingHead};
use crate::names::{BucketId, RingId};
use crate::slots::Slots;
use raw_nodes::SlotBucket;

impl<T: Drop, S: Slots<T> + Drop> Links<T, S> {
    ghost use Rattle.bucket_ring.specs.Links.{behind_of, before_of, mark_of, at_of, bucket_of, head_of, ring_at, lists_of, target, IsSpot, AreLinked, IsLooseSlot, KeepsRoom};

    /// The slot behind what is put at a spot.
    fn target(&self, head: RingHead, position: Position) -> usize
        ensures { result ≡ target (behind_of self.now) head position }
    {
        match position {
            Position::Tail => head.sentinel,
            Position::Head => self.behind(head.sentinel),
            Position::Before(id) => id.slot,
            Position::After(id) => self.behind(id.slot),
        }
    }

    /// Takes a bucket out of its ring. Its slot stays.
    pub(crate) fn take(&mut self, ring: RingId, id: BucketId) -> SlotBucket<T>
        requires linked { AreLinked self.old }
        requires bucket { ring_at self.old id ≡ Some ring }
        ensures linked { AreLinked self.new }
        ensures loose { IsLooseSlot self.new id.slot }
        ensures had { found id (list_at (lists_of self.old) ring) ≡ Some result.payload }
        ensures birth { result.birth ≡ id.birth }
        ensures lists { (n : ℕ) → lists_of self.new n ≡ on ring (without id) (lists_of self.old) n }
        ensures places { (j : _) → ring_at self.new j ≡ (if same id j then None else ring_at self.old j) }
        ensures room { KeepsRoom self.old self.new }
    {
        self.shrink(ring);
        let bucket = self.empty(id.slot);
        self.turn(id.slot, id.slot);
        bucket
    }

    /// Puts a bucket into a ring, in a slot that is in none.
    pub(crate) fn put(
        &mut self,
        slot: usize,
        ring: RingId,
        position: Position,
        bucket: SlotBucket<T>,
    )
        requires linked { AreLinked self.old }
        requires loose { IsLooseSlot self.old slot }
        requires there { is_some (lists_of self.old ring) ≡ true }
        requires position { IsSpot (ring_at self.old) ring position }
        requires few { length (list_at (lists_of self.old) ring) + 1 < 2 ^ 64 }
        ensures linked { AreLinked self.new }
        ensures lists { (n : ℕ) → lists_of self.new n ≡ on ring (placed position ((id_of slot bucket.birth, bucket.payload) ∷ [])) (lists_of self.old) n }
        ensures places { (j : _) → ring_at self.new j ≡ (if same (id_of slot bucket.birth) j then Some ring else ring_at self.old j) }
        ensures room { KeepsRoom self.old self.new }
    {
        let head = self.grow(ring);
        let at = self.target(head, position);
        self.fill(slot, ring, bucket);
        self.turn(slot, at);
    }

    /// Moves a bucket to a spot in a ring. It stays in its slot.
    pub(crate) fn carry(&mut self, from: RingId, id: BucketId, ring: RingId, position: Position)
        requires linked { AreLinked self.old }
        requires bucket { ring_at self.old id ≡ Some from }
        requires there { is_some (lists_of self.old ring) ≡ true }
        requires position { IsSpot (λ j. if same id j then None else ring_at self.old j) ring position }
        requires few { (next : ℕ) × IsKept (ring_at self.old) (lists_of self.old) next }
        ensures linked { AreLinked self.new }
        ensures lists { (n : ℕ) (x : T) → found id (list_at (lists_of self.old) from) ≡ Some x
            → lists_of self.new n ≡ on ring (placed position ((id, x) ∷ [])) (on from (without id) (lists_of self.old)) n }
        ensures places { (j : _) → ring_at self.new j ≡ (if same id j then Some ring else ring_at self.old j) }
    {
        self.turn(id.slot, id.slot);
        self.shrink(from);
        let head = self.grow(ring);
        let at = self.target(head, position);
        self.set_ring(id.slot, ring);
        self.turn(id.slot, at);
    }

    /// Makes an empty ring, where there is room.
    pub(crate) fn put_ring(&mut self, ring: RingId)
        requires linked { AreLinked self.old }
        requires none { lists_of self.old ring ≡ None }
        requires room { 1 ≤ S.room self.old.nodes }
        requires spare { 0 < room_in self.old.heads }
        ensures linked { AreLinked self.new }
        ensures lists { (n : ℕ) → lists_of self.new n ≡ upd (lists_of self.old) ring (Some []) n }
        ensures places { (j : _) → ring_at self.new j ≡ ring_at self.old j }
        ensures room { (n : ℕ) → n + 1 ≤ S.room self.old.nodes → n ≤ S.room self.new.nodes }
        ensures spare { room_in self.old.heads ≤ room_in self.new.heads + 1 }
    {
        let sentinel = self.fresh(ring);
        self.put_head(ring, RingHead { sentinel, count: 0 });
    }

    /// Ends a ring where no bucket is.
    pub(crate) fn end_ring(&mut self, ring: RingId)
        requires linked { AreLinked self.old }
        requires empty { lists_of self.old ring ≡ Some [] }
        ensures linked { AreLinked self.new }
        ensures lists { (n : ℕ) → lists_of self.new n ≡ upd (lists_of self.old) ring None n }
        ensures places { (j : _) → ring_at self.new j ≡ ring_at self.old j }
    {
        let head = self.head(ring);
        self.end_head(ring);
        self.remove(head.sentinel);
    }

    /// A new slot that is in no ring. There is room for it.
    pub(crate) fn add(&mut self) -> usize
        requires linked { AreLinked self.old }
        requires room { 1 ≤ S.room self.old.nodes }
        ensures linked { AreLinked self.new }
        ensures loose { IsLooseSlot self.new result }
        ensures lists { (n : ℕ) → lists_of self.new n ≡ lists_of self.old n }
        ensures places { (j : _) → ring_at self.new j ≡ ring_at self.old j }
        ensures room { (n : ℕ) → n + 1 ≤ S.room self.old.nodes → n ≤ S.room self.new.nodes }
    {
        self.fresh(0)
    }

    /// Ends a slot that is in no ring.
    pub(crate) fn end(&mut self, slot: usize)
        requires linked { AreLinked self.old }
        requires loose { IsLooseSlot self.old slot }
        ensures linked { AreLinked self.new }
        ensures lists { (n : ℕ) → lists_of self.new n ≡ lists_of self.old n }
        ensures places { (j : _) → ring_at self.new j ≡ ring_at self.old j }
    {
        self.remove(slot);
    }

    /// Whether there is such a ring.
    pub(crate) fn has(&self, ring: RingId) -> bool
        ensures { result ≡ is_some (lists_of self.now ring) }
    {
        self.is_head(ring)
    }

    /// The first bucket of a ring.
    pub(crate) fn first(&self, ring: RingId) -> Option<BucketId>
        requires linked { AreLinked self.now }
        requires there { is_some (lists_of self.now ring) ≡ true }
        ensures { result ≡ first_of (list_at (lists_of self.now) ring) }
    {
        self.name(self.behind(self.head(ring).sentinel))
    }

    /// The bucket behind another in its ring.
    pub(crate) fn next(&self, id: BucketId) -> Option<BucketId>
        requires linked { AreLinked self.now }
        ensures { (r : ℕ) → ring_at self.now id ≡ Some r → result ≡ first_of (drop 1 (rest id (list_at (lists_of self.now) r))) }
    {
        self.name(self.behind(id.slot))
    }

    /// The payload of a bucket.
    pub(crate) fn payload(&self, id: BucketId) -> &T
        requires linked { AreLinked self.now }
        requires bucket { is_some (ring_at self.now id) ≡ true }
        ensures { (r : ℕ) → ring_at self.now id ≡ Some r → found id (list_at (lists_of self.now) r) ≡ Some result.now }
    {
        self.payload_at(id.slot)
    }

    /// Gives a bucket another payload, and answers what it had.
    pub(crate) fn set_payload(&mut self, id: BucketId, payload: T) -> T
        requires linked { AreLinked self.old }
        requires bucket { is_some (ring_at self.old id) ≡ true }
        ensures linked { AreLinked self.new }
        ensures had { (r : ℕ) → ring_at self.old id ≡ Some r → found id (list_at (lists_of self.old) r) ≡ Some result }
        ensures lists { (r n : ℕ) → ring_at self.old id ≡ Some r → lists_of self.new n ≡ on r (with_payload id payload) (lists_of self.old) n }
        ensures places { (j : _) → ring_at self.new j ≡ ring_at self.old j }
    {
        self.replace(id.slot, payload)
    }
}
