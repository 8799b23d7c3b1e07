//! The slots of all rings, each with the slots before and behind it.

ghost use Rattle.std.specs.Prelude.{◌≡◌, ◌≢◌, ℕ, ◌+◌, ◌-◌, ◌^◌, ◌<◌, ◌≤◌, ◌==◌, if◌then◌else◌, Some, None, true, is_some, IsOk, OnOk};
ghost use Rattle.std.specs.Option.{option_map};
ghost use Rattle.name_table.specs.NameTable.{room_in};
ghost use Rattle.bucket_ring.specs.Lists.{upd};
ghost use Rattle.bucket_ring.specs.Walks.{id_of, turned};
ghost use Rattle.bucket_ring.specs.declared.names.BucketId.{BucketId};
ghost use Rattle.bucket_ring.specs.declared.links.RingHead.{RingHead};

use crate::names::{BucketId, RingId};
use crate::slots::Slots;
use name_table::NameTable;
use raw_nodes::{Load, SlotBucket};
use std::alloc::{AllocError, Global};
use std::marker::PhantomData;

/// Where buckets are put in a ring.
#[derive(Clone, Copy)]
pub(crate) enum Position {
    Tail,
    Head,
    Before(BucketId),
    After(BucketId),
}

/// Where a ring begins and ends, and how many buckets it has.
#[derive(Clone, Copy)]
pub(crate) struct RingHead {
    pub(crate) sentinel: usize,
    pub(crate) count: usize,
}

/// The slots of all rings, and the head of each ring by its name.
#[derive(Drop)]
pub(crate) struct Links<T, S: Slots<T>> {
    pub(crate) nodes: S,
    pub(crate) mark: PhantomData<T>,
    pub(crate) heads: NameTable<RingHead>,
    ghost slots: { (k : ℕ) → S.node nodes k ≡ S.node nodes k },
}

#[tactic(auto, unfolding(crate::specs::Links::behind_of, crate::specs::Links::before_of, crate::specs::Links::mark_of, crate::specs::Links::at_of, crate::specs::Links::bucket_of, crate::specs::Links::head_of, crate::specs::Links::ring_at, crate::specs::Lists::upd))]
impl<T: Drop, S: Slots<T> + Drop> Links<T, S> {
    ghost use Rattle.bucket_ring.specs.Links.{behind_of, before_of, mark_of, at_of, bucket_of, head_of, ring_at, KeepsLinks, KeepsBuckets, Relinked, Refilled};

    /// No slot, and no ring.
    pub(crate) fn new(alloc: Global) -> Self
        ensures nodes { (j : ℕ) → S.node result.nodes j ≡ None }
        ensures heads { (n : ℕ) → head_of result n ≡ None }
    {
        Links {
            nodes: S::new(alloc),
            mark: PhantomData,
            heads: NameTable::new(alloc),
        }
    }

    /// The slot behind one; a slot where nothing is has itself there.
    pub(crate) fn behind(&self, slot: usize) -> usize
        ensures { result ≡ behind_of self.now slot }
    {
        match self.nodes.get(slot) {
            Some(node) => node.behind,
            None => slot,
        }
    }

    /// The slot before one.
    pub(crate) fn before(&self, slot: usize) -> usize
        ensures { result ≡ before_of self.now slot }
    {
        match self.nodes.get(slot) {
            Some(node) => node.before,
            None => slot,
        }
    }

    /// The name of the bucket in a slot.
    pub(crate) fn name(&self, slot: usize) -> Option<BucketId>
        ensures { result ≡ option_map (λ (b : BucketId × T). b.0) (bucket_of self.now slot) }
    {
        let node = self.nodes.get(slot)?;
        match &node.load {
            Load::Bucket(bucket) => Some(BucketId {
                slot,
                birth: bucket.birth,
            }),
            _ => None,
        }
    }

    /// The payload of the bucket in a slot.
    pub(crate) fn payload_at(&self, slot: usize) -> &T
        requires { is_some (bucket_of self.now slot) ≡ true }
        ensures { option_map (λ (b : BucketId × T). b.1) (bucket_of self.now slot) ≡ Some result.now }
    {
        if let Some(node) = self.nodes.get(slot) {
            if let Load::Bucket(bucket) = &node.load {
                return &bucket.payload;
            }
        }
        unreachable!()
    }

    /// Makes room for so many more slots and rings.
    pub(crate) fn reserve(&mut self, slots: usize, rings: usize) -> Result<(), AllocError>
        ensures room { OnOk result (slots ≤ S.room self.new.nodes) }
        ensures spare { OnOk result (rings ≤ room_in self.new.heads) }
        ensures sure { slots ≤ S.room self.old.nodes → rings ≤ room_in self.old.heads → IsOk result }
        ensures links { KeepsLinks self.old self.new }
        ensures buckets { KeepsBuckets self.old self.new }
        ensures heads { (n : ℕ) → head_of self.new n ≡ head_of self.old n }
    {
        self.nodes.reserve(slots)?;
        self.heads.reserve(rings)
    }

    /// Puts the head of a ring, where there is room.
    pub(crate) fn put_head(&mut self, ring: RingId, head: RingHead)
        requires { 0 < room_in self.old.heads }
        ensures heads { (n : ℕ) → head_of self.new n ≡ upd (head_of self.old) ring (Some head) n }
        ensures nodes { self.new.nodes ≡ self.old.nodes }
        ensures spare { room_in self.old.heads ≤ room_in self.new.heads + 1 }
    {
        self.heads.put(ring, head);
    }

    /// Ends the head of a ring.
    pub(crate) fn end_head(&mut self, ring: RingId)
        ensures heads { (n : ℕ) → head_of self.new n ≡ upd (head_of self.old) ring None n }
        ensures nodes { self.new.nodes ≡ self.old.nodes }
    {
        self.heads.remove(ring);
    }

    /// Whether a ring has a head.
    pub(crate) fn is_head(&self, ring: RingId) -> bool
        ensures { result ≡ is_some (head_of self.now ring) }
    {
        self.heads.get(ring).is_some()
    }

    /// The ring of a bucket.
    pub(crate) fn ring_of(&self, id: BucketId) -> Option<RingId>
        ensures { result ≡ ring_at self.now id }
    {
        let node = self.nodes.get(id.slot)?;
        match &node.load {
            Load::Bucket(bucket) if bucket.birth == id.birth => Some(node.ring),
            _ => None,
        }
    }

    /// The head of a ring.
    #[inline]
    pub(crate) fn head(&self, ring: RingId) -> RingHead
        requires { is_some (head_of self.now ring) ≡ true }
        ensures { head_of self.now ring ≡ Some result }
    {
        match self.heads.get(ring) {
            Some(head) => head,
            None => unreachable!(),
        }
    }

    /// Writes the slot behind one.
    fn set_behind(&mut self, slot: usize, to: usize)
        requires { is_some (S.node self.old.nodes slot) ≡ true }
        ensures links { Relinked self.old self.new (λ j. if j == slot then to else behind_of self.old j) (before_of self.old) }
        ensures heads { self.new.heads ≡ self.old.heads }
    {
        self.nodes.set_behind(slot, to);
    }

    /// Writes the slot before one.
    fn set_before(&mut self, slot: usize, to: usize)
        requires { is_some (S.node self.old.nodes slot) ≡ true }
        ensures links { Relinked self.old self.new (behind_of self.old) (λ j. if j == slot then to else before_of self.old j) }
        ensures heads { self.new.heads ≡ self.old.heads }
    {
        self.nodes.set_before(slot, to);
    }

    /// Puts a bucket of a ring into a slot.
    pub(crate) fn fill(&mut self, slot: usize, ring: RingId, bucket: SlotBucket<T>)
        requires { is_some (S.node self.old.nodes slot) ≡ true }
        ensures filled { Refilled self.old self.new slot (Some (id_of slot bucket.birth, bucket.payload)) (Some ring) }
        ensures heads { self.new.heads ≡ self.old.heads }
    {
        self.nodes.fill(slot, ring, bucket.birth, bucket.payload);
    }

    /// Writes the ring of the bucket in a slot.
    pub(crate) fn set_ring(&mut self, slot: usize, ring: RingId)
        requires { is_some (bucket_of self.old slot) ≡ true }
        ensures filled { Refilled self.old self.new slot (bucket_of self.old slot) (Some ring) }
        ensures heads { self.new.heads ≡ self.old.heads }
    {
        self.nodes.set_ring(slot, ring);
    }

    /// Takes the bucket out of a slot.
    pub(crate) fn empty(&mut self, slot: usize) -> SlotBucket<T>
        requires { is_some (bucket_of self.old slot) ≡ true }
        ensures had { bucket_of self.old slot ≡ Some (id_of slot result.birth, result.payload) }
        ensures filled { Refilled self.old self.new slot None None }
        ensures heads { self.new.heads ≡ self.old.heads }
    {
        self.nodes.empty(slot)
    }

    /// Gives the bucket in a slot another payload, and answers what it had.
    pub(crate) fn replace(&mut self, slot: usize, payload: T) -> T
        requires { is_some (bucket_of self.old slot) ≡ true }
        ensures had { option_map (λ (b : BucketId × T). b.1) (bucket_of self.old slot) ≡ Some result }
        ensures bucket { (j : ℕ) → bucket_of self.new j ≡ upd (bucket_of self.old) slot (option_map (λ (b : BucketId × T). (b.0, payload)) (bucket_of self.old slot)) j }
        ensures at { (j : ℕ) → at_of self.new j ≡ at_of self.old j }
        ensures mark { (j : ℕ) → mark_of self.new j ≡ mark_of self.old j }
        ensures links { KeepsLinks self.old self.new }
        ensures heads { self.new.heads ≡ self.old.heads }
    {
        let ring = match self.nodes.get(slot) {
            Some(node) => node.ring,
            None => unreachable!(),
        };
        let had = self.empty(slot);
        let bucket = SlotBucket {
            birth: had.birth,
            payload,
        };
        self.fill(slot, ring, bucket);
        had.payload
    }

    /// A new slot, which has no bucket and leads to itself. There is room for it.
    pub(crate) fn fresh(&mut self, ring: RingId) -> usize
        requires { 1 ≤ S.room self.old.nodes }
        ensures was { S.node self.old.nodes result ≡ None }
        ensures there { is_some (S.node self.new.nodes result) ≡ true }
        ensures mark { (j : ℕ) → mark_of self.new j ≡ upd (mark_of self.old) result (Some ring) j }
        ensures at { (j : ℕ) → at_of self.new j ≡ at_of self.old j }
        ensures bucket { (j : ℕ) → bucket_of self.new j ≡ bucket_of self.old j }
        ensures links { KeepsLinks self.old self.new }
        ensures room { (n : ℕ) → n + 1 ≤ S.room self.old.nodes → n ≤ S.room self.new.nodes }
        ensures heads { self.new.heads ≡ self.old.heads }
    {
        self.nodes.add(ring)
    }

    /// Ends a slot, which leads to itself and has no bucket.
    pub(crate) fn remove(&mut self, slot: usize)
        requires links { (behind_of self.old slot ≡ slot) × (before_of self.old slot ≡ slot) }
        requires bucket { bucket_of self.old slot ≡ None }
        requires there { is_some (S.node self.old.nodes slot) ≡ true }
        ensures mark { (j : ℕ) → j ≢ slot → mark_of self.new j ≡ mark_of self.old j }
        ensures at { (j : ℕ) → at_of self.new j ≡ at_of self.old j }
        ensures bucket { (j : ℕ) → bucket_of self.new j ≡ bucket_of self.old j }
        ensures links { KeepsLinks self.old self.new }
        ensures heads { self.new.heads ≡ self.old.heads }
    {
        self.nodes.remove(slot);
    }

    /// A ring has a bucket less. Answers its head as it was.
    #[inline]
    pub(crate) fn shrink(&mut self, ring: RingId) -> RingHead
        requires there { is_some (head_of self.old ring) ≡ true }
        requires some { (h : RingHead) → head_of self.old ring ≡ Some h → 1 ≤ h.count }
        ensures was { head_of self.old ring ≡ Some result }
        ensures heads { (n : ℕ) → head_of self.new n ≡ upd (head_of self.old) ring (Some (record { sentinel = result.sentinel; count = result.count - 1 })) n }
        ensures nodes { self.new.nodes ≡ self.old.nodes }
    {
        let was = self.head(ring);
        self.heads.set(
            ring,
            RingHead {
                count: was.count - 1,
                ..was
            },
        );
        was
    }

    /// A ring has a bucket more. Answers its head as it was.
    #[inline]
    pub(crate) fn grow(&mut self, ring: RingId) -> RingHead
        requires there { is_some (head_of self.old ring) ≡ true }
        requires few { (h : RingHead) → head_of self.old ring ≡ Some h → h.count + 1 < 2 ^ 64 }
        ensures was { head_of self.old ring ≡ Some result }
        ensures heads { (n : ℕ) → head_of self.new n ≡ upd (head_of self.old) ring (Some (record { sentinel = result.sentinel; count = result.count + 1 })) n }
        ensures nodes { self.new.nodes ≡ self.old.nodes }
    {
        let was = self.head(ring);
        self.heads.set(
            ring,
            RingHead {
                count: was.count + 1,
                ..was
            },
        );
        was
    }

    /// `slot` comes before `at`, and what was behind `slot` comes behind what was before `at`.
    pub(crate) fn turn(&mut self, slot: usize, at: usize)
        requires forth { (j : ℕ) → behind_of self.old (before_of self.old j) ≡ j }
        requires back { (j : ℕ) → before_of self.old (behind_of self.old j) ≡ j }
        requires slot { is_some (S.node self.old.nodes slot) ≡ true }
        requires at { is_some (S.node self.old.nodes at) ≡ true }
        ensures links { Relinked self.old self.new (turned (behind_of self.old) (before_of self.old) at slot) (turned (before_of self.old) (behind_of self.old) slot at) }
        ensures heads { self.new.heads ≡ self.old.heads }
    {
        let before = self.before(at);
        let behind = self.behind(slot);
        self.set_behind(before, behind);
        self.set_before(behind, before);
        self.set_behind(slot, at);
        self.set_before(at, slot);
    }
}
