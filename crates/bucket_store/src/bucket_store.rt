//! Rings of stored buckets, seen as the buckets that they show.

ghost use Rattle.std.specs.Prelude.{◌≡◌, ◌≢◌, ◌↔◌, ℕ, ◌+◌, ◌<◌, ◌≤◌, ◌++◌, List, [], map, length, Some, None, true, false, is_some, is_ok, if◌then◌else◌, IsOk};
ghost use Rattle.std.specs.Prelude.{IfOk, IfErr, IfSome, OnOk, OnErr, IsErrOf};
ghost use Rattle.bucket_store.specs.Prelude.{BucketId, upd, on, list_at, same, front, rest, first_of, next_in, found, put_tail, put_head, put_before, put_after, without, with_payload, by_birth};
ghost use Rattle.bucket_store.specs.Prelude.{numbered, NoneRevived, Bucket, is_in, Kept, is_whole, shown, shown_content, Span, Items, look, lies_right, is_own, own_bucket, is_held, AreHeld};
ghost use Rattle.std.specs.List.{list_all};

use crate::indexed::Indexed;
use crate::regions::Regions;
use bucket_kinds::{Kept, Stored, keep_own};
use bucket_ring::{BucketId, RingId, RingRefusal, Rings};
use run_model::{Bucket, Content, Home, Kind};
use std::alloc::{AllocError, Global};

/// Rings of buckets whose POOL bytes lie in the regions of their pools. The ghost field says that they do, of each POOL bucket, and that all
/// that lies in a region is there.
#[derive(Drop)]
pub struct BucketStore<R: Rings<Stored>> {
    pub rings: Indexed<R>,
    pub regions: Regions,
    ghost whole: { AreHeld (look regions) (R.lists rings.rings) },
}

/// A copy of the bytes of a bucket that lie in a region.
#[derive(Drop)]
pub struct HeapCopy {
    pub id: BucketId,
    pub bucket: Bucket,
}

/// Whether a bucket is a POOL bucket.
fn is_pool(kind: Kind) -> bool
    ensures { result ≡ false → (kept : Kept) → lies_right kind kept ≡ true }
{
    match kind {
        Kind::Pool(_) => true,
        Kind::Heap | Kind::Transient | Kind::Immortal | Kind::File | Kind::Flush | Kind::Eos => {
            false
        }
    }
}

#[tactic(auto, unfolding(crate::specs::BucketStore::seen))]
impl<R: Rings<Stored> + Drop> BucketStore<R> {
    ghost use Rattle.bucket_store.specs.BucketStore.{seen, IsGivenUp};

    /// No rings; the first name is `first`.
    pub fn new(alloc: Global, first: u64) -> Self
        ensures empty { (n : ℕ) → seen result n ≡ None }
        ensures next { R.next_name result.rings.rings ≡ first }
    {
        BucketStore {
            rings: Indexed::new(alloc, first),
            regions: Regions::new(alloc),
        }
    }

    /// Makes room for one more ring or bucket. Nothing that is seen of the rings changes, also where it is refused.
    pub fn make_room(&mut self) -> Result<(), AllocError>
        ensures room { OnOk result (R.has_room self.new.rings.rings) }
        ensures next { R.next_name self.new.rings.rings ≡ R.next_name self.old.rings.rings }
        ensures same { (n : ℕ) → seen self.new n ≡ seen self.old n }
        ensures regions { self.new.regions ≡ self.old.regions }
        ensures places { (id : BucketId) → R.ring_at self.new.rings.rings id ≡ R.ring_at self.old.rings.rings id }
    {
        self.rings.make_room()
    }

    /// Makes an empty ring. `NamesSpent`: the next name is `u64::MAX`.
    pub fn new_ring(&mut self) -> Result<RingId, RingRefusal>
        ensures ok { IfOk result (λ r. (n : ℕ) → seen self.new n ≡ upd (seen self.old) r (Some []) n) }
        ensures name { IfOk result (λ r. r ≡ R.next_name self.old.rings.rings) }
        ensures next { R.next_name self.new.rings.rings ≡ (if is_ok result then R.next_name self.old.rings.rings + 1 else R.next_name self.old.rings.rings) }
        ensures names { NoneRevived (R.ring_at self.old.rings.rings) (R.ring_at self.new.rings.rings) (R.next_name self.old.rings.rings) }
        ensures spent { IsErrOf result RingRefusal.NamesSpent ↔ (R.next_name self.old.rings.rings ≡ u64.MAX) }
        ensures sure { R.has_room self.old.rings.rings → R.next_name self.old.rings.rings < u64.MAX → IsOk result }
        ensures err { OnErr result ((n : ℕ) → seen self.new n ≡ seen self.old n) }
    {
        self.rings.new_ring()
    }

    /// Puts a bucket whose bytes are placed at the tail of a ring. A name and room for it are there.
    pub fn add_tail(&mut self, ring: RingId, bucket: Stored) -> BucketId
        requires there { is_some (seen self.old ring) ≡ true }
        requires whole { is_whole (look self.old.regions) bucket.kept ≡ true }
        requires lies { lies_right bucket.kind bucket.kept ≡ true }
        requires room { R.has_room self.old.rings.rings }
        requires unspent { R.next_name self.old.rings.rings < u64.MAX }
        ensures out { (n : ℕ) → seen self.new n ≡ on ring (put_tail (result, shown (look self.old.regions) bucket)) (seen self.old) n }
        ensures regions { self.new.regions ≡ self.old.regions }
        ensures name { result.birth ≡ R.next_name self.old.rings.rings }
        ensures next { R.next_name self.new.rings.rings ≡ R.next_name self.old.rings.rings + 1 }
        ensures names { NoneRevived (R.ring_at self.old.rings.rings) (R.ring_at self.new.rings.rings) (R.next_name self.old.rings.rings) }
    {
        match self.rings.add_tail(ring, bucket) {
            Ok(id) => id,
            Err(_) => unreachable!(),
        }
    }

    /// Puts a bucket whose bytes are placed at the head of a ring; otherwise as `add_tail`.
    pub fn add_head(&mut self, ring: RingId, bucket: Stored) -> BucketId
        requires there { is_some (seen self.old ring) ≡ true }
        requires whole { is_whole (look self.old.regions) bucket.kept ≡ true }
        requires lies { lies_right bucket.kind bucket.kept ≡ true }
        requires room { R.has_room self.old.rings.rings }
        requires unspent { R.next_name self.old.rings.rings < u64.MAX }
        ensures out { (n : ℕ) → seen self.new n ≡ on ring (put_head (result, shown (look self.old.regions) bucket)) (seen self.old) n }
        ensures regions { self.new.regions ≡ self.old.regions }
        ensures name { result.birth ≡ R.next_name self.old.rings.rings }
        ensures next { R.next_name self.new.rings.rings ≡ R.next_name self.old.rings.rings + 1 }
        ensures names { NoneRevived (R.ring_at self.old.rings.rings) (R.ring_at self.new.rings.rings) (R.next_name self.old.rings.rings) }
    {
        match self.rings.add_head(ring, bucket) {
            Ok(id) => id,
            Err(_) => unreachable!(),
        }
    }

    /// Puts a bucket whose bytes are placed before another; otherwise as `add_tail`.
    pub fn add_before(&mut self, at: BucketId, bucket: Stored) -> BucketId
        requires there { is_some (R.ring_at self.old.rings.rings at) ≡ true }
        requires whole { is_whole (look self.old.regions) bucket.kept ≡ true }
        requires lies { lies_right bucket.kind bucket.kept ≡ true }
        requires room { R.has_room self.old.rings.rings }
        requires unspent { R.next_name self.old.rings.rings < u64.MAX }
        ensures out { (r n : ℕ) → R.ring_at self.old.rings.rings at ≡ Some r → seen self.new n ≡ on r (put_before at (result, shown (look self.old.regions) bucket)) (seen self.old) n }
        ensures regions { self.new.regions ≡ self.old.regions }
        ensures name { result.birth ≡ R.next_name self.old.rings.rings }
        ensures next { R.next_name self.new.rings.rings ≡ R.next_name self.old.rings.rings + 1 }
        ensures names { NoneRevived (R.ring_at self.old.rings.rings) (R.ring_at self.new.rings.rings) (R.next_name self.old.rings.rings) }
    {
        match self.rings.add_before(at, bucket) {
            Ok(id) => id,
            Err(_) => unreachable!(),
        }
    }

    /// Puts a bucket whose bytes are placed behind another; otherwise as `add_tail`.
    pub fn add_after(&mut self, at: BucketId, bucket: Stored) -> BucketId
        requires there { is_some (R.ring_at self.old.rings.rings at) ≡ true }
        requires whole { is_whole (look self.old.regions) bucket.kept ≡ true }
        requires lies { lies_right bucket.kind bucket.kept ≡ true }
        requires room { R.has_room self.old.rings.rings }
        requires unspent { R.next_name self.old.rings.rings < u64.MAX }
        ensures out { (r n : ℕ) → R.ring_at self.old.rings.rings at ≡ Some r → seen self.new n ≡ on r (put_after at (result, shown (look self.old.regions) bucket)) (seen self.old) n }
        ensures regions { self.new.regions ≡ self.old.regions }
        ensures name { result.birth ≡ R.next_name self.old.rings.rings }
        ensures next { R.next_name self.new.rings.rings ≡ R.next_name self.old.rings.rings + 1 }
        ensures names { NoneRevived (R.ring_at self.old.rings.rings) (R.ring_at self.new.rings.rings) (R.next_name self.old.rings.rings) }
    {
        match self.rings.add_after(at, bucket) {
            Ok(id) => id,
            Err(_) => unreachable!(),
        }
    }

    /// Puts new buckets before the sentinel of a ring, in this order: all, or none. `NamesSpent`: so many names are not left. Refused, nothing
    /// is changed, and no name is spent.
    pub fn add_all(&mut self, ring: RingId, given: Vec<Bucket>) -> Result<(), RingRefusal>
        requires { is_some (seen self.old ring) ≡ true }
        ensures ok { OnOk result ((xs : Items) × (by_birth xs ≡ numbered (R.next_name self.old.rings.rings) given.items) × ((n : ℕ) → seen self.new n ≡ on ring (λ ys. ys ++ xs) (seen self.old) n)) }
        ensures next { R.next_name self.new.rings.rings ≡ (if is_ok result then R.next_name self.old.rings.rings + length given.items else R.next_name self.old.rings.rings) }
        ensures names { NoneRevived (R.ring_at self.old.rings.rings) (R.ring_at self.new.rings.rings) (R.next_name self.old.rings.rings) }
        ensures spent { (result ≡ Err RingRefusal.NamesSpent) ↔ (u64.MAX < R.next_name self.old.rings.rings + length given.items) }
        ensures err { OnErr result ((n : ℕ) → seen self.new n ≡ seen self.old n) }
    {
        if u64::MAX - self.rings.next_name() < given.len() as u64 {
            return Err(RingRefusal::NamesSpent);
        }
        let kept = self.hold_all(given)?;
        self.rings.add_all(ring, kept)
    }

    /// Makes two rings, the first empty, the second with new buckets in this order, each with a content of its own: all, or none. The bytes
    /// of a POOL bucket are placed in the region of its pool. The rings have the next two names, the buckets those after them.
    /// `NamesSpent`: so many names are not left. Refused, nothing is changed, and no name is spent.
    pub fn new_pair(&mut self, mut given: Vec<Stored>) -> Result<(RingId, RingId), RingRefusal>
        requires { list_all is_own given.items ≡ true }
        ensures ok { OnOk result ((xs : Items) × (by_birth xs ≡ numbered (R.next_name self.old.rings.rings + 2) (map own_bucket given.items))
            × ((n : ℕ) → seen self.new n ≡ upd (upd (seen self.old) (R.next_name self.old.rings.rings) (Some [])) (R.next_name self.old.rings.rings + 1) (Some xs) n)) }
        ensures name { IfOk result (λ pair. pair ≡ (R.next_name self.old.rings.rings, R.next_name self.old.rings.rings + 1)) }
        ensures next { R.next_name self.new.rings.rings ≡ (if is_ok result then R.next_name self.old.rings.rings + 2 + length given.items else R.next_name self.old.rings.rings) }
        ensures names { NoneRevived (R.ring_at self.old.rings.rings) (R.ring_at self.new.rings.rings) (R.next_name self.old.rings.rings) }
        ensures spent { (result ≡ Err RingRefusal.NamesSpent) ↔ (u64.MAX < R.next_name self.old.rings.rings + 2 + length given.items) }
        ensures err { OnErr result ((n : ℕ) → seen self.new n ≡ seen self.old n) }
    {
        let left = u64::MAX - self.rings.next_name();
        if left < 2 || left - 2 < given.len() as u64 {
            return Err(RingRefusal::NamesSpent);
        }
        self.place_all(&mut given)?;
        self.rings.new_pair(given)
    }

    /// Takes a bucket out and puts it before the sentinel of a ring, which may be its own.
    pub fn move_tail(&mut self, ring: RingId, id: BucketId)
        requires ring { is_some (seen self.old ring) ≡ true }
        requires bucket { is_some (R.ring_at self.old.rings.rings id) ≡ true }
        ensures out { (q n : ℕ) (x : Bucket) → R.ring_at self.old.rings.rings id ≡ Some q → found id (list_at (seen self.old) q) ≡ Some x
            → seen self.new n ≡ on ring (put_tail (id, x)) (on q (without id) (seen self.old)) n }
        ensures next { R.next_name self.new.rings.rings ≡ R.next_name self.old.rings.rings }
        ensures names { NoneRevived (R.ring_at self.old.rings.rings) (R.ring_at self.new.rings.rings) (R.next_name self.old.rings.rings) }
    {
        self.rings.move_tail(ring, id);
    }

    /// Takes a bucket out and puts it behind the sentinel of a ring, which may be its own.
    pub fn move_head(&mut self, ring: RingId, id: BucketId)
        requires ring { is_some (seen self.old ring) ≡ true }
        requires bucket { is_some (R.ring_at self.old.rings.rings id) ≡ true }
        ensures out { (q n : ℕ) (x : Bucket) → R.ring_at self.old.rings.rings id ≡ Some q → found id (list_at (seen self.old) q) ≡ Some x
            → seen self.new n ≡ on ring (put_head (id, x)) (on q (without id) (seen self.old)) n }
        ensures next { R.next_name self.new.rings.rings ≡ R.next_name self.old.rings.rings }
        ensures names { NoneRevived (R.ring_at self.old.rings.rings) (R.ring_at self.new.rings.rings) (R.next_name self.old.rings.rings) }
    {
        self.rings.move_head(ring, id);
    }

    /// Takes a bucket out and puts it before another; before itself, nothing is changed.
    pub fn move_before(&mut self, at: BucketId, id: BucketId)
        requires place { is_some (R.ring_at self.old.rings.rings at) ≡ true }
        requires bucket { is_some (R.ring_at self.old.rings.rings id) ≡ true }
        ensures out { (r q n : ℕ) (x : Bucket) → R.ring_at self.old.rings.rings at ≡ Some r → R.ring_at self.old.rings.rings id ≡ Some q
            → found id (list_at (seen self.old) q) ≡ Some x
            → seen self.new n ≡ (if same at id then seen self.old n else on r (put_before at (id, x)) (on q (without id) (seen self.old)) n) }
        ensures next { R.next_name self.new.rings.rings ≡ R.next_name self.old.rings.rings }
        ensures names { NoneRevived (R.ring_at self.old.rings.rings) (R.ring_at self.new.rings.rings) (R.next_name self.old.rings.rings) }
    {
        self.rings.move_before(at, id);
    }

    /// Moves all buckets of `from` before the sentinel of `ring`; onto itself, nothing is changed.
    pub fn splice_tail(&mut self, ring: RingId, from: RingId)
        requires ring { is_some (seen self.old ring) ≡ true }
        requires from { is_some (seen self.old from) ≡ true }
        ensures out { (n : ℕ) → seen self.new n ≡ on ring (λ bs. bs ++ list_at (seen self.old) from) (on from (λ bs. []) (seen self.old)) n }
        ensures next { R.next_name self.new.rings.rings ≡ R.next_name self.old.rings.rings }
        ensures names { NoneRevived (R.ring_at self.old.rings.rings) (R.ring_at self.new.rings.rings) (R.next_name self.old.rings.rings) }
    {
        self.rings.splice_tail(ring, from);
    }

    /// Moves a bucket and those behind it before the sentinel of a ring; of its own ring, nothing is changed.
    pub fn splice_from(&mut self, id: BucketId, ring: RingId)
        requires bucket { is_some (R.ring_at self.old.rings.rings id) ≡ true }
        requires ring { is_some (seen self.old ring) ≡ true }
        ensures out { (q n : ℕ) → R.ring_at self.old.rings.rings id ≡ Some q → seen self.new n ≡ on ring (λ bs. bs ++ rest id (list_at (seen self.old) q)) (on q (front id) (seen self.old)) n }
        ensures next { R.next_name self.new.rings.rings ≡ R.next_name self.old.rings.rings }
        ensures names { NoneRevived (R.ring_at self.old.rings.rings) (R.ring_at self.new.rings.rings) (R.next_name self.old.rings.rings) }
    {
        self.rings.splice_from(id, ring);
    }

    /// Destroys a bucket.
    pub fn drop_bucket(&mut self, id: BucketId)
        requires { is_some (R.ring_at self.old.rings.rings id) ≡ true }
        ensures out { (q n : ℕ) → R.ring_at self.old.rings.rings id ≡ Some q → seen self.new n ≡ on q (without id) (seen self.old) n }
        ensures next { R.next_name self.new.rings.rings ≡ R.next_name self.old.rings.rings }
        ensures names { NoneRevived (R.ring_at self.old.rings.rings) (R.ring_at self.new.rings.rings) (R.next_name self.old.rings.rings) }
    {
        self.rings.drop_bucket(id);
    }

    /// Destroys the buckets of a ring, which stays.
    pub fn drop_all(&mut self, ring: RingId)
        requires { is_some (seen self.old ring) ≡ true }
        ensures out { (n : ℕ) → seen self.new n ≡ on ring (λ bs. []) (seen self.old) n }
        ensures next { R.next_name self.new.rings.rings ≡ R.next_name self.old.rings.rings }
        ensures names { NoneRevived (R.ring_at self.old.rings.rings) (R.ring_at self.new.rings.rings) (R.next_name self.old.rings.rings) }
    {
        self.rings.drop_all(ring);
    }

    /// Ends a ring, and destroys its buckets.
    pub fn end_ring(&mut self, ring: RingId)
        requires { is_some (seen self.old ring) ≡ true }
        ensures out { (n : ℕ) → seen self.new n ≡ upd (seen self.old) ring None n }
        ensures next { R.next_name self.new.rings.rings ≡ R.next_name self.old.rings.rings }
        ensures names { NoneRevived (R.ring_at self.old.rings.rings) (R.ring_at self.new.rings.rings) (R.next_name self.old.rings.rings) }
    {
        self.rings.end_ring(ring);
    }

    /// The next name, which no ring and no bucket has yet.
    pub fn next_name(&self) -> u64
        ensures { result ≡ R.next_name self.now.rings.rings }
    {
        self.rings.next_name()
    }

    /// Sets the next name to this or a later one: those between were given by others.
    pub fn set_next(&mut self, next: u64)
        requires { R.next_name self.old.rings.rings ≤ next }
        ensures next { R.next_name self.new.rings.rings ≡ next }
        ensures lists { (n : ℕ) → seen self.new n ≡ seen self.old n }
        ensures places { (id : BucketId) → R.ring_at self.new.rings.rings id ≡ R.ring_at self.old.rings.rings id }
    {
        self.rings.set_next(next);
    }

    /// Whether there is such a ring.
    pub fn has_ring(&self, ring: RingId) -> bool
        ensures { result ≡ is_some (seen self.now ring) }
    {
        self.rings.has_ring(ring)
    }

    /// The first bucket of a ring; `None` where its sentinel is first.
    pub fn first(&self, ring: RingId) -> Option<BucketId>
        requires { is_some (seen self.now ring) ≡ true }
        ensures { result ≡ first_of (list_at (seen self.now) ring) }
    {
        self.rings.first(ring)
    }

    /// The bucket behind another; the ring where its sentinel is behind it.
    pub fn next(&self, id: BucketId) -> Result<BucketId, RingId>
        requires { is_some (R.ring_at self.now.rings.rings id) ≡ true }
        ensures { (r : ℕ) → R.ring_at self.now.rings.rings id ≡ Some r → result ≡ next_in r id (list_at (seen self.now) r) }
    {
        self.rings.next(id)
    }

    /// The ring that a bucket is in; `None` where it was destroyed.
    pub fn ring_of(&self, id: BucketId) -> Option<RingId>
        ensures { result ≡ R.ring_at self.now.rings.rings id }
    {
        self.rings.ring_of(id)
    }

    /// A bucket as it is held. What lies in a region is there.
    pub fn stored(&self, id: BucketId) -> &Stored
        requires { is_some (R.ring_at self.now.rings.rings id) ≡ true }
        ensures shown { (r : ℕ) → R.ring_at self.now.rings.rings id ≡ Some r → found id (list_at (seen self.now) r) ≡ Some (shown (look self.now.regions) result.now) }
        ensures whole { is_whole (look self.now.regions) result.now.kept ≡ true }
        ensures lies { lies_right result.now.kind result.now.kept ≡ true }
    {
        self.rings.payload(id)
    }

    /// Puts another bucket in the place of one, which is answered. No region is changed.
    pub fn put(&mut self, id: BucketId, bucket: Stored) -> Stored
        requires there { is_some (R.ring_at self.old.rings.rings id) ≡ true }
        requires whole { is_whole (look self.old.regions) bucket.kept ≡ true }
        requires lies { lies_right bucket.kind bucket.kept ≡ true }
        ensures had { (r : ℕ) → R.ring_at self.old.rings.rings id ≡ Some r → found id (list_at (seen self.old) r) ≡ Some (shown (look self.old.regions) result) }
        ensures had_whole { is_whole (look self.old.regions) result.kept ≡ true }
        ensures had_right { lies_right result.kind result.kept ≡ true }
        ensures out { (r n : ℕ) → R.ring_at self.old.rings.rings id ≡ Some r → seen self.new n ≡ on r (with_payload id (shown (look self.old.regions) bucket)) (seen self.old) n }
        ensures regions { self.new.regions ≡ self.old.regions }
        ensures next { R.next_name self.new.rings.rings ≡ R.next_name self.old.rings.rings }
        ensures names { NoneRevived (R.ring_at self.old.rings.rings) (R.ring_at self.new.rings.rings) (R.next_name self.old.rings.rings) }
    {
        self.rings.set_payload(id, bucket)
    }

    /// Destroys the buckets of a ring before one of them.
    pub fn drop_before(&mut self, ring: RingId, id: BucketId)
        requires { R.ring_at self.old.rings.rings id ≡ Some ring }
        ensures out { (n : ℕ) → seen self.new n ≡ on ring (rest id) (seen self.old) n }
        ensures next { R.next_name self.new.rings.rings ≡ R.next_name self.old.rings.rings }
        ensures names { NoneRevived (R.ring_at self.old.rings.rings) (R.ring_at self.new.rings.rings) (R.next_name self.old.rings.rings) }
    {
        while let Some(first) = self.first(ring) {
            if first == id {
                return;
            }
            self.drop_bucket(first);
        }
    }

    /// Places the bytes of a POOL bucket in the region of its pool.
    fn place(
        &mut self,
        kind: Kind,
        content: &Content,
        home: Home,
    ) -> Result<Option<Stored>, AllocError>
        ensures shown { IfOk result (λ o. IfSome o (λ x. shown (look self.new.regions) x ≡ record { kind = kind; content = content.now; home = home })) }
        ensures whole { IfOk result (λ o. IfSome o (λ x. is_whole (look self.new.regions) x.kept ≡ true)) }
        ensures lies { IfOk result (λ o. IfSome o (λ x. lies_right x.kind x.kept ≡ true)) }
        ensures none { IfOk result (λ o. o ≡ None → lies_right kind (Kept.Own content.now) ≡ true) }
        ensures kept { (p : ℕ) (s : Span) → is_some (look self.old.regions p s) ≡ true → look self.new.regions p s ≡ look self.old.regions p s }
        ensures rings { self.new.rings ≡ self.old.rings }
        ensures same { (n : ℕ) → seen self.new n ≡ seen self.old n }
    {
        match (kind, content) {
            (Kind::Pool(pool), Content::Bytes(bytes)) => {
                let placed = self.regions.place(pool, bytes.as_slice())?;
                Ok(Some(Stored {
                    kind,
                    kept: placed.kept,
                    home,
                }))
            }
            _ => Ok(None),
        }
    }

    /// Makes room for a new bucket, and places its bytes where it is a POOL bucket. Refused, it comes back.
    pub fn take(&mut self, bucket: Bucket) -> Result<Stored, Bucket>
        ensures shown { IfOk result (λ x. shown (look self.new.regions) x ≡ bucket) }
        ensures whole { IfOk result (λ x. is_whole (look self.new.regions) x.kept ≡ true) }
        ensures lies { IfOk result (λ x. lies_right x.kind x.kept ≡ true) }
        ensures room { OnOk result (R.has_room self.new.rings.rings) }
        ensures next { R.next_name self.new.rings.rings ≡ R.next_name self.old.rings.rings }
        ensures same { (n : ℕ) → seen self.new n ≡ seen self.old n }
        ensures places { (id : BucketId) → R.ring_at self.new.rings.rings id ≡ R.ring_at self.old.rings.rings id }
        ensures back { IfErr result (λ b. b ≡ bucket) }
    {
        if self.make_room().is_err() {
            return Err(bucket);
        }
        match self.place(bucket.kind, &bucket.content, bucket.home) {
            Ok(Some(stored)) => Ok(stored),
            Ok(None) => Ok(keep_own(bucket)),
            Err(_) => Err(bucket),
        }
    }

    /// Places the bytes of a new bucket in the region of its pool, where it is a POOL bucket.
    fn place_own(&mut self, bucket: &mut Stored) -> Result<(), AllocError>
        requires { is_own bucket.old ≡ true }
        ensures shown { OnOk result (shown (look self.new.regions) bucket.new ≡ own_bucket bucket.old) }
        ensures held { OnOk result (is_held (look self.new.regions) bucket.new ≡ true) }
        ensures kept { (p : ℕ) (s : Span) → is_some (look self.old.regions p s) ≡ true → look self.new.regions p s ≡ look self.old.regions p s }
        ensures rings { self.new.rings ≡ self.old.rings }
        ensures same { (n : ℕ) → seen self.new n ≡ seen self.old n }
    {
        let Kept::Own(content) = &bucket.kept else {
            unreachable!()
        };
        if let Some(placed) = self.place(bucket.kind, content, bucket.home)? {
            *bucket = placed;
        }
        Ok(())
    }

    /// Places the bytes of those new buckets that are POOL buckets. Where memory is refused, what was placed lies in regions, and no ring
    /// names it.
    fn place_all(&mut self, buckets: &mut Vec<Stored>) -> Result<(), AllocError>
        requires { list_all is_own buckets.old.items ≡ true }
        ensures shown { OnOk result (map (shown (look self.new.regions)) buckets.new.items ≡ map own_bucket buckets.old.items) }
        ensures held { OnOk result (list_all (is_held (look self.new.regions)) buckets.new.items ≡ true) }
        ensures rings { self.new.rings ≡ self.old.rings }
        ensures same { (n : ℕ) → seen self.new n ≡ seen self.old n }
    {
        for k in 0..buckets.len() {
            self.place_own(&mut buckets[k])?;
        }
        Ok(())
    }

    /// New buckets as they are held.
    fn hold_all(&mut self, buckets: Vec<Bucket>) -> Result<Vec<Stored>, AllocError>
        ensures shown { IfOk result (λ held. map (shown (look self.new.regions)) held.items ≡ buckets.items) }
        ensures held { IfOk result (λ held. list_all (is_held (look self.new.regions)) held.items ≡ true) }
        ensures rings { self.new.rings ≡ self.old.rings }
        ensures same { (n : ℕ) → seen self.new n ≡ seen self.old n }
    {
        let mut held = Vec::new(self.regions.alloc);
        for bucket in buckets {
            held.push(keep_own(bucket))?;
        }
        self.place_all(&mut held)?;
        Ok(held)
    }

    /// Throws out the names under a pool whose buckets are gone or depend on it no more, and gives up its region where no bucket depends on it.
    fn forget_pool(&mut self, pool: u64)
        ensures given_up { IsGivenUp self.new pool }
        ensures others { (p : ℕ) → p ≢ pool → IsGivenUp self.old p → IsGivenUp self.new p }
        ensures rings { self.new.rings.rings ≡ self.old.rings.rings }
        ensures same { (n : ℕ) → seen self.new n ≡ seen self.old n }
    {
        if self.rings.forget(pool) {
            self.regions.free(pool);
        }
    }

    /// Throws out the names under these pools whose buckets are gone or depend on them no more, and gives up the region of each on which no
    /// bucket depends.
    pub fn forget(&mut self, pools: &[u64])
        ensures given_up { (p : ℕ) → is_in p pools.now ≡ true → IsGivenUp self.new p }
        ensures others { (p : ℕ) → IsGivenUp self.old p → IsGivenUp self.new p }
        ensures rings { self.new.rings.rings ≡ self.old.rings.rings }
        ensures same { (n : ℕ) → seen self.new n ≡ seen self.old n }
    {
        for pool in pools {
            self.forget_pool(*pool);
        }
    }

    /// Whether a copy is of what is kept.
    fn is_copy(&self, kept: &Kept, content: &Content) -> bool
        requires { is_whole (look self.now.regions) kept.now ≡ true }
        ensures { result ≡ true → shown_content (look self.now.regions) kept.now ≡ content.now }
    {
        match (kept, content) {
            (Kept::Placed(place), Content::Bytes(bytes)) => {
                self.regions.bytes(*place) == bytes.as_slice()
            }
            _ => false,
        }
    }

    /// Puts a copy in the place of the bytes of a bucket, where it is one of them and the bucket is no POOL bucket any more.
    fn put_copy_at(&mut self, id: BucketId, copy: Content)
        requires { is_some (R.ring_at self.old.rings.rings id) ≡ true }
        ensures same { (n : ℕ) → seen self.new n ≡ seen self.old n }
        ensures next { R.next_name self.new.rings.rings ≡ R.next_name self.old.rings.rings }
        ensures names { NoneRevived (R.ring_at self.old.rings.rings) (R.ring_at self.new.rings.rings) (R.next_name self.old.rings.rings) }
    {
        let stored = self.stored(id);
        if !is_pool(stored.kind) && self.is_copy(&stored.kept, &copy) {
            let (kind, home) = (stored.kind, stored.home);
            let kept = Kept::Own(copy);
            let _placed = self.put(id, Stored { kind, kept, home });
        }
    }

    /// Puts a copy in the place of bytes that lie in a region, where its bucket is there.
    fn put_copy(&mut self, copy: HeapCopy)
        ensures same { (n : ℕ) → seen self.new n ≡ seen self.old n }
        ensures next { R.next_name self.new.rings.rings ≡ R.next_name self.old.rings.rings }
        ensures names { NoneRevived (R.ring_at self.old.rings.rings) (R.ring_at self.new.rings.rings) (R.next_name self.old.rings.rings) }
    {
        let HeapCopy { id, bucket } = copy;
        if self.ring_of(id).is_some() {
            self.put_copy_at(id, bucket.content);
        }
    }

    /// Puts copies in the places of bytes that lie in regions. No bucket is another one than before.
    pub fn put_copies(&mut self, mut copies: Vec<HeapCopy>)
        ensures same { (n : ℕ) → seen self.new n ≡ seen self.old n }
        ensures next { R.next_name self.new.rings.rings ≡ R.next_name self.old.rings.rings }
        ensures names { NoneRevived (R.ring_at self.old.rings.rings) (R.ring_at self.new.rings.rings) (R.next_name self.old.rings.rings) }
    {
        while let Some(copy) = copies.pop() {
            self.put_copy(copy);
        }
    }
}
