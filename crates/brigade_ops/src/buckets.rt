//! One bucket of the store at a time: put in, moved, found and destroyed.

ghost use Rattle.std.specs.Prelude.{◌≡◌, ◌↔◌, ℕ, ◌+◌, ◌<◌, ◌^◌, ◌++◌, length, Some, true, is_some, is_ok, if◌then◌else◌, IsOk, IfOk, IfErr, OnOk, OnErr};
ghost use Rattle.brigade_ops.specs.Prelude.{once_more, on, list_at, same, first_of, next_in, found, put_tail, put_head, put_before, put_after, without, by_birth, numbered, NoneRevived, is_whole};
ghost use Rattle.brigade_ops.specs.Prelude.{shown, Items, bytes_in, look, lies_right, bucket_of};

use crate::store::{BrigadeId, Brigades};
use bucket_kinds::{Kept, Stored};
use bucket_ring::{BucketId, RingRefusal, Rings};
use bucket_store::{ContentView, View};
use run_model::Bucket;
use std::alloc::AllocError;

#[tactic(auto, unfolding(bucket_store::specs::BucketStore::seen, crate::specs::Store::lists, crate::specs::Store::brigade_of, crate::specs::Store::pool_of, crate::specs::Store::next_name, crate::specs::Store::references))]
impl<R: Rings<Stored> + Drop> Brigades<R> {
    ghost use Rattle.brigade_ops.specs.Store.{lists, brigade_of, bucket_at, pool_of, next_name, references};

    /// Puts a new bucket at the tail of a brigade (`APR_BRIGADE_INSERT_TAIL`). `NamesSpent`: the next name is `u64::MAX`. Refused,
    /// nothing is changed, and the bucket comes back.
    pub fn add_tail(
        &mut self,
        b: BrigadeId,
        bucket: Bucket,
    ) -> Result<BucketId, (RingRefusal, Bucket)>
        requires { is_some (lists self.old b) ≡ true }
        ensures ok { IfOk result (λ id. (n : ℕ) → lists self.new n ≡ on b (put_tail (id, bucket)) (lists self.old) n) }
        ensures name { IfOk result (λ id. id.birth ≡ next_name self.old) }
        ensures next { next_name self.new ≡ (if is_ok result then next_name self.old + 1 else next_name self.old) }
        ensures names { NoneRevived (brigade_of self.old) (brigade_of self.new) (next_name self.old) }
        ensures pools { pool_of self.new ≡ pool_of self.old }
        ensures references { references self.new ≡ references self.old }
        ensures spent { next_name self.old ≡ u64.MAX → result ≡ Err (RingRefusal.NamesSpent, bucket) }
        ensures unspent { IfErr result (λ why. why.0 ≡ RingRefusal.NamesSpent → next_name self.old ≡ u64.MAX) }
        ensures err { OnErr result ((n : ℕ) → lists self.new n ≡ lists self.old n) }
        ensures back { IfErr result (λ why. why.1 ≡ bucket) }
        ensures unasked { self.new.asked ≡ self.old.asked }
    {
        let stored = self.hold(bucket)?;
        Ok(self.held.add_tail(b, stored))
    }

    /// Puts new buckets at the tail of a brigade, in this order: all, or none. `NamesSpent`: so many names are not left. Refused, nothing is
    /// changed, and no name is spent.
    pub fn add_all(&mut self, b: BrigadeId, buckets: Vec<Bucket>) -> Result<(), RingRefusal>
        requires { is_some (lists self.old b) ≡ true }
        ensures ok { OnOk result ((xs : Items) × (by_birth xs ≡ numbered (next_name self.old) buckets.items) × ((n : ℕ) → lists self.new n ≡ on b (λ ys. ys ++ xs) (lists self.old) n)) }
        ensures next { next_name self.new ≡ (if is_ok result then next_name self.old + length buckets.items else next_name self.old) }
        ensures names { NoneRevived (brigade_of self.old) (brigade_of self.new) (next_name self.old) }
        ensures pools { pool_of self.new ≡ pool_of self.old }
        ensures references { references self.new ≡ references self.old }
        ensures spent { (result ≡ Err RingRefusal.NamesSpent) ↔ (u64.MAX < next_name self.old + length buckets.items) }
        ensures err { OnErr result ((n : ℕ) → lists self.new n ≡ lists self.old n) }
        ensures unasked { self.new.asked ≡ self.old.asked }
    {
        self.held.add_all(b, buckets)
    }

    /// Puts a new bucket at the head of a brigade (`APR_BRIGADE_INSERT_HEAD`); otherwise as `add_tail`.
    pub fn add_head(
        &mut self,
        b: BrigadeId,
        bucket: Bucket,
    ) -> Result<BucketId, (RingRefusal, Bucket)>
        requires { is_some (lists self.old b) ≡ true }
        ensures ok { IfOk result (λ id. (n : ℕ) → lists self.new n ≡ on b (put_head (id, bucket)) (lists self.old) n) }
        ensures name { IfOk result (λ id. id.birth ≡ next_name self.old) }
        ensures next { next_name self.new ≡ (if is_ok result then next_name self.old + 1 else next_name self.old) }
        ensures names { NoneRevived (brigade_of self.old) (brigade_of self.new) (next_name self.old) }
        ensures pools { pool_of self.new ≡ pool_of self.old }
        ensures references { references self.new ≡ references self.old }
        ensures spent { next_name self.old ≡ u64.MAX → result ≡ Err (RingRefusal.NamesSpent, bucket) }
        ensures unspent { IfErr result (λ why. why.0 ≡ RingRefusal.NamesSpent → next_name self.old ≡ u64.MAX) }
        ensures err { OnErr result ((n : ℕ) → lists self.new n ≡ lists self.old n) }
        ensures back { IfErr result (λ why. why.1 ≡ bucket) }
        ensures unasked { self.new.asked ≡ self.old.asked }
    {
        let stored = self.hold(bucket)?;
        Ok(self.held.add_head(b, stored))
    }

    /// Puts a new bucket before another (`APR_BUCKET_INSERT_BEFORE`); otherwise as `add_tail`.
    pub fn add_before(
        &mut self,
        at: BucketId,
        bucket: Bucket,
    ) -> Result<BucketId, (RingRefusal, Bucket)>
        requires { is_some (brigade_of self.old at) ≡ true }
        ensures ok { IfOk result (λ id. (b n : ℕ) → brigade_of self.old at ≡ Some b → lists self.new n ≡ on b (put_before at (id, bucket)) (lists self.old) n) }
        ensures name { IfOk result (λ id. id.birth ≡ next_name self.old) }
        ensures next { next_name self.new ≡ (if is_ok result then next_name self.old + 1 else next_name self.old) }
        ensures names { NoneRevived (brigade_of self.old) (brigade_of self.new) (next_name self.old) }
        ensures pools { pool_of self.new ≡ pool_of self.old }
        ensures references { references self.new ≡ references self.old }
        ensures spent { next_name self.old ≡ u64.MAX → result ≡ Err (RingRefusal.NamesSpent, bucket) }
        ensures unspent { IfErr result (λ why. why.0 ≡ RingRefusal.NamesSpent → next_name self.old ≡ u64.MAX) }
        ensures err { OnErr result ((n : ℕ) → lists self.new n ≡ lists self.old n) }
        ensures back { IfErr result (λ why. why.1 ≡ bucket) }
        ensures unasked { self.new.asked ≡ self.old.asked }
    {
        let stored = self.hold(bucket)?;
        Ok(self.held.add_before(at, stored))
    }

    /// Puts a new bucket behind another (`APR_BUCKET_INSERT_AFTER`); otherwise as `add_tail`.
    pub fn add_after(
        &mut self,
        at: BucketId,
        bucket: Bucket,
    ) -> Result<BucketId, (RingRefusal, Bucket)>
        requires { is_some (brigade_of self.old at) ≡ true }
        ensures ok { IfOk result (λ id. (b n : ℕ) → brigade_of self.old at ≡ Some b → lists self.new n ≡ on b (put_after at (id, bucket)) (lists self.old) n) }
        ensures name { IfOk result (λ id. id.birth ≡ next_name self.old) }
        ensures next { next_name self.new ≡ (if is_ok result then next_name self.old + 1 else next_name self.old) }
        ensures names { NoneRevived (brigade_of self.old) (brigade_of self.new) (next_name self.old) }
        ensures pools { pool_of self.new ≡ pool_of self.old }
        ensures references { references self.new ≡ references self.old }
        ensures spent { next_name self.old ≡ u64.MAX → result ≡ Err (RingRefusal.NamesSpent, bucket) }
        ensures unspent { IfErr result (λ why. why.0 ≡ RingRefusal.NamesSpent → next_name self.old ≡ u64.MAX) }
        ensures err { OnErr result ((n : ℕ) → lists self.new n ≡ lists self.old n) }
        ensures back { IfErr result (λ why. why.1 ≡ bucket) }
        ensures unasked { self.new.asked ≡ self.old.asked }
    {
        let stored = self.hold(bucket)?;
        Ok(self.held.add_after(at, stored))
    }

    /// Moves a bucket to the tail of a brigade, which may be its own. It gets no new name, and takes no memory.
    pub fn move_tail(&mut self, b: BrigadeId, id: BucketId)
        requires brigade { is_some (lists self.old b) ≡ true }
        requires bucket { is_some (brigade_of self.old id) ≡ true }
        ensures out { (q n : ℕ) (x : Bucket) → brigade_of self.old id ≡ Some q → found id (list_at (lists self.old) q) ≡ Some x
            → lists self.new n ≡ on b (put_tail (id, x)) (on q (without id) (lists self.old)) n }
        ensures next { next_name self.new ≡ next_name self.old }
        ensures names { NoneRevived (brigade_of self.old) (brigade_of self.new) (next_name self.old) }
        ensures pools { pool_of self.new ≡ pool_of self.old }
        ensures references { references self.new ≡ references self.old }
        ensures unasked { self.new.asked ≡ self.old.asked }
    {
        self.held.move_tail(b, id);
    }

    /// Moves a bucket to the head of a brigade; otherwise as `move_tail`.
    pub fn move_head(&mut self, b: BrigadeId, id: BucketId)
        requires brigade { is_some (lists self.old b) ≡ true }
        requires bucket { is_some (brigade_of self.old id) ≡ true }
        ensures out { (q n : ℕ) (x : Bucket) → brigade_of self.old id ≡ Some q → found id (list_at (lists self.old) q) ≡ Some x
            → lists self.new n ≡ on b (put_head (id, x)) (on q (without id) (lists self.old)) n }
        ensures next { next_name self.new ≡ next_name self.old }
        ensures names { NoneRevived (brigade_of self.old) (brigade_of self.new) (next_name self.old) }
        ensures pools { pool_of self.new ≡ pool_of self.old }
        ensures references { references self.new ≡ references self.old }
        ensures unasked { self.new.asked ≡ self.old.asked }
    {
        self.held.move_head(b, id);
    }

    /// Moves a bucket before another; otherwise as `move_tail`. Before itself, nothing is changed.
    pub fn move_before(&mut self, at: BucketId, id: BucketId)
        requires place { is_some (brigade_of self.old at) ≡ true }
        requires bucket { is_some (brigade_of self.old id) ≡ true }
        ensures out { (b q n : ℕ) (x : Bucket) → brigade_of self.old at ≡ Some b → brigade_of self.old id ≡ Some q
            → found id (list_at (lists self.old) q) ≡ Some x
            → lists self.new n ≡ (if same at id then lists self.old n else on b (put_before at (id, x)) (on q (without id) (lists self.old)) n) }
        ensures next { next_name self.new ≡ next_name self.old }
        ensures names { NoneRevived (brigade_of self.old) (brigade_of self.new) (next_name self.old) }
        ensures pools { pool_of self.new ≡ pool_of self.old }
        ensures references { references self.new ≡ references self.old }
        ensures unasked { self.new.asked ≡ self.old.asked }
    {
        self.held.move_before(at, id);
    }

    /// Destroys a bucket (`apr_bucket_delete`).
    pub fn drop_bucket(&mut self, id: BucketId)
        requires { is_some (brigade_of self.old id) ≡ true }
        ensures out { (b n : ℕ) → brigade_of self.old id ≡ Some b → lists self.new n ≡ on b (without id) (lists self.old) n }
        ensures next { next_name self.new ≡ next_name self.old }
        ensures names { NoneRevived (brigade_of self.old) (brigade_of self.new) (next_name self.old) }
        ensures pools { pool_of self.new ≡ pool_of self.old }
        ensures references { references self.new ≡ references self.old }
        ensures unasked { self.new.asked ≡ self.old.asked }
    {
        self.held.drop_bucket(id);
    }

    /// The first bucket of a brigade (`APR_BRIGADE_FIRST`); `None` where its sentinel is first.
    pub fn first(&self, b: BrigadeId) -> Option<BucketId>
        requires { is_some (lists self.now b) ≡ true }
        ensures { result ≡ first_of (list_at (lists self.now) b) }
    {
        self.held.first(b)
    }

    /// The bucket behind another (`APR_BUCKET_NEXT`); the brigade where its sentinel is behind it.
    pub fn next(&self, id: BucketId) -> Result<BucketId, BrigadeId>
        requires { is_some (brigade_of self.now id) ≡ true }
        ensures { (b : ℕ) → brigade_of self.now id ≡ Some b → result ≡ next_in b id (list_at (lists self.now) b) }
    {
        self.held.next(id)
    }

    /// The brigade that a bucket is in; `None` where it was destroyed. It is counted that this was asked.
    pub fn ring_of(&mut self, id: BucketId) -> Option<BrigadeId>
        ensures value { result ≡ brigade_of self.old id }
        ensures there { result ≡ brigade_of self.new id }
        ensures counted { self.new ≡ record self.old { asked = once_more self.old.asked } }
    {
        self.asked = self.asked.saturating_add(1);
        self.held.ring_of(id)
    }

    /// A bucket as the rings hold it. What lies in a region is there.
    #[tactic(auto, unfolding(crate::specs::Store::brigade_of, crate::specs::Store::bucket_at))]
    pub(crate) fn stored(&self, id: BucketId) -> &Stored
        requires { is_some (brigade_of self.now id) ≡ true }
        ensures shown { bucket_at self.now id ≡ Some (shown (look self.now.held.regions) result.now) }
        ensures whole { is_whole (look self.now.held.regions) result.now.kept ≡ true }
        ensures lies { lies_right result.now.kind result.now.kept ≡ true }
    {
        self.held.stored(id)
    }

    /// A bucket.
    pub fn payload(&self, id: BucketId) -> View<'_>
        requires { is_some (brigade_of self.now id) ≡ true }
        ensures { bucket_at self.now id ≡ Some (bucket_of result) }
    {
        let stored = self.stored(id);
        let content = match &stored.kept {
            Kept::Own(content) => ContentView::of(content),
            Kept::Placed(place) => ContentView::Bytes(self.held.regions.bytes(*place)),
        };
        View {
            kind: stored.kind,
            content,
            home: stored.home,
        }
    }

    /// The bytes of a bucket that lie in memory: none of a FILE bucket, and none of metadata.
    pub fn bytes(&self, id: BucketId) -> &[u8]
        requires { is_some (brigade_of self.now id) ≡ true }
        ensures { (x : Bucket) → bucket_at self.now id ≡ Some x → result.now ≡ bytes_in x.content }
    {
        match self.payload(id).content {
            ContentView::Bytes(bytes) => bytes,
            ContentView::Range { .. } | ContentView::Nothing => &[],
        }
    }
}
