//! One bucket of the store is split, copied or read.

ghost use Rattle.std.specs.Prelude.{◌≡◌, ◌↔◌, ℕ, ◌+◌, ◌<◌, List, [], ◌∷◌, Some, None, Err, true, false, is_some, is_ok, if◌then◌else◌, IsOk, IfOk, OnOk, OnErr, IsErr};
ghost use Rattle.brigade_ops.specs.Prelude.{on, put_tail, put_after, with_payload, NoneRevived, is_data_kind, EndsInFile, length_of, split_at, Kept, is_whole, shown, replaced, look, lies_right};

use crate::store::{BrigadeId, Brigades};
use bucket_kinds::{SplitError, Stored, keep_own, stored_copy, stored_halves};
use bucket_ring::{BucketId, RingRefusal, Rings};
use bucket_store::SplitRefusal;
use run_model::Bucket;

#[tactic(auto, unfolding(bucket_store::specs::BucketStore::seen, crate::specs::Store::lists, crate::specs::Store::brigade_of, crate::specs::Store::pool_of, crate::specs::Store::next_name, crate::specs::Store::references, crate::specs::Store::has_room))]
impl<R: Rings<Stored> + Drop> Brigades<R> {
    ghost use Rattle.brigade_ops.specs.Store.{lists, brigade_of, bucket_at, pool_of, next_name, references, has_room};

    /// Puts a new bucket whose bytes are placed behind another. A name and room for it are there.
    pub(crate) fn put_behind(&mut self, at: BucketId, bucket: Stored) -> BucketId
        requires there { is_some (brigade_of self.old at) ≡ true }
        requires whole { is_whole (look self.old.held.regions) bucket.kept ≡ true }
        requires lies { lies_right bucket.kind bucket.kept ≡ true }
        requires room { has_room self.old }
        requires unspent { next_name self.old < u64.MAX }
        ensures out { (b n : ℕ) → brigade_of self.old at ≡ Some b → lists self.new n ≡ on b (put_after at (result, shown (look self.old.held.regions) bucket)) (lists self.old) n }
        ensures inside { (b : ℕ) → brigade_of self.old at ≡ Some b → brigade_of self.new result ≡ Some b }
        ensures absent { brigade_of self.old result ≡ None }
        ensures still { (b : ℕ) → brigade_of self.old at ≡ Some b → brigade_of self.new at ≡ Some b }
        ensures regions { self.new.held.regions ≡ self.old.held.regions }
        ensures name { result.birth ≡ next_name self.old }
        ensures next { next_name self.new ≡ next_name self.old + 1 }
        ensures names { NoneRevived (brigade_of self.old) (brigade_of self.new) (next_name self.old) }
        ensures pools { pool_of self.new ≡ pool_of self.old }
        ensures references { references self.new ≡ references self.old }
        ensures unasked { self.new.asked ≡ self.old.asked }
    {
        self.held.add_after(at, bucket)
    }

    /// Puts a bucket that keeps its own content in the place of another.
    pub(crate) fn set_own(&mut self, id: BucketId, bucket: Bucket)
        requires there { is_some (brigade_of self.old id) ≡ true }
        requires lies { lies_right bucket.kind (Kept.Own bucket.content) ≡ true }
        ensures out { (b n : ℕ) → brigade_of self.old id ≡ Some b → lists self.new n ≡ on b (with_payload id bucket) (lists self.old) n }
        ensures next { next_name self.new ≡ next_name self.old }
        ensures names { NoneRevived (brigade_of self.old) (brigade_of self.new) (next_name self.old) }
        ensures pools { pool_of self.new ≡ pool_of self.old }
        ensures references { references self.new ≡ references self.old }
        ensures unasked { self.new.asked ≡ self.old.asked }
    {
        let _had = self.held.put(id, keep_own(bucket));
    }

    /// The first `n` bytes of a bucket and the rest. What lies in a region stays there.
    fn halves_at(&self, id: BucketId, n: u64) -> Result<(Stored, Stored), SplitError>
        requires there { is_some (brigade_of self.now id) ≡ true }
        requires ends { (x : Bucket) → bucket_at self.now id ≡ Some x → EndsInFile x.content }
        ensures front { IfOk result (λ p. (x : Bucket) → bucket_at self.now id ≡ Some x → shown (look self.now.held.regions) p.0 ≡ (split_at n x).0) }
        ensures rest { IfOk result (λ p. (x : Bucket) → bucket_at self.now id ≡ Some x → shown (look self.now.held.regions) p.1 ≡ (split_at n x).1) }
        ensures front_whole { IfOk result (λ p. is_whole (look self.now.held.regions) p.0.kept ≡ true) }
        ensures rest_whole { IfOk result (λ p. is_whole (look self.now.held.regions) p.1.kept ≡ true) }
        ensures front_lies { IfOk result (λ p. lies_right p.0.kind p.0.kept ≡ true) }
        ensures rest_lies { IfOk result (λ p. lies_right p.1.kind p.1.kept ≡ true) }
        ensures metadata { (x : Bucket) → bucket_at self.now id ≡ Some x → (result ≡ Err SplitError.Metadata) ↔ (is_data_kind x.kind ≡ false) }
        ensures too_long { (x : Bucket) → bucket_at self.now id ≡ Some x → (result ≡ Err SplitError.TooLong) ↔ ((is_data_kind x.kind ≡ true) × (length_of x.content < n)) }
    {
        stored_halves(self.alloc, self.stored(id), n)
    }

    /// Splits a bucket after its first `n` bytes (`apr_bucket_split`): they keep its name, and the rest stands behind it under the
    /// name that is answered. Metadata is refused before a length is looked at. Refused, nothing is changed.
    pub fn split(&mut self, id: BucketId, n: u64) -> Result<BucketId, SplitRefusal>
        requires there { is_some (brigade_of self.old id) ≡ true }
        requires ends { (x : Bucket) → bucket_at self.old id ≡ Some x → EndsInFile x.content }
        ensures ok { IfOk result (λ new. (b m : ℕ) (x : Bucket) → brigade_of self.old id ≡ Some b → bucket_at self.old id ≡ Some x
            → lists self.new m ≡ on b (replaced id (split_at n x).0 ((new, (split_at n x).1) ∷ [])) (lists self.old) m) }
        ensures name { IfOk result (λ new. new.birth ≡ next_name self.old) }
        ensures next { next_name self.new ≡ (if is_ok result then next_name self.old + 1 else next_name self.old) }
        ensures names { NoneRevived (brigade_of self.old) (brigade_of self.new) (next_name self.old) }
        ensures pools { pool_of self.new ≡ pool_of self.old }
        ensures references { references self.new ≡ references self.old }
        ensures metadata { (x : Bucket) → bucket_at self.old id ≡ Some x → (result ≡ Err SplitRefusal.Metadata) ↔ (is_data_kind x.kind ≡ false) }
        ensures too_long { (x : Bucket) → bucket_at self.old id ≡ Some x → (result ≡ Err SplitRefusal.TooLong) ↔ ((is_data_kind x.kind ≡ true) × (length_of x.content < n)) }
        ensures spent { next_name self.old ≡ u64.MAX → IsErr result }
        ensures unspent { result ≡ Err SplitRefusal.NamesSpent → next_name self.old ≡ u64.MAX }
        ensures err { OnErr result ((m : ℕ) → lists self.new m ≡ lists self.old m) }
        ensures unasked { self.new.asked ≡ self.old.asked }
    {
        let (front, rest) = self.halves_at(id, n)?;
        self.room_for(rest.kind, rest.home)?;
        let new = self.put_behind(id, rest);
        let _whole = self.held.put(id, front);
        Ok(new)
    }

    /// Puts a copy of a bucket (`apr_bucket_copy`) at the tail of a brigade. Refused, nothing is changed.
    pub fn copy(&mut self, id: BucketId, b: BrigadeId) -> Result<BucketId, RingRefusal>
        requires there { is_some (brigade_of self.old id) ≡ true }
        requires brigade { is_some (lists self.old b) ≡ true }
        ensures ok { IfOk result (λ new. (m : ℕ) (x : Bucket) → bucket_at self.old id ≡ Some x → lists self.new m ≡ on b (put_tail (new, x)) (lists self.old) m) }
        ensures name { IfOk result (λ new. new.birth ≡ next_name self.old) }
        ensures next { next_name self.new ≡ (if is_ok result then next_name self.old + 1 else next_name self.old) }
        ensures names { NoneRevived (brigade_of self.old) (brigade_of self.new) (next_name self.old) }
        ensures pools { pool_of self.new ≡ pool_of self.old }
        ensures references { references self.new ≡ references self.old }
        ensures spent { next_name self.old ≡ u64.MAX → IsErr result }
        ensures unspent { result ≡ Err RingRefusal.NamesSpent → next_name self.old ≡ u64.MAX }
        ensures err { OnErr result ((m : ℕ) → lists self.new m ≡ lists self.old m) }
        ensures unasked { self.new.asked ≡ self.old.asked }
    {
        let copy = stored_copy(self.alloc, self.stored(id))?;
        self.room_for(copy.kind, copy.home)?;
        Ok(self.held.add_tail(b, copy))
    }
}
