//! Room for new buckets and their names, made before anything that is seen changes.

ghost use Rattle.std.specs.Prelude.{◌≡◌, ◌↔◌, ℕ, ◌<◌, true, IfOk, IfErr, OnOk};
ghost use Rattle.brigade_ops.specs.Prelude.{BucketId, is_whole, shown, look, lies_right};

use crate::store::Brigades;
use bucket_kinds::Stored;
use bucket_ring::{RingRefusal, Rings};
use run_model::{Bucket, Home, Kind};

#[tactic(auto, unfolding(bucket_store::specs::BucketStore::seen, crate::specs::Store::lists, crate::specs::Store::brigade_of, crate::specs::Store::pool_of, crate::specs::Store::next_name, crate::specs::Store::references, crate::specs::Store::has_room))]
impl<R: Rings<Stored> + Drop> Brigades<R> {
    ghost use Rattle.brigade_ops.specs.Store.{lists, brigade_of, pool_of, next_name, references, has_room};

    /// Sees that a name is left for a new bucket, and makes room for that name under the pool that its kind and home depend on, and for the
    /// bucket itself. Nothing that is seen of the store changes, also where it is refused.
    #[inline(always)]
    pub(crate) fn room_for(&mut self, kind: Kind, home: Home) -> Result<(), RingRefusal>
        ensures room { OnOk result (has_room self.new) }
        ensures unspent { OnOk result (next_name self.new < u64.MAX) }
        ensures spent { (result ≡ Err RingRefusal.NamesSpent) ↔ (next_name self.old ≡ u64.MAX) }
        ensures lists { (n : ℕ) → lists self.new n ≡ lists self.old n }
        ensures brigades { (id : BucketId) → brigade_of self.new id ≡ brigade_of self.old id }
        ensures regions { self.new.held.regions ≡ self.old.held.regions }
        ensures next { next_name self.new ≡ next_name self.old }
        ensures pools { pool_of self.new ≡ pool_of self.old }
        ensures references { references self.new ≡ references self.old }
        ensures unasked { self.new.asked ≡ self.old.asked }
    {
        let next = self.held.next_name();
        self.held.rings.dependents.make_room_for(next, kind, home)?;
        self.held.make_room()?;
        Ok(())
    }

    /// As `room_for`, and places the bytes of the new bucket where it is a POOL bucket. Refused, the bucket comes back.
    #[inline(always)]
    pub(crate) fn hold(&mut self, bucket: Bucket) -> Result<Stored, (RingRefusal, Bucket)>
        ensures shown { IfOk result (λ x. shown (look self.new.held.regions) x ≡ bucket) }
        ensures whole { IfOk result (λ x. is_whole (look self.new.held.regions) x.kept ≡ true) }
        ensures lies { IfOk result (λ x. lies_right x.kind x.kept ≡ true) }
        ensures room { OnOk result (R.has_room self.new.held.rings.rings) }
        ensures unspent { OnOk result (next_name self.new < u64.MAX) }
        ensures spent { next_name self.old ≡ u64.MAX → result ≡ Err (RingRefusal.NamesSpent, bucket) }
        ensures told { IfErr result (λ why. why.0 ≡ RingRefusal.NamesSpent → next_name self.old ≡ u64.MAX) }
        ensures back { IfErr result (λ why. why.1 ≡ bucket) }
        ensures lists { (n : ℕ) → lists self.new n ≡ lists self.old n }
        ensures brigades { (id : BucketId) → brigade_of self.new id ≡ brigade_of self.old id }
        ensures next { next_name self.new ≡ next_name self.old }
        ensures pools { pool_of self.new ≡ pool_of self.old }
        ensures references { references self.new ≡ references self.old }
        ensures unasked { self.new.asked ≡ self.old.asked }
    {
        let next = self.held.next_name();
        let dependents = &mut self.held.rings.dependents;
        if let Err(why) = dependents.make_room_for(next, bucket.kind, bucket.home) {
            return Err((why, bucket));
        }
        match self.held.take(bucket) {
            Ok(stored) => Ok(stored),
            Err(bucket) => Err((RingRefusal::NoMemory, bucket)),
        }
    }
}
