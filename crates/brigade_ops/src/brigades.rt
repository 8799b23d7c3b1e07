//! Brigades of the store: made, ended, cleaned and joined.

ghost use Rattle.std.specs.Prelude.{◌≡◌, ◌≢◌, ◌↔◌, ℕ, ◌+◌, ◌<◌, ◌≤◌, ◌++◌, [], map, length, Some, None, true, is_some, is_ok, if◌then◌else◌, IsTrue, IsOk, IfOk, OnOk, OnErr, IsErrOf};
ghost use Rattle.std.specs.List.{list_all};
ghost use Rattle.brigade_ops.specs.Prelude.{Pools, is_live, registered, IsPoolMap, map_of, once_more, BucketId, upd, on, list_at, by_birth, numbered, Items, IsHouse, NoneRevived, is_own, own_bucket};

use crate::store::{BrigadeId, Brigades};
use bucket_kinds::Stored;
use bucket_ring::{RingRefusal, Rings};
use pool_tree::{PoolId, PoolTree};
use run_model::Payload;
use std::alloc::AllocError;

#[tactic(auto, unfolding(crate::specs::Store::lists, crate::specs::Store::brigade_of, crate::specs::Store::pool_of, crate::specs::Store::next_name, crate::specs::Store::references, crate::specs::Store::has_room), using(pool_tree::proofs::Trees::tree_formed))]
impl<R: Rings<Stored> + Drop> Brigades<R> {
    ghost use Rattle.brigade_ops.specs.Store.{lists, brigade_of, bucket_at, pool_of, next_name, references, has_room};

    /// Whether there is such a brigade. It is counted that this was asked.
    pub fn has(&mut self, b: BrigadeId) -> bool
        ensures value { result ≡ is_some (lists self.old b) }
        ensures there { result ≡ is_some (lists self.new b) }
        ensures counted { self.new ≡ record self.old { asked = once_more self.old.asked } }
    {
        self.asked = self.asked.saturating_add(1);
        self.held.has_ring(b)
    }

    /// Makes an empty brigade on a pool (`apr_brigade_create`), which it ends with: it is registered there. `NamesSpent`: the next
    /// name is `u64::MAX`. Refused, nothing is changed.
    pub fn create(
        &mut self,
        tree: &mut PoolTree<Payload>,
        pool: PoolId,
    ) -> Result<BrigadeId, RingRefusal>
        requires { IsTrue (is_live (map_of tree.old) pool) }
        ensures ok { IfOk result (λ b. (n : ℕ) → lists self.new n ≡ upd (lists self.old) b (Some []) n) }
        ensures on { IfOk result (λ b. (n : ℕ) → pool_of self.new n ≡ upd (pool_of self.old) b (Some pool) n) }
        ensures name { IfOk result (λ b. b ≡ next_name self.old) }
        ensures next { next_name self.new ≡ (if is_ok result then next_name self.old + 1 else next_name self.old) }
        ensures names { NoneRevived (brigade_of self.old) (brigade_of self.new) (next_name self.old) }
        ensures registered { IfOk result (λ b. map_of tree.new ≡ registered pool (Payload.Brigade b) (map_of tree.old)) }
        ensures formed { IsPoolMap (map_of tree.new) }
        ensures spent { IsErrOf result RingRefusal.NamesSpent ↔ (next_name self.old ≡ u64.MAX) }
        ensures err { OnErr result ((n : ℕ) → lists self.new n ≡ lists self.old n) }
        ensures references { references self.new ≡ references self.old }
        ensures off { OnErr result ((n : ℕ) → pool_of self.new n ≡ pool_of self.old n) }
        ensures kept { OnErr result (map_of tree.new ≡ map_of tree.old) }
        ensures house { IsHouse self.old (map_of tree.old) → IsHouse self.new (map_of tree.new) }
        ensures unasked { self.new.asked ≡ self.old.asked }
        ensures tree_unasked { tree.new.asked ≡ tree.old.asked }
    {
        let name = self.held.next_name();
        if name == u64::MAX {
            return Err(RingRefusal::NamesSpent);
        }
        self.pools.reserve(1)?;
        let Ok(()) = tree.register(pool, Payload::Brigade(name)) else {
            return Err(RingRefusal::NoMemory);
        };
        match self.held.new_ring() {
            Ok(b) => {
                self.pools.put(b, pool);
                Ok(b)
            }
            Err(why) => {
                let _killed = tree.kill(pool, &Payload::Brigade(name));
                Err(why)
            }
        }
    }

    /// Makes room for one more brigade or bucket. Nothing that is seen of the store changes, also where it is refused.
    pub fn make_room(&mut self) -> Result<(), AllocError>
        ensures room { OnOk result (has_room self.new) }
        ensures same { (n : ℕ) → lists self.new n ≡ lists self.old n }
        ensures places { (id : BucketId) → brigade_of self.new id ≡ brigade_of self.old id }
        ensures next { next_name self.new ≡ next_name self.old }
        ensures pools { pool_of self.new ≡ pool_of self.old }
        ensures references { references self.new ≡ references self.old }
        ensures unasked { self.new.asked ≡ self.old.asked }
    {
        self.held.make_room()
    }

    /// Makes an empty brigade on no pool; otherwise as `create`. Where `make_room` made room, it is not refused for memory.
    pub fn loose(&mut self) -> Result<BrigadeId, RingRefusal>
        ensures ok { IfOk result (λ b. (n : ℕ) → lists self.new n ≡ upd (lists self.old) b (Some []) n) }
        ensures name { IfOk result (λ b. b ≡ next_name self.old) }
        ensures next { next_name self.new ≡ (if is_ok result then next_name self.old + 1 else next_name self.old) }
        ensures names { NoneRevived (brigade_of self.old) (brigade_of self.new) (next_name self.old) }
        ensures pools { pool_of self.new ≡ pool_of self.old }
        ensures references { references self.new ≡ references self.old }
        ensures spent { IsErrOf result RingRefusal.NamesSpent ↔ (next_name self.old ≡ u64.MAX) }
        ensures sure { has_room self.old → next_name self.old < u64.MAX → IsOk result }
        ensures err { OnErr result ((n : ℕ) → lists self.new n ≡ lists self.old n) }
        ensures unasked { self.new.asked ≡ self.old.asked }
    {
        self.held.new_ring()
    }

    /// Makes two brigades on no pool, the first empty, the second with new buckets in this order, each with a content of its own: all, or
    /// none. The bytes of a POOL bucket are placed in the region of its pool. The brigades have the next two names, the buckets those after
    /// them. `NamesSpent`: so many names are not left. Refused, nothing is changed, and no name is spent.
    pub fn loose_pair(
        &mut self,
        buckets: Vec<Stored>,
    ) -> Result<(BrigadeId, BrigadeId), RingRefusal>
        requires { list_all is_own buckets.items ≡ true }
        ensures ok { OnOk result ((xs : Items) × (by_birth xs ≡ numbered (next_name self.old + 2) (map own_bucket buckets.items))
            × ((n : ℕ) → lists self.new n ≡ upd (upd (lists self.old) (next_name self.old) (Some [])) (next_name self.old + 1) (Some xs) n)) }
        ensures name { IfOk result (λ pair. pair ≡ (next_name self.old, next_name self.old + 1)) }
        ensures next { next_name self.new ≡ (if is_ok result then next_name self.old + 2 + length buckets.items else next_name self.old) }
        ensures names { NoneRevived (brigade_of self.old) (brigade_of self.new) (next_name self.old) }
        ensures pools { pool_of self.new ≡ pool_of self.old }
        ensures references { references self.new ≡ references self.old }
        ensures spent { (result ≡ Err RingRefusal.NamesSpent) ↔ (u64.MAX < next_name self.old + 2 + length buckets.items) }
        ensures err { OnErr result ((n : ℕ) → lists self.new n ≡ lists self.old n) }
        ensures unasked { self.new.asked ≡ self.old.asked }
    {
        self.held.new_pair(buckets)
    }

    /// Ends a brigade that is on no pool, with its buckets.
    pub fn end_loose(&mut self, b: BrigadeId)
        requires there { is_some (lists self.old b) ≡ true }
        requires loose { pool_of self.old b ≡ None }
        ensures out { (n : ℕ) → lists self.new n ≡ upd (lists self.old) b None n }
        ensures next { next_name self.new ≡ next_name self.old }
        ensures names { NoneRevived (brigade_of self.old) (brigade_of self.new) (next_name self.old) }
        ensures pools { pool_of self.new ≡ pool_of self.old }
        ensures references { references self.new ≡ references self.old }
        ensures unasked { self.new.asked ≡ self.old.asked }
    {
        self.held.end_ring(b);
    }

    /// Destroys the buckets of a brigade, which stays (`apr_brigade_cleanup`).
    pub fn clean(&mut self, b: BrigadeId)
        requires { is_some (lists self.old b) ≡ true }
        ensures out { (n : ℕ) → lists self.new n ≡ on b (λ xs. []) (lists self.old) n }
        ensures next { next_name self.new ≡ next_name self.old }
        ensures names { NoneRevived (brigade_of self.old) (brigade_of self.new) (next_name self.old) }
        ensures pools { pool_of self.new ≡ pool_of self.old }
        ensures references { references self.new ≡ references self.old }
        ensures unasked { self.new.asked ≡ self.old.asked }
    {
        self.held.drop_all(b);
    }

    /// Moves all buckets of `b` to the tail of `a` (`APR_BRIGADE_CONCAT`). It takes no memory.
    pub fn concat(&mut self, a: BrigadeId, b: BrigadeId)
        requires onto { is_some (lists self.old a) ≡ true }
        requires from { is_some (lists self.old b) ≡ true }
        requires apart { a ≢ b }
        ensures out { (n : ℕ) → lists self.new n ≡ on a (λ xs. xs ++ list_at (lists self.old) b) (on b (λ xs. []) (lists self.old)) n }
        ensures next { next_name self.new ≡ next_name self.old }
        ensures names { NoneRevived (brigade_of self.old) (brigade_of self.new) (next_name self.old) }
        ensures pools { pool_of self.new ≡ pool_of self.old }
        ensures references { references self.new ≡ references self.old }
        ensures unasked { self.new.asked ≡ self.old.asked }
    {
        self.held.splice_tail(a, b);
    }

    /// Sets the name that the next brigade or bucket gets to this or a later one: those between were given by others.
    pub fn set_next(&mut self, next: u64)
        requires { next_name self.old ≤ next }
        ensures next { next_name self.new ≡ next }
        ensures lists { (b : ℕ) → lists self.new b ≡ lists self.old b }
        ensures places { (id : BucketId) → brigade_of self.new id ≡ brigade_of self.old id }
        ensures buckets { (id : BucketId) → bucket_at self.new id ≡ bucket_at self.old id }
        ensures pools { pool_of self.new ≡ pool_of self.old }
        ensures references { references self.new ≡ references self.old }
        ensures house { (ps : Pools Payload) → IsHouse self.old ps → IsHouse self.new ps }
        ensures unasked { self.new.asked ≡ self.old.asked }
    {
        self.held.set_next(next);
    }
}
