//! Clearing and destroying pools.

ghost use Rattle.std.specs.Prelude.{◌≡◌, ◌≢◌, ◌≤◌, IsTrue, IfOk, OnOk, OnErr, reverse, length, vec_capacity, [], ◌∷◌};
ghost use Rattle.pool_tree.specs.Prelude.{is_live, cleared, destroyed, children, run_order, IsPoolMap, turns_under, pools_after, IsRoomFor, map_of};
ghost use Rattle.run_model.specs.declared.effect.ClearKind.TheVariants.{Destroy};

use super::{PoolId, PoolTree};
use crate::handed::{empty_pool, take_turn, take_turns};
use crate::links::remove_leaf;
use run_model::{CleanupKind, ClearKind};
use std::alloc::AllocError;

/// The memory that a clear of one pool takes.
#[derive(Drop)]
pub struct Room<T> {
    pub(crate) found: Vec<(PoolId, CleanupKind)>,
    pub(crate) ran: Vec<(PoolId, T)>,
}

#[tactic(auto, using(crate::proofs::Trees::tree_formed))]
impl<T: Drop> PoolTree<T> {
    /// An empty list with room for what a clear of a pool hands on, where these are the turns of the pools under it.
    fn room_for(
        &self,
        turns: &[(PoolId, CleanupKind)],
        pool: PoolId,
    ) -> Result<Vec<(PoolId, T)>, AllocError>
        requires live { IsTrue (is_live (map_of self.now) pool) }
        requires under { reverse turns.now ≡ turns_under (map_of self.now) pool }
        ensures empty { IfOk result (λ ran. ran.items ≡ []) }
        ensures room { IfOk result (λ ran. length (run_order (map_of self.now) pool) ≤ vec_capacity ran) }
    {
        let mut count = self.records.payload_count((pool, CleanupKind::Pre));
        count = count.saturating_add(self.records.payload_count((pool, CleanupKind::Plain)));
        for turn in turns {
            count = count.saturating_add(self.records.payload_count(*turn));
        }
        Vec::with_capacity(self.alloc, count)
    }

    /// The memory that a clear of a pool takes, as the tree stands.
    pub fn room_to_clear(&self, pool: PoolId) -> Result<Room<T>, AllocError>
        requires { IsTrue (is_live (map_of self.now) pool) }
        ensures { IfOk result (IsRoomFor (map_of self.now) pool) }
    {
        let found = self.turns_under(pool)?;
        let ran = self.room_for(found.as_slice(), pool)?;
        Ok(Room { found, ran })
    }

    /// Clears a pool in memory that was made ready for it. Answers what `clear` does.
    pub fn clear_in(&mut self, pool: PoolId, room: Room<T>) -> Vec<(PoolId, T)>
        requires live { IsTrue (is_live (map_of self.old) pool) }
        requires room { IsRoomFor (map_of self.old) pool room }
        ensures ran { result.items ≡ run_order (map_of self.old) pool }
        ensures ok { map_of self.new ≡ cleared pool (map_of self.old) }
        ensures formed { IsPoolMap (map_of self.new) }
        ensures unasked { self.new.asked ≡ self.old.asked }
    {
        let mut ran = room.ran;
        take_turn(&mut self.records, (pool, CleanupKind::Pre), &mut ran);
        take_turns(&mut self.records, room.found, &mut ran);
        empty_pool(&mut self.records, pool, &mut ran);
        ran
    }

    /// Clears a pool: all pools under it go, and its own payloads. Answers what they hand on, in the run order: the pool's own
    /// pre-payloads, last first, then each subpool, newest first, by the same order, then its own plain payloads, last first; each with its pool.
    /// Without memory nothing is changed.
    pub fn clear(&mut self, pool: PoolId) -> Result<Vec<(PoolId, T)>, AllocError>
        requires { IsTrue (is_live (map_of self.old) pool) }
        ensures ran { IfOk result (λ ran. ran.items ≡ run_order (map_of self.old) pool) }
        ensures ok { OnOk result (map_of self.new ≡ cleared pool (map_of self.old)) }
        ensures formed { IsPoolMap (map_of self.new) }
        ensures err { OnErr result (map_of self.new ≡ map_of self.old) }
        ensures unasked { self.new.asked ≡ self.old.asked }
    {
        let room = self.room_to_clear(pool)?;
        Ok(self.clear_in(pool, room))
    }

    /// Ends a pool that has no children.
    fn remove(&mut self, pool: PoolId)
        requires live { IsTrue (is_live (map_of self.old) pool) }
        requires childless { children (map_of self.old) pool ≡ [] }
        requires below { (map_of self.old).path pool ≢ pool ∷ [] }
        ensures ok { map_of self.new ≡ destroyed pool (map_of self.old) }
        ensures unasked { self.new.asked ≡ self.old.asked }
    {
        remove_leaf(&mut self.records, pool);
    }

    /// Destroys a pool other than the root, in memory that was made ready for a clear of it. Answers what `clear` does.
    #[tactic(auto, using(crate::proofs::Destroyed::still_live, crate::proofs::Destroyed::now_childless, crate::proofs::Destroyed::still_under))]
    pub fn destroy_in(&mut self, pool: PoolId, room: Room<T>) -> Vec<(PoolId, T)>
        requires live { IsTrue (is_live (map_of self.old) pool) }
        requires below { (map_of self.old).path pool ≢ pool ∷ [] }
        requires room { IsRoomFor (map_of self.old) pool room }
        ensures ran { result.items ≡ run_order (map_of self.old) pool }
        ensures ok { map_of self.new ≡ destroyed pool (map_of self.old) }
        ensures formed { IsPoolMap (map_of self.new) }
        ensures unasked { self.new.asked ≡ self.old.asked }
    {
        let ran = self.clear_in(pool, room);
        self.remove(pool);
        ran
    }

    /// Destroys a pool other than the root: clears it, and ends it too. Answers what a clear does.
    /// Without memory nothing is changed.
    pub fn destroy(&mut self, pool: PoolId) -> Result<Vec<(PoolId, T)>, AllocError>
        requires live { IsTrue (is_live (map_of self.old) pool) }
        requires below { (map_of self.old).path pool ≢ pool ∷ [] }
        ensures ran { IfOk result (λ ran. ran.items ≡ run_order (map_of self.old) pool) }
        ensures ok { OnOk result (map_of self.new ≡ destroyed pool (map_of self.old)) }
        ensures formed { IsPoolMap (map_of self.new) }
        ensures err { OnErr result (map_of self.new ≡ map_of self.old) }
        ensures unasked { self.new.asked ≡ self.old.asked }
    {
        let room = self.room_to_clear(pool)?;
        Ok(self.destroy_in(pool, room))
    }

    /// Clears a pool, or destroys one other than the root. Without memory nothing is changed.
    pub fn empty(&mut self, kind: ClearKind, pool: PoolId) -> Result<Vec<(PoolId, T)>, AllocError>
        requires live { IsTrue (is_live (map_of self.old) pool) }
        requires below { kind ≡ Destroy → (map_of self.old).path pool ≢ pool ∷ [] }
        ensures ran { IfOk result (λ ran. ran.items ≡ run_order (map_of self.old) pool) }
        ensures ok { OnOk result (map_of self.new ≡ pools_after kind pool (map_of self.old)) }
        ensures formed { IsPoolMap (map_of self.new) }
        ensures err { OnErr result (map_of self.new ≡ map_of self.old) }
        ensures unasked { self.new.asked ≡ self.old.asked }
    {
        match kind {
            ClearKind::Clear => self.clear(pool),
            ClearKind::Destroy => self.destroy(pool),
        }
    }
}
