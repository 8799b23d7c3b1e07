//! The pools under a pool.

ghost use Rattle.std.specs.Prelude.{◌≡◌, ◌≤◌, IsTrue, IfOk, OnOk, IfSome, [], ◌++◌, reverse, length, vec_capacity, sum_by, map};
ghost use Rattle.run_model.specs.Pools.{is_live};
ghost use Rattle.run_model.specs.RunOrder.{children, run_order, order_under, turns_under};
ghost use Rattle.run_model.specs.declared.effect.CleanupKind.TheVariants.{Plain, Pre};
ghost use Rattle.pool_tree.specs.Handed.{before_turn};
ghost use Rattle.pool_tree.specs.Tree.{map_of};

use super::{PoolId, PoolTree};
use run_model::CleanupKind;
use std::alloc::AllocError;

impl<T: Drop> PoolTree<T> {
    /// Adds the children of a pool to a list, the newest first.
    fn push_children(&self, names: &mut Vec<PoolId>, pool: PoolId) -> Result<(), AllocError>
        ensures { OnOk result (names.new.items ≡ names.old.items ++ children (map_of self.now) pool) }
    {
        let mut child = self.records.newest(pool);
        while let Some(name) = child {
            names.push(name)?;
            child = self.records.older(name);
        }
        Ok(())
    }

    /// Adds the last turns of the children of a pool to a list, the newest child first.
    fn push_behind(
        &self,
        turns: &mut Vec<(PoolId, CleanupKind)>,
        pool: PoolId,
    ) -> Result<(), AllocError>
        ensures { OnOk result (turns.new.items ≡ turns.old.items ++ map (λ c. (c, Plain)) (children (map_of self.now) pool)) }
    {
        let mut child = self.records.newest(pool);
        while let Some(name) = child {
            turns.push((name, CleanupKind::Plain))?;
            child = self.records.older(name);
        }
        Ok(())
    }

    /// Adds what stands before a turn, back to the end of a list: before the last turn of a pool its first, and the turns of the pools under it.
    fn push_before(
        &self,
        turns: &mut Vec<(PoolId, CleanupKind)>,
        turn: (PoolId, CleanupKind),
    ) -> Result<(), AllocError>
        ensures { OnOk result (turns.new.items ≡ turns.old.items ++ before_turn (map_of self.now) turn) }
    {
        match turn.1 {
            CleanupKind::Pre => Ok(()),
            CleanupKind::Plain => {
                turns.push((turn.0, CleanupKind::Pre))?;
                self.push_behind(turns, turn.0)
            }
        }
    }

    /// The turns of the pools under a pool, without its own: read from the last on, in the order in which a clear of it hands on. It looks at no other pool.
    pub fn turns_under(&self, pool: PoolId) -> Result<Vec<(PoolId, CleanupKind)>, AllocError>
        ensures { IfOk result (λ found. reverse found.items ≡ turns_under (map_of self.now) pool) }
    {
        let mut found = Vec::new(self.alloc);
        let mut waiting = Vec::new(self.alloc);
        self.push_behind(&mut waiting, pool)?;
        while let Some(turn) = waiting.pop() {
            found.push(turn)?;
            self.push_before(&mut waiting, turn)?;
        }
        Ok(found)
    }

    /// The pools under a pool that is there, without itself: read from the last on, in the order in which a clear of it hands them on. It looks at no other pool.
    pub fn pools_under(&self, pool: PoolId) -> Result<Vec<PoolId>, AllocError>
        requires { IsTrue (is_live (map_of self.now) pool) }
        ensures { IfOk result (λ found. reverse found.items ≡ order_under (map_of self.now) pool) }
    {
        let mut found = Vec::new(self.alloc);
        let mut waiting = Vec::new(self.alloc);
        self.push_children(&mut waiting, pool)?;
        while let Some(next) = waiting.pop() {
            found.push(next)?;
            self.push_children(&mut waiting, next)?;
        }
        Ok(found)
    }
}
