//! The tree of pools.

ghost use Rattle.std.specs.Prelude.{◌≡◌, ℕ, ◌<◌, ◌≤◌, length, slice_index_or, remove, is_some, IsTrue, ◌↔◌, [], ◌∷◌, IfOk, OnOk, OnErr, IfErr, IsErrOf};
ghost use Rattle.pool_tree.specs.Links.{RecordsLinked};
ghost use Rattle.pool_tree.specs.Records.{record_of};

mod clear;
mod print;
mod walk;

use crate::links::add_child;
use crate::payloads::{push, take_at, take_newest_equal};
use crate::records::{Pool, Records};
use crate::refusal::PoolError;
pub use clear::Room;
use run_model::CleanupKind;
use std::alloc::{AllocError, Global};

/// The name of a pool.
pub type PoolId = u64;

/// Pools, each but the root a child of a pool.
#[derive(Drop)]
pub struct PoolTree<T> {
    alloc: Global,
    root: u64,
    next: u64,
    records: Records<T>,
    asked: u64,
    ghost linked: { RecordsLinked root next (record_of records) },
}

#[tactic(auto, using(crate::proofs::Trees::tree_formed, crate::proofs::Trees::tree_next))]
impl<T: Drop> PoolTree<T> {
    ghost use Rattle.run_model.specs.Pools.{planted, created, registered, registered_as, pre_registered, with_plain, is_live, is_under};
    ghost use Rattle.run_model.specs.Indexed.{upd};
    ghost use Rattle.run_model.specs.RunOrder.{last_that, killed, IsPoolMap};
    ghost use Rattle.pool_tree.specs.Tree.{map_of, once_more};

    /// A tree of the root pool `first`, which must not be `u64::MAX`: `NamesSpent`. `NoMemory`: there is none for the root.
    pub fn new(alloc: Global, first: PoolId) -> Result<Self, PoolError>
        ensures ok { IfOk result (λ tree. map_of tree ≡ planted first) }
        ensures formed { IfOk result (λ tree. IsPoolMap (map_of tree)) }
        ensures asked { IfOk result (λ tree. tree.asked ≡ 0) }
        ensures spent { IsErrOf result PoolError.NamesSpent ↔ (first ≡ u64.MAX) }
    {
        if first == u64::MAX {
            return Err(PoolError::NamesSpent);
        }
        let mut records = Records::new(alloc);
        let pool = Pool {
            parent: None,
            newest: None,
            older: None,
            younger: None,
            pre: Vec::new(alloc),
            plain: Vec::new(alloc),
        };
        records.put(first, pool)?;
        Ok(PoolTree {
            alloc,
            root: first,
            next: first + 1,
            records,
            asked: 0,
        })
    }

    /// The root pool.
    pub fn root(&self) -> PoolId
        ensures top { (map_of self.now).path result ≡ result ∷ [] }
        ensures alone { (n : ℕ) → (map_of self.now).path n ≡ n ∷ [] → n ≡ result }
        ensures live { IsTrue (is_live (map_of self.now) result) }
    {
        self.root
    }

    /// Makes a pool under another. Its name is the next, which must not be `u64::MAX`: `NamesSpent`.
    /// Refused, nothing is changed.
    pub fn create(&mut self, parent: PoolId) -> Result<PoolId, PoolError>
        requires { IsTrue (is_live (map_of self.old) parent) }
        ensures ok { OnOk result (map_of self.new ≡ created parent (map_of self.old)) }
        ensures name { IfOk result (λ name. name ≡ (map_of self.old).next) }
        ensures formed { IsPoolMap (map_of self.new) }
        ensures spent { IsErrOf result PoolError.NamesSpent ↔ ((map_of self.old).next ≡ u64.MAX) }
        ensures err { OnErr result (map_of self.new ≡ map_of self.old) }
        ensures unasked { self.new.asked ≡ self.old.asked }
    {
        let name = self.next;
        if name == u64::MAX {
            return Err(PoolError::NamesSpent);
        }
        add_child(&mut self.records, self.alloc, name, parent)?;
        self.next = name + 1;
        Ok(name)
    }

    /// The name that the next pool would get.
    pub fn next_name(&self) -> PoolId
        ensures { result ≡ (map_of self.now).next }
    {
        self.next
    }

    /// Sets the name that the next pool gets to this or a later one: those between were given by others.
    pub fn set_next(&mut self, next: PoolId)
        requires { (map_of self.old).next ≤ next }
        ensures out { map_of self.new ≡ record (map_of self.old) { next = next } }
        ensures formed { IsPoolMap (map_of self.new) }
        ensures unasked { self.new.asked ≡ self.old.asked }
    {
        self.next = next;
    }

    /// Registers a payload with a pool, as its newest of a kind. Without memory nothing is changed, and the payload comes back.
    pub fn register_as(
        &mut self,
        kind: CleanupKind,
        pool: PoolId,
        payload: T,
    ) -> Result<(), (AllocError, T)>
        requires { IsTrue (is_live (map_of self.old) pool) }
        ensures ok { OnOk result (map_of self.new ≡ registered_as kind pool payload (map_of self.old)) }
        ensures formed { IsPoolMap (map_of self.new) }
        ensures err { OnErr result (map_of self.new ≡ map_of self.old) }
        ensures back { IfErr result (λ refused. refused.1 ≡ payload) }
        ensures unasked { self.new.asked ≡ self.old.asked }
    {
        match push(&mut self.records, kind, pool, payload) {
            Ok(()) => Ok(()),
            Err(failed) => Err((AllocError, failed.value)),
        }
    }

    /// Registers a payload that is handed on after what the pools under this one hand on.
    pub fn register(&mut self, pool: PoolId, payload: T) -> Result<(), (AllocError, T)>
        requires { IsTrue (is_live (map_of self.old) pool) }
        ensures ok { OnOk result (map_of self.new ≡ registered pool payload (map_of self.old)) }
        ensures formed { IsPoolMap (map_of self.new) }
        ensures err { OnErr result (map_of self.new ≡ map_of self.old) }
        ensures back { IfErr result (λ refused. refused.1 ≡ payload) }
        ensures unasked { self.new.asked ≡ self.old.asked }
    {
        self.register_as(CleanupKind::Plain, pool, payload)
    }

    /// Registers a payload that is handed on before what the pools under this one hand on.
    pub fn register_pre(&mut self, pool: PoolId, payload: T) -> Result<(), (AllocError, T)>
        requires { IsTrue (is_live (map_of self.old) pool) }
        ensures ok { OnOk result (map_of self.new ≡ pre_registered pool payload (map_of self.old)) }
        ensures formed { IsPoolMap (map_of self.new) }
        ensures err { OnErr result (map_of self.new ≡ map_of self.old) }
        ensures back { IfErr result (λ refused. refused.1 ≡ payload) }
        ensures unasked { self.new.asked ≡ self.old.asked }
    {
        self.register_as(CleanupKind::Pre, pool, payload)
    }

    /// Takes out the newest plain payload of a pool that equals this one; `None` where none does, and nothing is changed.
    pub fn kill(&mut self, pool: PoolId, payload: &T) -> Option<T>
    where
        T: PartialEq,
        requires { IsTrue (is_live (map_of self.old) pool) }
        ensures taken { result ≡ last_that (λ other. T.eq other payload.now) ((map_of self.old).payloads pool).plain }
        ensures rest { map_of self.new ≡ killed pool (λ other. T.eq other payload.now) (map_of self.old) }
        ensures formed { IsPoolMap (map_of self.new) }
        ensures unasked { self.new.asked ≡ self.old.asked }
    {
        take_newest_equal(&mut self.records, pool, payload)
    }

    /// The plain payloads of a pool, the oldest first.
    #[tactic(auto, using(crate::proofs::Trees::tree_payloads))]
    pub fn payloads(&self, pool: PoolId) -> &[T]
        ensures { result.now ≡ ((map_of self.now).payloads pool).plain }
    {
        self.records.payloads(CleanupKind::Plain, pool)
    }

    /// Takes out the plain payload of a pool that has an index among those.
    pub fn take_out(&mut self, pool: PoolId, index: usize) -> T
        requires live { IsTrue (is_live (map_of self.old) pool) }
        requires within { index < length ((map_of self.old).payloads pool).plain }
        ensures taken { result ≡ slice_index_or ((map_of self.old).payloads pool).plain index result }
        ensures rest { map_of self.new ≡ record (map_of self.old) { payloads = upd (map_of self.old).payloads pool (with_plain (λ items. remove items index) ((map_of self.old).payloads pool)) } }
        ensures formed { IsPoolMap (map_of self.new) }
        ensures unasked { self.new.asked ≡ self.old.asked }
    {
        take_at(&mut self.records, pool, index)
    }

    /// Whether there is a pool of this name. It is counted that this was asked.
    #[tactic(auto, unfolding(crate::specs::Tree::map_of, crate::specs::Links::map_at, crate::specs::Links::path_within, run_model::specs::Pools::is_live))]
    pub fn is_live(&mut self, pool: PoolId) -> bool
        ensures value { result ≡ is_live (map_of self.old) pool }
        ensures live { result ≡ is_live (map_of self.new) pool }
        ensures counted { self.new ≡ record self.old { asked = once_more self.old.asked } }
    {
        self.asked = self.asked.saturating_add(1);
        self.records.get(pool).is_some()
    }

    /// How often it was asked whether there is a pool of a name. At `u64::MAX` it stays.
    pub fn asked(&self) -> u64
        ensures { result ≡ self.now.asked }
    {
        self.asked
    }

    /// Whether a name is that of a pool or of one above it. It walks up from the pool, so the name may be that of a pool that is gone.
    pub fn is_ancestor(&self, ancestor: PoolId, pool: PoolId) -> bool
        requires { IsTrue (is_live (map_of self.now) pool) }
        ensures { result ≡ is_under (map_of self.now) ancestor pool }
    {
        let mut current = pool;
        while current > ancestor {
            match self.records.parent(current) {
                Some(parent) => current = parent,
                None => return false,
            }
        }
        current == ancestor
    }
}
