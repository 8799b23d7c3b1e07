//! The pools that a clear reaches.

ghost use Rattle.std.specs.Prelude.{◌≡◌, ℕ, true, IsTrue, IfOk};
ghost use Rattle.std.specs.List.Sorted.{IsNonDecreasing};
ghost use Rattle.run_model.specs.Buckets.{to_heap, end_pools};
ghost use Rattle.run_model.specs.Pools.{is_live, is_under, is_in};
ghost use Rattle.pool_tree.specs.Tree.{map_of};

use pool_tree::{PoolId, PoolTree};
use run_model::{Home, Kind, Payload};
use std::alloc::AllocError;

/// A pool and the pools under it, which a clear of it reaches.
#[derive(Drop)]
pub(crate) struct Reached {
    pub(crate) pool: PoolId,
    // Those under it, in the order of their names.
    pub(crate) under: Vec<PoolId>,
    ghost rising: { IsNonDecreasing under.items },
}

impl Reached {
    ghost use Rattle.brigade_ops.specs.Due.{is_reached};

    /// Those that a clear of a pool reaches.
    pub(crate) fn new(tree: &PoolTree<Payload>, pool: PoolId) -> Result<Self, AllocError>
        requires { IsTrue (is_live (map_of tree.now) pool) }
        ensures { IfOk result (λ reached. (p : ℕ) → is_reached reached p ≡ is_under (map_of tree.now) pool p) }
    {
        let mut under = tree.pools_under(pool)?;
        under.sort_unstable();
        Ok(Reached { pool, under })
    }

    /// Whether a pool is one of those under it.
    fn has_under(&self, name: PoolId) -> bool
        ensures { result ≡ is_in name self.now.under.items }
    {
        self.under.binary_search(&name).is_ok()
    }

    /// Whether a pool is one of them.
    pub(crate) fn has(&self, name: PoolId) -> bool
        ensures { result ≡ is_reached self.now name }
    {
        self.pool == name || self.has_under(name)
    }

    /// The home that a bucket has after the clear.
    pub(crate) fn home_after(&self, home: Home) -> Home
        ensures { result ≡ end_pools (is_reached self.now) home }
    {
        match home {
            Home::Pool(name) if self.has(name) => Home::Ended,
            other => other,
        }
    }

    /// The kind that a bucket has after the clear.
    pub(crate) fn kind_after(&self, kind: Kind) -> Kind
        ensures { result ≡ to_heap (is_reached self.now) kind }
    {
        match kind {
            Kind::Pool(name) if self.has(name) => Kind::Heap,
            other => other,
        }
    }
}
