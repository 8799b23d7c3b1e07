//! What buckets may live as long as.

ghost use Rattle.std.specs.Prelude.{◌≡◌};
ghost use Rattle.life_state.specs.States.{no_homes, only_call, home_in, homes_join, dead_where};
ghost use Rattle.life_state.specs.Order.{homes_leq};
ghost use Rattle.life_state.specs.Seen.{seen_pools, seen_homes};

use crate::parts::{HomeSet, PoolSet};
use crate::pools::implies;
use module_code::PoolRef;

impl HomeSet {
    /// Buckets that depend on nothing, or on the connection's pool.
    pub const NONE: HomeSet = HomeSet {
        call: false,
        dead: false,
        pools: PoolSet::NONE,
    };

    /// Buckets that depend on nothing, or on the connection's pool.
    pub(crate) fn none() -> HomeSet
        ensures { seen_homes result ≡ no_homes }
    {
        HomeSet::NONE
    }

    /// Whatever lives through the call.
    pub(crate) fn only_call() -> HomeSet
        ensures { seen_homes result ≡ only_call }
    {
        HomeSet {
            call: true,
            dead: false,
            pools: PoolSet::NONE,
        }
    }

    /// This pool, and those above it.
    pub(crate) fn in_pool(pool: PoolRef) -> HomeSet
        ensures { seen_homes result ≡ home_in pool }
    {
        HomeSet {
            call: false,
            dead: false,
            pools: PoolSet::of(pool),
        }
    }

    /// The homes of both.
    pub(crate) fn join(&self, other: &HomeSet) -> HomeSet
        ensures { seen_homes result ≡ homes_join (seen_homes self.now) (seen_homes other.now) }
    {
        HomeSet {
            call: self.call | other.call,
            dead: self.dead | other.dead,
            pools: self.pools.join(&other.pools),
        }
    }

    /// The homes where these pools are dead.
    pub(crate) fn dead_where(&self, gone: &PoolSet) -> HomeSet
        ensures { seen_homes result ≡ dead_where (seen_pools gone.now) (seen_homes self.now) }
    {
        HomeSet {
            call: self.call,
            dead: self.dead | gone.meets(&self.pools),
            pools: self.pools.without(gone),
        }
    }

    /// Whether all these homes are among the other ones.
    pub(crate) fn leq(&self, other: &HomeSet) -> bool
        ensures { result ≡ homes_leq (seen_homes self.now) (seen_homes other.now) }
    {
        implies(self.call, other.call)
            & implies(self.dead, other.dead)
            & self.pools.leq(&other.pools)
    }
}
