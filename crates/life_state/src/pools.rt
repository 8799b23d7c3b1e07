//! Sets of pools.

ghost use Rattle.std.specs.Prelude.{◌≡◌, ◌||◌, ◌&&◌, not, slice_index_or, false};
ghost use Rattle.life_state.specs.States.{is_home, any_place};
ghost use Rattle.life_state.specs.Order.{implies, places_leq};
ghost use Rattle.life_state.specs.Seen.{seen_pools};

use crate::parts::PoolSet;
use module_code::PoolRef;

/// Whether the second holds where the first does.
pub(crate) fn implies(first: bool, second: bool) -> bool
    ensures { result ≡ implies first second }
{
    !first | second
}

impl PoolSet {
    /// No pool.
    pub const NONE: PoolSet = PoolSet {
        req: false,
        own: [false; 8],
    };

    /// Whether it has a pool; it never has the connection's.
    pub fn has(&self, pool: PoolRef) -> bool
        ensures { result ≡ seen_pools self.now pool }
    {
        match pool {
            PoolRef::Conn => false,
            PoolRef::Req => self.req,
            PoolRef::Own(q) => {
                let q = usize::from(q);
                q < 8 && self.own[q]
            }
        }
    }

    /// This pool, and none where it is the connection's.
    pub(crate) fn of(pool: PoolRef) -> PoolSet
        ensures { seen_pools result ≡ is_home pool }
    {
        match pool {
            PoolRef::Conn => PoolSet::NONE,
            PoolRef::Req => PoolSet {
                req: true,
                ..PoolSet::NONE
            },
            PoolRef::Own(q) => {
                let q = usize::from(q);
                let mut own = [false; 8];
                if q < 8 {
                    own[q] = true;
                }
                PoolSet { req: false, own }
            }
        }
    }

    /// The pools of both.
    pub(crate) fn join(&self, other: &PoolSet) -> PoolSet
        ensures { seen_pools result ≡ (λ k. seen_pools self.now k || seen_pools other.now k) }
    {
        let mut own = [false; 8];
        for q in 0..8 {
            own[q] = self.own[q] | other.own[q];
        }
        PoolSet {
            req: self.req | other.req,
            own,
        }
    }

    /// The pools that another set does not have.
    pub(crate) fn without(&self, other: &PoolSet) -> PoolSet
        ensures { seen_pools result ≡ (λ k. seen_pools self.now k && not (seen_pools other.now k)) }
    {
        let mut own = [false; 8];
        for q in 0..8 {
            own[q] = self.own[q] & !other.own[q];
        }
        PoolSet {
            req: self.req & !other.req,
            own,
        }
    }

    /// Whether it has a pool of another set.
    pub(crate) fn meets(&self, other: &PoolSet) -> bool
        ensures { result ≡ any_place (λ k. seen_pools self.now k && seen_pools other.now k) }
    {
        for q in 0..8 {
            if self.own[q] & other.own[q] {
                return true;
            }
        }
        self.req & other.req
    }

    /// Whether another set has all its pools.
    pub(crate) fn leq(&self, other: &PoolSet) -> bool
        ensures { result ≡ places_leq (seen_pools self.now) (seen_pools other.now) }
    {
        for q in 0..8 {
            if self.own[q] & !other.own[q] {
                return false;
            }
        }
        implies(self.req, other.req)
    }
}
