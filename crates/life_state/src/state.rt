//! A state: what is known of an instance and its call before an instruction.

ghost use Rattle.std.specs.Prelude.{◌≡◌, ◌<◌, slice_index_or, false};
ghost use Rattle.life_state.specs.States.{set_pool, set_brigade};
ghost use Rattle.life_state.specs.Seen.{seen, seen_homes, seen_brigade, seen_cursor};

use crate::parts::{BrigadeState, Contents, CursorState, HomeSet, PoolState};

/// What is known of an instance and its call. Pools are numbered 0 to 7, brigades 0 to 7 and `in` as 8, cursors 0 to 7 and the
/// read cursor as 8.
#[derive(Clone, Copy)]
pub struct State {
    pub(crate) pool_count: u8,
    pub(crate) brigade_count: u8,
    pub(crate) sent: bool,
    pub(crate) pools: [PoolState; 8],
    pub(crate) brigades: [BrigadeState; 9],
    pub(crate) cursors: [CursorState; 9],
    pub(crate) facts: [[bool; 9]; 9],
}

/// An item, or what stands in for one beyond the last.
#[inline]
fn item_or<T: Copy>(items: &[T], at: u8, other: T) -> T
    ensures { result ≡ slice_index_or items.now at other }
{
    let at = usize::from(at);
    if at < items.len() { items[at] } else { other }
}

#[tactic(auto, unfolding(crate::specs::Seen::seen, run_model::specs::Indexed::upd))]
impl State {
    /// How many pool variables are declared.
    pub fn pool_count(&self) -> u8
        ensures { result ≡ (seen self.now).pool_count }
    {
        self.pool_count
    }

    /// How many brigade variables are declared.
    pub fn brigade_count(&self) -> u8
        ensures { result ≡ (seen self.now).brigade_count }
    {
        self.brigade_count
    }

    /// Whether an EOS of this request may have been passed.
    pub fn sent(&self) -> bool
        ensures { result ≡ (seen self.now).sent }
    {
        self.sent
    }

    /// What a pool variable may be.
    pub fn pool(&self, q: u8) -> PoolState
        ensures { result ≡ (seen self.now).pools q }
    {
        item_or(&self.pools, q, PoolState::NULL)
    }

    /// What a brigade variable may be.
    pub fn brigade(&self, b: u8) -> BrigadeState
        ensures { seen_brigade result ≡ (seen self.now).brigades b }
    {
        item_or(&self.brigades, b, BrigadeState::UNMADE)
    }

    /// What may stand in a usable brigade.
    pub(crate) fn content(&self, b: u8) -> Contents
        ensures { result ≡ ((seen self.now).brigades b).content }
    {
        item_or(&self.brigades, b, BrigadeState::UNMADE).content
    }

    /// What the buckets of a usable brigade live as long as.
    pub(crate) fn homes(&self, b: u8) -> HomeSet
        ensures { seen_homes result ≡ ((seen self.now).brigades b).homes }
    {
        item_or(&self.brigades, b, BrigadeState::UNMADE).homes
    }

    /// What is known of a cursor.
    pub fn cursor(&self, c: u8) -> CursorState
        ensures { seen_cursor result ≡ (seen self.now).cursors c }
    {
        item_or(&self.cursors, c, CursorState::Unset)
    }

    /// Whether it is written that two cursors are at different buckets.
    pub fn fact(&self, c: u8, d: u8) -> bool
        ensures { result ≡ (seen self.now).facts c d }
    {
        let c = usize::from(c);
        if c < 9 {
            item_or(&self.facts[c], d, false)
        } else {
            false
        }
    }

    /// Says what a pool variable is.
    pub fn set_pool(&mut self, q: u8, pool: PoolState)
        requires { q < 8 }
        ensures { seen self.new ≡ set_pool q pool (seen self.old) }
    {
        self.pools[usize::from(q)] = pool;
    }

    /// Says what a brigade variable is.
    pub fn set_brigade(&mut self, b: u8, brigade: BrigadeState)
        requires { b < 9 }
        ensures { seen self.new ≡ set_brigade b (seen_brigade brigade) (seen self.old) }
    {
        self.brigades[usize::from(b)] = brigade;
    }
}
