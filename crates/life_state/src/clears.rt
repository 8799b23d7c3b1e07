//! Pools that go, with what lies under them.

ghost use Rattle.std.specs.Prelude.{◌≡◌, ◌≤◌, length, true};
ghost use Rattle.module_code.specs.declared.instr.PoolRef.TheVariants as pool;
ghost use Rattle.life_state.specs.Prelude.{pool_of_brigade, is_same_place, parent_of, is_under, is_clearable, cleared_pool, cleared_brigade, cleared_cursors, cleared, seen, seen_pools};
ghost use Rattle.life_state.specs.Prelude.{seen_brigade, seen_cursor};

use crate::facts::Keep;
use crate::parts::{BrigadeState, CursorState, PoolSet, PoolState};
use crate::state::State;
use module_code::{Module, PoolRef};

fn is_same_place(a: PoolRef, b: PoolRef) -> bool
    ensures { result ≡ is_same_place a b }
{
    match (a, b) {
        (PoolRef::Conn, PoolRef::Conn) | (PoolRef::Req, PoolRef::Req) => true,
        (PoolRef::Own(i), PoolRef::Own(j)) => i == j,
        _ => false,
    }
}

#[tactic(auto, unfolding(module_code::specs::Program::pool_of_pool))]
fn parent_of(code: &Module, count: u8, pool: PoolRef) -> PoolRef
    requires { count ≡ length code.now.pools }
    ensures { result ≡ parent_of code.now pool }
{
    match pool {
        PoolRef::Own(q) => {
            if q < count {
                code.pool_parent(q)
            } else {
                PoolRef::Conn
            }
        }
        PoolRef::Conn | PoolRef::Req => PoolRef::Conn,
    }
}

fn is_under(code: &Module, count: u8, top: PoolRef, low: PoolRef) -> bool
    requires { count ≡ length code.now.pools }
    ensures { result ≡ is_under code.now top low }
{
    let mut at = low;
    for _ in 0..10u8 {
        if is_same_place(top, at) {
            return true;
        }
        at = parent_of(code, count, at);
    }
    false
}

/// A pool and those under it.
fn pools_under(code: &Module, count: u8, top: PoolRef) -> PoolSet
    requires counted { count ≡ length code.now.pools }
    requires few { length code.now.pools ≤ 8 }
    requires clearable { is_clearable top ≡ true }
    ensures { seen_pools result ≡ is_under code.now top }
{
    let mut own = [false; 8];
    for q in 0..8u8 {
        own[usize::from(q)] = is_under(code, count, top, PoolRef::Own(q));
    }
    PoolSet {
        req: is_under(code, count, top, PoolRef::Req),
        own,
    }
}

#[tactic(auto, unfolding(module_code::specs::Program::pool_of_brigade))]
pub(crate) fn pool_of_brigade(code: &Module, count: u8, b: u8) -> PoolRef
    requires { count ≡ length code.now.brigades }
    ensures { result ≡ pool_of_brigade code.now b }
{
    if b < count {
        code.brigade_pool(b)
    } else {
        PoolRef::Conn
    }
}

#[tactic(auto)]
impl State {
    fn cleared_pool(&self, under: &PoolSet, top: PoolRef, q: u8) -> PoolState
        ensures { result ≡ cleared_pool (seen_pools under.now) top (seen self.now) q }
    {
        let subpool = under.has(PoolRef::Own(q)) & !is_same_place(top, PoolRef::Own(q));
        if subpool {
            self.pool(q).ended()
        } else {
            self.pool(q)
        }
    }

    #[tactic(auto, unfolding(crate::specs::Seen::seen))]
    fn cleared_brigade(&self, code: &Module, under: &PoolSet, b: u8) -> BrigadeState
        requires { (seen self.now).brigade_count ≡ length code.now.brigades }
        ensures { seen_brigade result ≡ cleared_brigade code.now (seen_pools under.now) (seen self.now) b }
    {
        let brigade = self.brigade(b);
        if under.has(pool_of_brigade(code, self.brigade_count, b)) {
            brigade.ended()
        } else {
            BrigadeState {
                homes: brigade.homes.dead_where(under),
                ..brigade
            }
        }
    }

    #[tactic(auto, unfolding(crate::specs::Seen::seen))]
    fn cleared_cursor(&self, code: &Module, under: &PoolSet, c: u8) -> CursorState
        requires { (seen self.now).brigade_count ≡ length code.now.brigades }
        ensures { seen_cursor result ≡ cleared_cursors code.now (seen_pools under.now) (seen self.now) c }
    {
        let cursor = self.cursor(c);
        match cursor {
            CursorState::Unset => cursor,
            CursorState::Loose(classes, homes) => {
                CursorState::Loose(classes, homes.dead_where(under))
            }
            CursorState::In(at, _) | CursorState::End(at) | CursorState::InOrEnd(at, _) => {
                if under.has(pool_of_brigade(code, self.brigade_count, at)) {
                    CursorState::Unset
                } else {
                    cursor
                }
            }
        }
    }

    /// A pool is cleared: those under it and the brigades on it and on them are gone, and homes there are dead.
    #[tactic(auto, unfolding(crate::specs::Seen::seen))]
    pub(crate) fn cleared(mut self, code: &Module, top: PoolRef) -> State
        requires pools { (seen self).pool_count ≡ length code.now.pools }
        requires brigades { (seen self).brigade_count ≡ length code.now.brigades }
        requires few { length code.now.pools ≤ 8 }
        requires clearable { is_clearable top ≡ true }
        ensures { seen result ≡ cleared code.now top (seen self) }
    {
        let under = pools_under(code, self.pool_count, top);
        let mut pools = [PoolState::NULL; 8];
        let mut brigades = [BrigadeState::UNMADE; 9];
        let mut cursors = [CursorState::Unset; 9];
        for k in 0..8u8 {
            pools[usize::from(k)] = self.cleared_pool(&under, top, k);
            brigades[usize::from(k)] = self.cleared_brigade(code, &under, k);
            cursors[usize::from(k)] = self.cleared_cursor(code, &under, k);
        }
        brigades[8] = self.cleared_brigade(code, &under, 8);
        cursors[8] = self.cleared_cursor(code, &under, 8);
        self.change_cursors(Keep::Known, cursors);
        self.pools = pools;
        self.brigades = brigades;
        self
    }
}
