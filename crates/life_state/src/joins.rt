//! The least state above two.

ghost use Rattle.std.specs.Prelude.{◌≡◌};
ghost use Rattle.life_state.specs.Order.{cursor_join, kept_cursor, join};
ghost use Rattle.life_state.specs.Seen.{seen, seen_brigades, seen_cursor, seen_cursors};

use crate::facts::Keep;
use crate::parts::{BrigadeState, CursorState, PoolState};
use crate::state::State;

fn kept(brigades: &[BrigadeState; 9], cursor: CursorState) -> CursorState
    ensures { seen_cursor result ≡ kept_cursor (seen_brigades brigades.now) (seen_cursor cursor) }
{
    match cursor {
        CursorState::Unset | CursorState::Loose(_, _) => cursor,
        CursorState::In(b, _) | CursorState::End(b) | CursorState::InOrEnd(b, _) => {
            let b = usize::from(b);
            if b < 9 && brigades[b].is_live() && brigades[b].is_usable() {
                cursor
            } else {
                CursorState::Unset
            }
        }
    }
}

/// The least cursors above those of two states, of which those are kept whose brigades stay exactly live and usable.
fn joined_cursors(a: &State, b: &State, brigades: &[BrigadeState; 9]) -> [CursorState; 9]
    ensures { seen_cursors result ≡ (λ c. kept_cursor (seen_brigades brigades.now) (cursor_join ((seen a.now).cursors c) ((seen b.now).cursors c))) }
{
    let mut cursors = [CursorState::Unset; 9];
    for c in 0..9u8 {
        cursors[usize::from(c)] = kept(brigades, a.cursor(c).join(&b.cursor(c)));
    }
    cursors
}

/// The least state above two of the same variables.
#[tactic(auto, unfolding(crate::specs::Seen::seen, crate::specs::Order::join))]
pub fn join(a: &State, b: &State) -> State
    requires pools { (seen a.now).pool_count ≡ (seen b.now).pool_count }
    requires brigades { (seen a.now).brigade_count ≡ (seen b.now).brigade_count }
    ensures { seen result ≡ join (seen a.now) (seen b.now) }
{
    let mut pools = [PoolState::NULL; 8];
    let mut brigades = [BrigadeState::UNMADE; 9];
    for k in 0..8u8 {
        pools[usize::from(k)] = a.pool(k).join(&b.pool(k));
        brigades[usize::from(k)] = a.brigade(k).join(&b.brigade(k));
    }
    brigades[8] = a.brigade(8).join(&b.brigade(8));
    let cursors = joined_cursors(a, b, &brigades);
    State {
        pool_count: a.pool_count,
        brigade_count: a.brigade_count,
        sent: a.sent | b.sent,
        pools,
        brigades,
        cursors,
        facts: a.fact_rows(Keep::Shared(b), &cursors),
    }
}
