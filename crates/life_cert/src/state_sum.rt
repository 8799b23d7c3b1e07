//! Short sums of states, by which most states that differ are told apart.

ghost use Rattle.std.specs.Prelude.{◌≡◌, ◌<◌, ◌≤◌};
ghost use Rattle.life_cert.specs.Prelude.{seen, seen_brigade, seen_cursor, seen_homes, seen_some};
ghost use Rattle.life_cert.specs.StateSums.{digit, three_digits, own_number, homes_number, pool_number, classes_number, brigade_number, cursor_number, summed, sum_below, state_sum, line_sum};
ghost use Rattle.life_state.specs.Order.{rank};

use life_state::{BrigadeState, Classes, Contents, CursorState, HomeSet, PoolState, State};
use module_code::PoolRef;

fn three_digits(a: bool, b: bool, c: bool) -> u32
    ensures value { result ≡ three_digits a b c }
    ensures small { result < 8 }
{
    4 * u32::from(a) + 2 * u32::from(b) + u32::from(c)
}

fn has(homes: &HomeSet, q: u8) -> bool
    ensures { result ≡ (seen_homes homes.now).at (PoolRef.Own q) }
{
    homes.pools.has(PoolRef::Own(q))
}

/// The pools of this instance.
fn own_number(homes: &HomeSet) -> u32
    ensures value { result ≡ own_number (λ q. (seen_homes homes.now).at (PoolRef.Own q)) }
    ensures small { result < 256 }
{
    let first = three_digits(has(homes, 0), has(homes, 1), has(homes, 2));
    let second = three_digits(has(homes, 3), has(homes, 4), has(homes, 5));
    32 * first + 4 * second + 2 * u32::from(has(homes, 6)) + u32::from(has(homes, 7))
}

fn homes_number(homes: &HomeSet) -> u32
    ensures value { result ≡ homes_number (seen_homes homes.now) }
    ensures small { result < 2048 }
{
    let others = three_digits(homes.call, homes.dead, homes.pools.has(PoolRef::Req));
    256 * others + own_number(homes)
}

fn pool_number(pool: PoolState) -> u32
    ensures { result ≡ pool_number pool }
{
    three_digits(pool.null, pool.gone, pool.live)
}

fn classes_number(classes: Classes) -> u32
    ensures value { result ≡ classes_number classes }
    ensures small { result < 8 }
{
    three_digits(classes.bytes, classes.flush, classes.eos)
}

fn rank(content: Contents) -> u32
    ensures value { result ≡ rank content }
    ensures small { result < 5 }
{
    match content {
        Contents::Empty => 0,
        Contents::Flushes => 1,
        Contents::NoEos => 2,
        Contents::NoLateData => 3,
        Contents::Any => 4,
    }
}

#[tactic(auto, unfolding(crate::specs::StateSums::brigade_number))]
fn brigade_number(brigade: &BrigadeState) -> u32
    ensures { result ≡ brigade_number (seen_brigade brigade.now) }
{
    let marks = 2 * u32::from(brigade.usable) + u32::from(brigade.passed);
    let may_be = three_digits(brigade.null, brigade.gone, brigade.live);
    65536 * (8 * marks + may_be) + 2048 * rank(brigade.content) + homes_number(&brigade.homes)
}

#[tactic(auto, unfolding(crate::specs::StateSums::cursor_number))]
fn cursor_number(cursor: &CursorState) -> u32
    ensures { result ≡ cursor_number (seen_cursor cursor.now) }
{
    match cursor {
        CursorState::Unset => 0,
        CursorState::Loose(classes, homes) => {
            65536 + 2048 * classes_number(*classes) + homes_number(homes)
        }
        CursorState::In(b, classes) => 131_072 + 8 * u32::from(*b) + classes_number(*classes),
        CursorState::End(b) => 262_144 + u32::from(*b),
        CursorState::InOrEnd(b, classes) => 524_288 + 8 * u32::from(*b) + classes_number(*classes),
    }
}

fn summed(sum: u32, number: u32) -> u32
    ensures { result ≡ summed sum number }
{
    ((31 * u64::from(sum) + u64::from(number)) % 4_294_967_296) as u32
}

fn with_pools(start: u32, state: &State) -> u32
    ensures { result ≡ sum_below 8 (λ q. pool_number ((seen state.now).pools q)) start }
{
    let mut sum = start;
    for q in 0..8u8 {
        sum = summed(sum, pool_number(state.pool(q)));
    }
    sum
}

fn with_brigades(start: u32, state: &State) -> u32
    ensures { result ≡ sum_below 9 (λ b. brigade_number ((seen state.now).brigades b)) start }
{
    let mut sum = start;
    for b in 0..9u8 {
        sum = summed(sum, brigade_number(&state.brigade(b)));
    }
    sum
}

fn with_cursors(start: u32, state: &State) -> u32
    ensures { result ≡ sum_below 9 (λ c. cursor_number ((seen state.now).cursors c)) start }
{
    let mut sum = start;
    for c in 0..9u8 {
        sum = summed(sum, cursor_number(&state.cursor(c)));
    }
    sum
}

fn sent_number(state: &State) -> u32
    ensures { result ≡ digit ((seen state.now).sent) }
{
    u32::from(state.sent())
}

/// The sum of a state.
#[tactic(auto, unfolding(crate::specs::StateSums::state_sum))]
pub(crate) fn state_sum(state: &State) -> u32
    ensures { result ≡ state_sum (seen state.now) }
{
    let pools = with_pools(sent_number(state), state);
    with_cursors(with_brigades(pools, state), state)
}

/// The sum of the state on a line; 0 where it has none.
pub(crate) fn line_sum(state: &Option<State>) -> u32
    ensures { result ≡ line_sum (seen_some state.now) }
{
    match state {
        None => 0,
        Some(state) => state_sum(state),
    }
}
