//! States that stand on an earlier line.

ghost use Rattle.std.specs.Prelude.{◌≡◌, ◌+◌, ◌<◌, ◌≤◌, length, slice_get};
ghost use Rattle.life_cert.specs.Prelude.{seen, seen_some, seen_line, is_again, first_with};
ghost use Rattle.life_cert.specs.Drafts.{HaveSums};
ghost use Rattle.life_cert.specs.StateSums.{state_sum};

use crate::state_sum::state_sum;
use life_state::{State, leq};

fn is_again(state: &State, other: &Option<State>) -> bool
    ensures { result ≡ is_again (seen state.now) (seen_some other.now) }
{
    match other {
        None => false,
        Some(other) => leq(state, other) && leq(other, state),
    }
}

/// Whether a line has this state. Only where the sums are the same are the states compared.
fn is_found(at: &[Option<State>], sums: &[u32], m: usize, state: &State, sum: u32) -> bool
    requires inside { m < length at.now }
    requires sums { HaveSums (m + 1) at.now sums.now }
    requires sum { sum ≡ state_sum (seen state.now) }
    ensures { result ≡ is_again (seen state.now) (seen_line (slice_get at.now m)) }
{
    if m < sums.len() && sums[m] != sum {
        return false;
    }
    is_again(state, &at[m])
}

/// The first of the lines below a number that has this state.
pub(crate) fn first_with(
    at: &[Option<State>],
    sums: &[u32],
    upto: usize,
    state: &State,
) -> Option<usize>
    requires few { upto ≤ length at.now }
    requires sums { HaveSums upto at.now sums.now }
    ensures { result ≡ first_with (λ k. seen_line (slice_get at.now k)) upto (seen state.now) }
{
    let sum = state_sum(state);
    for m in 0..upto {
        if is_found(at, sums, m, state, sum) {
            return Some(m);
        }
    }
    None
}
