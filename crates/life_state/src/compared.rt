//! Whether one state says no less than another.

ghost use Rattle.std.specs.Prelude.{◌≡◌};
ghost use Rattle.life_state.specs.Facts.{known};
ghost use Rattle.life_state.specs.Order.{implies, all_below, leq};
ghost use Rattle.life_state.specs.Seen.{seen};

use crate::pools::implies;
use crate::state::State;

/// Whether what `b` says of a cursor and the others is known in `a`.
fn are_known(a: &State, b: &State, c: u8) -> bool
    ensures { result ≡ all_below 9 (λ d. implies ((seen b.now).facts c d) (known (seen a.now) c d)) }
{
    for d in 0..9u8 {
        let told = !b.fact(c, d) || a.known(c, d);
        if !told {
            return false;
        }
    }
    true
}

/// Whether `a` is below `b`: it is of the same variables, and what `b` says is true of all that `a` describes.
pub fn leq(a: &State, b: &State) -> bool
    ensures { result ≡ leq (seen a.now) (seen b.now) }
{
    for k in 0..9u8 {
        let facts = are_known(a, b, k);
        let pool = (k == 8) | a.pool(k).leq(&b.pool(k));
        // Compared where they stand: to copy them would cost more than to compare them.
        let brigade = a.brigades[usize::from(k)].leq(&b.brigades[usize::from(k)]);
        let cursor = a.cursors[usize::from(k)].leq(&b.cursors[usize::from(k)]);
        let below = pool & brigade & cursor & facts;
        if !below {
            return false;
        }
    }
    (a.pool_count() == b.pool_count())
        & (a.brigade_count() == b.brigade_count())
        & implies(a.sent(), b.sent())
}
