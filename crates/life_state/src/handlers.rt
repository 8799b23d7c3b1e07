//! States where calls begin and end, and where a request ends.

ghost use Rattle.std.specs.Prelude.{◌≡◌, ◌≤◌, length};
ghost use Rattle.life_state.specs.Rules.{at_open, at_main, at_return, at_end_of_request};
ghost use Rattle.life_state.specs.Seen.{seen};

use crate::parts::{BrigadeState, Contents, CursorState, HomeSet, PoolState};
use crate::state::State;
use module_code::{Module, PoolRef};

/// The state in which `open` begins, of a module with so many pools and brigades: all are null, and no EOS was passed.
#[tactic(auto, unfolding(crate::specs::Seen::seen))]
pub fn at_open(pool_count: u8, brigade_count: u8) -> State
    ensures { seen result ≡ at_open pool_count brigade_count }
{
    State {
        pool_count,
        brigade_count,
        sent: false,
        pools: [PoolState::NULL; 8],
        brigades: [BrigadeState::UNMADE; 9],
        cursors: [CursorState::Unset; 9],
        facts: [[false; 9]; 9],
    }
}

/// The state in which `main` begins, from one between calls: `in` is usable, without data behind an EOS, and its buckets live
/// through the call.
pub fn at_main(state: &State) -> State
    ensures { seen result ≡ at_main (seen state.now) }
{
    let mut next = *state;
    let brought = BrigadeState::holding(Contents::NoLateData, HomeSet::only_call());
    next.set_brigade(8, brought);
    next
}

/// What a call leaves where it returns: no cursor, and no `in`.
pub fn at_return(state: &State) -> State
    ensures { seen result ≡ at_return (seen state.now) }
{
    let mut next = *state;
    next.set_brigade(8, BrigadeState::never_made());
    next.cursors = [CursorState::Unset; 9];
    next.facts = [[false; 9]; 9];
    next
}

/// What the end of a request leaves of a state between calls: the request's pool is destroyed, and no EOS of the next was
/// passed.
#[tactic(auto, unfolding(crate::specs::Rules::at_end_of_request))]
pub fn at_end_of_request(code: &Module, state: &State) -> State
    requires pools { (seen state.now).pool_count ≡ length code.now.pools }
    requires brigades { (seen state.now).brigade_count ≡ length code.now.brigades }
    requires few { length code.now.pools ≤ 8 }
    ensures { seen result ≡ at_end_of_request code.now (seen state.now) }
{
    let mut next = state.cleared(code, PoolRef::Req);
    next.set_sent(false);
    next
}
