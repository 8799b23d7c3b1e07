//! Where an instruction leads.

ghost use Rattle.std.specs.Prelude.{◌≡◌};
ghost use Rattle.life_state.specs.Rules.{goes_on_with, some_if};
ghost use Rattle.life_state.specs.Seen.{seen, seen_some, seen_edges};

use crate::state::State;

/// The states that an instruction leads to, where they can be reached.
#[derive(Clone, Copy)]
pub struct Successors {
    /// The state at the next instruction.
    pub next: Option<State>,
    /// The state at the instruction that this one names.
    pub jump: Option<State>,
}

impl Successors {
    /// The next instruction follows.
    pub(crate) fn goes_on(state: State) -> Successors
        ensures { seen_edges result ≡ goes_on_with (seen state) }
    {
        Successors {
            next: Some(state),
            jump: None,
        }
    }
}

/// The state, if it can be reached.
pub(crate) fn some_if(reached: bool, state: State) -> Option<State>
    ensures { seen_some result ≡ some_if reached (seen state) }
{
    if reached { Some(state) } else { None }
}
