//! Laws. Each function does nothing: what its contract says holds of the definitions, or of each value of the code.

ghost use Rattle.life_state.specs.Prelude.{IsBounded, IdentityRows, OtherRows, RulesKeepForm, JoinsKeepForm, JoinsAbsorb, EntriesAreFormed, LeqSays, LeqHolds, LeqIsReflexive, LeqIsTransitive};
ghost use Rattle.life_state.specs.Prelude.{LeqIsAntisymmetric, JoinIsAbove, JoinIsLeast, RulesAreMonotone, EntriesAreMonotone, seen};

use crate::state::State;

/// States worked out by hand: those of a module that passes on what it gets, and small ones for single rules.
pub fn worked_states()
    ensures identity { IdentityRows }
    ensures others { OtherRows }
{}

/// A state says something of eight pools, nine brigades and nine cursors alone.
pub fn states_are_bounded(state: &State)
    ensures { IsBounded (seen state.now) }
{
    for c in 0..9usize {
        let row = &state.facts[c];
        let _first = row[0];
    }
}

/// The order says each part of what it is, and no more; it is reflexive, where no cursor is written to differ from itself, and
/// transitive; two states in form, each below the other, are the same.
pub fn states_are_ordered()
    ensures says { LeqSays }
    ensures holds { LeqHolds }
    ensures reflexive { LeqIsReflexive }
    ensures transitive { LeqIsTransitive }
    ensures antisymmetric { LeqIsAntisymmetric }
{}

/// Two states of the same variables are below their join, and their join is below each state that is above both, where these
/// states are in form.
pub fn joins_are_least()
    ensures above { JoinIsAbove }
    ensures least { JoinIsLeast }
{}

/// States in form lead to states in form, of the same variables: by the rules, by joins, and where handlers begin and end. A state
/// that is joined with one below it stays as it is.
pub fn states_stay_in_form()
    ensures rules { RulesKeepForm }
    ensures joins { JoinsKeepForm }
    ensures absorb { JoinsAbsorb }
    ensures entries { EntriesAreFormed }
{}

/// The rules are monotone: of two states in form of which one is below the other, the smaller one refuses less, and leads to smaller
/// states. So is what lies between handlers.
pub fn rules_are_monotone()
    ensures rules { RulesAreMonotone }
    ensures entries { EntriesAreMonotone }
{}
