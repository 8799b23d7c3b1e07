//! What places hand on.

ghost use Rattle.std.specs.Prelude.{◌≡◌, ◌<◌, ◌≤◌, ◌++◌, true, length, Some, OnOk, IfOk, All, slice_get};
ghost use Rattle.life_cert.specs.Prelude.{seen, seen_some, seen_edges, seen_cert, state_at, arriving, left_place, returned, edges_arriving, handed_by_line, handed_by, handed_on, is_inside};
ghost use Rattle.life_cert.specs.Prelude.{IsDeclared, IsFit, IsOf, seen_arrivals, seen_growth};

use crate::fixpoint::{Arrival, Fixpoint, StatePlace};
use life_state::{State, Successors, after, at_end_of_request, at_main, at_return};
use module_code::{Instr, Module};
use std::alloc::{AllocError, Global};

// The state, if there is one, is handed on to a place.
fn hand(
    arrivals: &mut Vec<Arrival>,
    place: StatePlace,
    state: Option<State>,
) -> Result<(), AllocError>
    ensures { OnOk result (seen_arrivals arrivals.new.items ≡ seen_arrivals arrivals.old.items ++ arriving place (seen_some state)) }
{
    if let Some(state) = state {
        arrivals.push(Arrival { place, state })?;
    }
    Ok(())
}

// Where the calls of the instruction's handler leave their state.
fn left_place(code: &Module, pc: usize) -> StatePlace
    ensures { result ≡ left_place code.now pc }
{
    if pc < code.init() {
        StatePlace::Idle
    } else {
        StatePlace::Ready
    }
}

// What a return leaves behind.
fn returned(instr: Instr, state: &State) -> Option<State>
    ensures { seen_some result ≡ returned instr (seen state.now) }
{
    match instr {
        Instr::Ret(_) => Some(at_return(state)),
        _ => None,
    }
}

fn hand_edges(
    pc: usize,
    instr: Instr,
    edges: &Successors,
    arrivals: &mut Vec<Arrival>,
) -> Result<(), AllocError>
    requires { pc < 1024 }
    ensures { OnOk result (seen_arrivals arrivals.new.items ≡ seen_arrivals arrivals.old.items ++ edges_arriving pc instr (seen_edges edges.now)) }
{
    hand(arrivals, StatePlace::At(pc + 1), edges.next)?;
    hand(arrivals, StatePlace::At(instr.target()), edges.jump)
}

// An instruction hands on the states on its edges, and what it leaves behind. One that refuses hands on nothing.
fn hand_from_line(
    code: &Module,
    pc: usize,
    state: &State,
    arrivals: &mut Vec<Arrival>,
) -> Result<(), AllocError>
    requires inside { pc < length code.now.code }
    requires declared { IsDeclared code.now (seen state.now) }
    ensures handed { OnOk result (seen_arrivals arrivals.new.items ≡ seen_arrivals arrivals.old.items ++ handed_by_line code.now pc (slice_get code.now.code pc) (seen state.now)) }
    ensures fit { All (IsFit code.now) (handed_by_line code.now pc (slice_get code.now.code pc) (seen state.now)) }
{
    let instr = code.at(pc);
    match after(code, pc, state) {
        Err(_) => Ok(()),
        Ok(edges) => {
            hand_edges(pc, instr, &edges, arrivals)?;
            hand(arrivals, left_place(code, pc), returned(instr, state))
        }
    }
}

// Between calls a request begins a call of `main`, or ends.
fn hand_from_ready(
    code: &Module,
    state: &State,
    arrivals: &mut Vec<Arrival>,
) -> Result<(), AllocError>
    requires declared { IsDeclared code.now (seen state.now) }
    requires few { length code.now.pools ≤ 8 }
    ensures handed { OnOk result (seen_arrivals arrivals.new.items ≡ seen_arrivals arrivals.old.items ++ handed_by code.now StatePlace.Ready (Some (seen state.now))) }
    ensures fit { All (IsFit code.now) (handed_by code.now StatePlace.Ready (Some (seen state.now))) }
{
    let main = StatePlace::At(code.main());
    hand(arrivals, main, Some(at_main(state)))?;
    hand(
        arrivals,
        StatePlace::Idle,
        Some(at_end_of_request(code, state)),
    )
}

// Between calls, before `init`, a call of `init` begins.
fn hand_from_idle(
    code: &Module,
    state: &State,
    arrivals: &mut Vec<Arrival>,
) -> Result<(), AllocError>
    requires { IsDeclared code.now (seen state.now) }
    ensures handed { OnOk result (seen_arrivals arrivals.new.items ≡ seen_arrivals arrivals.old.items ++ handed_by code.now StatePlace.Idle (Some (seen state.now))) }
    ensures fit { All (IsFit code.now) (handed_by code.now StatePlace.Idle (Some (seen state.now))) }
{
    hand(arrivals, StatePlace::At(code.init()), Some(*state))
}

fn hand_from(
    code: &Module,
    fixpoint: &Fixpoint,
    place: StatePlace,
    arrivals: &mut Vec<Arrival>,
) -> Result<(), AllocError>
    requires growing { IsOf code.now (seen_growth fixpoint.now) }
    requires inside { is_inside (length code.now.code) place ≡ true }
    ensures handed { OnOk result (seen_arrivals arrivals.new.items ≡ seen_arrivals arrivals.old.items ++ handed_by code.now place (state_at (seen_cert fixpoint.now.cert) place)) }
    ensures fit { All (IsFit code.now) (handed_by code.now place (state_at (seen_cert fixpoint.now.cert) place)) }
{
    match fixpoint.state(place) {
        None => Ok(()),
        Some(state) => match place {
            StatePlace::Idle => hand_from_idle(code, &state, arrivals),
            StatePlace::Ready => hand_from_ready(code, &state, arrivals),
            StatePlace::At(pc) => hand_from_line(code, pc, &state, arrivals),
        },
    }
}

/// What the places hand on whose states grew in the last round.
pub(crate) fn handed_on(
    alloc: Global,
    code: &Module,
    fixpoint: &Fixpoint,
) -> Result<Vec<Arrival>, AllocError>
    requires { IsOf code.now (seen_growth fixpoint.now) }
    ensures handed { IfOk result (λ v. seen_arrivals v.items ≡ handed_on code.now (seen_cert fixpoint.now.cert) fixpoint.now.changed.items) }
    ensures fit { OnOk result (All (IsFit code.now) (handed_on code.now (seen_cert fixpoint.now.cert) fixpoint.now.changed.items)) }
{
    let mut arrivals = Vec::new(alloc);
    for place in &fixpoint.changed {
        hand_from(code, fixpoint, *place, &mut arrivals)?;
    }
    Ok(arrivals)
}
