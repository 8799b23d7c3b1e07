//! The states of a module, and the edges by which they come.

ghost use Rattle.std.specs.Prelude.{◌≡◌, true, IfSome};
ghost use Rattle.module_code.specs.Program.{fits};

use crate::needs::doubt_of;
use explain_text::{Doubt, Page};
use life_cert::{Arrival, Fixpoint, StatePlace, round_count};
use life_check::{Cert, CertVersion, leaders};
use life_state::{State, Successors, after, at_end_of_request, at_main, at_return};
use module_code::{Instr, Module, PoolRef};
use run_model::FaultKind;
use std::alloc::{AllocError, Global};

/// An edge from one place to another, and the state that comes by it.
#[derive(Clone, Copy)]
pub struct FlowEdge {
    pub from: StatePlace,
    pub to: StatePlace,
    /// Whether it goes to the instruction's label.
    pub jumps: bool,
    pub state: State,
}

/// A refusal: an instruction that may have a fault.
#[derive(Clone, Copy)]
pub struct FlowRefusal {
    pub pc: usize,
    pub kind: FaultKind,
    pub doubt: Doubt,
}

/// Edges, and whether memory was refused for one.
#[derive(Drop)]
pub struct FlowEdges {
    pub all: Vec<FlowEdge>,
    pub full: bool,
}

/// The states that a module would have if each rule were met, the refusals in them, one at most of each instruction, and how many
/// tests may fail in all.
#[derive(Drop)]
pub struct Judged {
    pub states: Cert,
    pub refusals: Vec<FlowRefusal>,
    pub failures: usize,
}

/// How many tests a rule has at most: a return asks each brigade.
const TESTS: u8 = 9;

/// Whether two places are the same.
pub fn is_same(a: StatePlace, b: StatePlace) -> bool {
    match (a, b) {
        (StatePlace::Idle, StatePlace::Idle) | (StatePlace::Ready, StatePlace::Ready) => true,
        (StatePlace::At(a), StatePlace::At(b)) => a == b,
        _ => false,
    }
}

/// The state of a place.
pub fn state_at(states: &Cert, place: StatePlace) -> Option<State> {
    match place {
        StatePlace::At(pc) => states.state(pc),
        StatePlace::Idle => states.idle,
        StatePlace::Ready => states.ready,
    }
}

// What the rule of an instruction answers, where the state is one of its module.
fn answer(code: &Module, pc: usize, state: &State) -> Option<Result<Successors, FaultKind>> {
    if pc < code.len()
        && state.pool_count() == code.pool_count()
        && state.brigade_count() == code.brigade_count()
    {
        Some(after(code, pc, state))
    } else {
        None
    }
}

// What an instruction hands on to the one behind it.
fn handed_on(code: &Module, pc: usize, here: Option<State>) -> Option<State> {
    match answer(code, pc, &here?)? {
        Ok(led) => led.next,
        Err(_) => None,
    }
}

/// The states that a certificate means, one by one: where a slim one gives none, what the instruction before hands on.
pub fn meant(alloc: Global, code: &Module, cert: &Cert) -> Result<Cert, AllocError> {
    let leaders = leaders(code);
    let mut at = Vec::new(alloc);
    let mut here = cert.state(0);
    for pc in 0..code.len() {
        at.push(here)?;
        let is_given = !cert.slim || leaders[pc + 1];
        here = if is_given {
            cert.state(pc + 1)
        } else {
            handed_on(code, pc, here)
        };
    }
    Ok(Cert {
        version: CertVersion::One,
        slim: false,
        idle: cert.idle,
        ready: cert.ready,
        at,
    })
}

/// The instruction, if there is one of this number.
pub fn instr_at(code: &Module, pc: usize) -> Option<Instr>
    ensures { IfSome result (λ i. fits code.now i ≡ true) }
{
    if pc < code.len() {
        Some(code.at(pc))
    } else {
        None
    }
}

/// The pool that a brigade variable is declared on.
pub fn home_of(code: &Module, b: u8) -> PoolRef {
    if b < code.brigade_count() {
        code.brigade_pool(b)
    } else {
        PoolRef::Req
    }
}

/// The parent of a pool variable.
pub fn parent_of(code: &Module, q: u8) -> PoolRef {
    if q < code.pool_count() {
        code.pool_parent(q)
    } else {
        PoolRef::Req
    }
}

// The refusal of an instruction in a state, if it has one; the state is then as if that test were met.
fn next_refusal(code: &Module, pc: usize, state: &mut State) -> Option<FlowRefusal> {
    match answer(code, pc, state)? {
        Ok(_) => None,
        Err(kind) => {
            let doubt = doubt_of(code, instr_at(code, pc)?, state)?;
            doubt.mend(state);
            Some(FlowRefusal { pc, kind, doubt })
        }
    }
}

// How many tests of its rule an instruction may fail in a state, which is then as if these were met.
fn meet(code: &Module, pc: usize, state: &mut State) -> usize {
    for count in 0..TESTS {
        if next_refusal(code, pc, state).is_none() {
            return usize::from(count);
        }
    }
    usize::from(TESTS)
}

impl FlowEdges {
    /// None yet.
    pub fn new(alloc: Global) -> FlowEdges {
        FlowEdges {
            all: Vec::new(alloc),
            full: false,
        }
    }

    fn add(&mut self, from: StatePlace, to: StatePlace, jumps: bool, state: Option<State>) {
        if let Some(state) = state {
            let edge = FlowEdge {
                from,
                to,
                jumps,
                state,
            };
            self.full |= self.all.push(edge).is_err();
        }
    }
}

fn add_edges_of_line(
    code: &Module,
    pc: usize,
    state: &State,
    goes_on: bool,
    edges: &mut FlowEdges,
) {
    let mut met = *state;
    if goes_on {
        meet(code, pc, &mut met);
    }
    let (Some(Ok(led)), Some(instr)) = (answer(code, pc, &met), instr_at(code, pc)) else {
        return;
    };
    let from = StatePlace::At(pc);
    let next = StatePlace::At(pc.saturating_add(1));
    edges.add(from, next, false, led.next);
    edges.add(from, StatePlace::At(instr.target()), true, led.jump);
    if let Instr::Ret(_) = instr {
        let left = if pc < code.init() {
            StatePlace::Idle
        } else {
            StatePlace::Ready
        };
        edges.add(from, left, false, Some(at_return(state)));
    }
}

/// Adds the edges that lead from a place with this state. An instruction that may have a fault leads nowhere, or, where this goes on,
/// where it would if its rule were met.
pub fn add_edges_of(
    code: &Module,
    place: StatePlace,
    state: &State,
    goes_on: bool,
    edges: &mut FlowEdges,
) {
    match place {
        StatePlace::At(pc) => add_edges_of_line(code, pc, state, goes_on, edges),
        StatePlace::Idle => edges.add(place, StatePlace::At(code.init()), false, Some(*state)),
        StatePlace::Ready => {
            let main = StatePlace::At(code.main());
            edges.add(place, main, false, Some(at_main(state)));
            if state.pool_count() == code.pool_count()
                && state.brigade_count() == code.brigade_count()
            {
                let ended = at_end_of_request(code, state);
                edges.add(place, StatePlace::Idle, false, Some(ended));
            }
        }
    }
}

fn add_edges(code: &Module, states: &Cert, place: StatePlace, edges: &mut FlowEdges) {
    if let Some(state) = state_at(states, place) {
        add_edges_of(code, place, &state, true, edges);
    }
}

/// All edges, where these are the states. One that may have a fault leads where it would if its rule were met, since it led there
/// before its state grew.
pub fn all_edges(alloc: Global, code: &Module, states: &Cert) -> FlowEdges {
    let mut edges = FlowEdges::new(alloc);
    for pc in 0..code.len() {
        add_edges(code, states, StatePlace::At(pc), &mut edges);
    }
    add_edges(code, states, StatePlace::Idle, &mut edges);
    add_edges(code, states, StatePlace::Ready, &mut edges);
    edges
}

// Lets a state come by an edge, where it fits. The page is full where memory was refused for it.
fn merge(page: &mut Page, fixpoint: &mut Fixpoint, edge: &FlowEdge) {
    let is_inside = match edge.to {
        StatePlace::At(pc) => pc < fixpoint.cert.at.len(),
        StatePlace::Idle | StatePlace::Ready => true,
    };
    let fits = match fixpoint.state(edge.to) {
        Some(there) => {
            there.pool_count() == edge.state.pool_count()
                && there.brigade_count() == edge.state.brigade_count()
        }
        None => true,
    };
    let arrival = Arrival {
        place: edge.to,
        state: edge.state,
    };
    if is_inside && fits {
        page.full |= fixpoint.merge(&arrival).is_err();
    }
}

// The edges from where the states grew.
fn grown_edges(alloc: Global, code: &Module, fixpoint: &Fixpoint) -> FlowEdges {
    let mut edges = FlowEdges::new(alloc);
    for place in &fixpoint.changed {
        add_edges(code, &fixpoint.cert, *place, &mut edges);
    }
    edges
}

// A round of the maker, in which an instruction that may have a fault hands on what it would if its rule were met. The page is full
// where memory was refused.
fn round(page: &mut Page, code: &Module, fixpoint: &mut Fixpoint) {
    let edges = grown_edges(page.alloc, code, fixpoint);
    page.full |= edges.full;
    fixpoint.changed.clear();
    for edge in &edges.all {
        merge(page, fixpoint, edge);
    }
}

fn grow(page: &mut Page, code: &Module, fixpoint: &mut Fixpoint) {
    for _ in 0..round_count(code) {
        if fixpoint.changed.is_empty() {
            break;
        }
        round(page, code, fixpoint);
    }
}

// The states of a module, as the maker of certificates lets them grow, but that an instruction that may have a fault leads where it
// would if its rule were met.
fn states_of(page: &mut Page, code: &Module) -> Result<Cert, AllocError> {
    let mut fixpoint = Fixpoint::new(page.alloc, code)?;
    grow(page, code, &mut fixpoint);
    Ok(fixpoint.cert)
}

/// The refusal of an instruction, by this fault where one is given, if it has one in these states.
pub fn refusal_of(
    code: &Module,
    states: &Cert,
    pc: usize,
    kind: Option<FaultKind>,
) -> Option<FlowRefusal> {
    let mut state = states.state(pc)?;
    for _ in 0..TESTS {
        let refusal = next_refusal(code, pc, &mut state)?;
        match kind {
            Some(kind) if refusal.kind as u8 != kind as u8 => {}
            _ => return Some(refusal),
        }
    }
    None
}

// The instructions that may have a fault in these states.
fn judge(page: &mut Page, code: &Module, states: Cert) -> Judged {
    let mut refusals = Vec::new(page.alloc);
    let mut failures = 0usize;
    for pc in 0..code.len() {
        if let Some(refusal) = refusal_of(code, &states, pc, None) {
            page.full |= refusals.push(refusal).is_err();
        }
        if let Some(mut state) = states.state(pc) {
            failures = failures.saturating_add(meet(code, pc, &mut state));
        }
    }
    Judged {
        states,
        refusals,
        failures,
    }
}

/// The states of a module, and the instructions that may have a fault in them. Where memory was refused the page is full, and what is
/// given is not whole, or nothing.
pub fn judged_of(page: &mut Page, code: &Module) -> Option<Judged> {
    match states_of(page, code) {
        Ok(states) => Some(judge(page, code, states)),
        Err(_) => {
            page.full = true;
            None
        }
    }
}
