//! Where what may be so at an instruction comes from.

use crate::flow::{FlowEdge, FlowEdges, add_edges_of, is_same, state_at};
use explain_text::{Doubt, Sort};
use life_cert::StatePlace;
use life_check::Cert;
use module_code::Module;
use std::alloc::Global;

/// A module with its states and the edges between them.
#[derive(Clone, Copy)]
pub struct Known<'a> {
    pub alloc: Global,
    pub code: &'a Module,
    pub states: &'a Cert,
    pub edges: &'a [FlowEdge],
}

/// A part of the way to an instruction.
#[derive(Clone, Copy)]
pub struct TrailStep {
    pub from: StatePlace,
    pub to: StatePlace,
    pub jumps: bool,
}

/// How it came to an instruction.
#[derive(Drop)]
pub struct Trail {
    /// Where it began.
    pub origin: StatePlace,
    /// Whether what stands there made it so: an instruction, or the end of a request. If not, a handler begins there, or ways meet
    /// there that know different things.
    pub is_made: bool,
    /// From where it began up to the instruction.
    pub steps: Vec<TrailStep>,
    /// Whether memory was refused.
    pub full: bool,
    // The places that were looked at.
    nodes: Vec<TrailNode>,
}

impl Trail {
    /// The return by which it left a call, if it came from an earlier one.
    pub fn ending_call(&self) -> Option<usize> {
        for step in &self.steps {
            if let (StatePlace::At(pc), StatePlace::Idle | StatePlace::Ready) = (
                step.from, step.to,
            ) {
                return Some(pc);
            }
        }
        None
    }
}

// A place that was looked at, and how it leads on: by a step to the place of this number.
#[derive(Clone, Copy)]
struct TrailNode {
    place: StatePlace,
    jumps: bool,
    next: usize,
}

// Whether one of these edges is the same as another, and comes with what may be so.
fn leads_so(led: &[FlowEdge], edge: &FlowEdge, doubt: Doubt) -> bool {
    for other in led {
        if is_same(other.to, edge.to) && other.jumps == edge.jumps && doubt.holds(&other.state) {
            return true;
        }
    }
    false
}

fn is_seen(nodes: &[TrailNode], place: StatePlace) -> bool {
    for node in nodes {
        if is_same(node.place, place) {
            return true;
        }
    }
    false
}

// How it comes to a place: by an edge that makes it so, from this place; by edges that do not; or by none.
#[derive(Clone, Copy)]
enum Coming {
    Made(StatePlace),
    Led,
    Begun,
}

impl Trail {
    fn add(&mut self, place: StatePlace, jumps: bool, next: usize) {
        let node = TrailNode { place, jumps, next };
        self.full |= self.nodes.push(node).is_err();
    }

    // Whether it would come by this edge also if it were not so before.
    fn makes(&mut self, known: &Known<'_>, edge: &FlowEdge, doubt: Doubt) -> bool {
        let Some(mut state) = state_at(known.states, edge.from) else {
            return false;
        };
        doubt.mend(&mut state);
        let mut led = FlowEdges::new(known.alloc);
        let goes_on = !matches!(doubt.sort, Sort::LivePool | Sort::LiveBrigade);
        add_edges_of(known.code, edge.from, &state, goes_on, &mut led);
        self.full |= led.full;
        leads_so(led.all.as_slice(), edge, doubt)
    }

    // Finds how it comes to the place of this number. Adds the places from which it comes; one that makes it so is the last.
    fn look(&mut self, known: &Known<'_>, next: usize, place: StatePlace, doubt: Doubt) -> Coming {
        let mut coming = Coming::Begun;
        for edge in known.edges {
            let from = edge.from;
            let ends = doubt.is_of_cursor() && !matches!(from, StatePlace::At(_));
            if is_same(edge.to, place) && !ends && doubt.holds(&edge.state) {
                coming = Coming::Led;
                let makes = self.makes(known, edge, doubt);
                if makes || !is_seen(self.nodes.as_slice(), from) {
                    self.add(from, edge.jumps, next);
                }
                if makes {
                    return Coming::Made(from);
                }
            }
        }
        coming
    }

    // Finds where it began; the number of the place from which the trail leads on.
    fn find(&mut self, known: &Known<'_>, doubt: Doubt) -> usize {
        for number in 0..known.code.len().saturating_add(2) {
            let Some(TrailNode { place, .. }) = self.nodes.get(number).copied() else {
                break
            };
            match self.look(known, number, place, doubt) {
                Coming::Made(from) => {
                    self.origin = from;
                    self.is_made = true;
                    return self.nodes.len().saturating_sub(1);
                }
                Coming::Begun => {
                    self.origin = place;
                    return number;
                }
                Coming::Led => {}
            }
        }
        0
    }

    // Adds the steps from the place of this number up to the first.
    fn follow(&mut self, number: usize) {
        let mut at = number;
        for _ in 0..self.nodes.len() {
            let (Some(node), true) = (self.nodes.get(at).copied(), at != 0) else {
                break
            };
            let Some(next) = self.nodes.get(node.next) else {
                break
            };
            let step = TrailStep {
                from: node.place,
                to: next.place,
                jumps: node.jumps,
            };
            self.full |= self.steps.push(step).is_err();
            at = node.next;
        }
    }
}

/// How it came to an instruction, by the fewest steps.
pub fn trail_to(known: &Known<'_>, pc: usize, doubt: Doubt) -> Trail {
    let origin = StatePlace::At(pc);
    let mut trail = Trail {
        origin,
        is_made: false,
        steps: Vec::new(known.alloc),
        full: false,
        nodes: Vec::new(known.alloc),
    };
    trail.add(origin, false, 0);
    let number = trail.find(known, doubt);
    trail.follow(number);
    trail
}
