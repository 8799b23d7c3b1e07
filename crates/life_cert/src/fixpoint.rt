//! States that grow.

ghost use Rattle.std.specs.Prelude.{◌≡◌, ◌<◌, ◌≤◌, true, length, Some, OnOk, IfOk};
ghost use Rattle.life_cert.specs.Prelude.{IsModule, seen, seen_some, seen_cert, state_at, with_state, grow, merge, begun, is_inside, seen_arrival, seen_growth};
ghost use Rattle.life_state.specs.States.{State as known};

use life_check::{Cert, CertVersion};
use life_state::{State, at_open, join, leq};
use module_code::Module;
use std::alloc::{AllocError, Global};

/// What has a state: what lies between calls, before `init` or from then on, and each instruction.
#[derive(Clone, Copy)]
pub enum StatePlace {
    /// Between calls, before `init`.
    Idle,
    /// Between calls, from `init` on.
    Ready,
    /// Before the instruction.
    At(usize),
}

/// A state that is handed on to a place.
#[derive(Clone, Copy)]
pub struct Arrival {
    pub place: StatePlace,
    pub state: State,
}

/// The states so far, and the places whose states grew in the last round.
#[derive(Drop)]
pub struct Fixpoint {
    pub cert: Cert,
    pub changed: Vec<StatePlace>,
}

fn put(cert: &mut Cert, place: StatePlace, state: State)
    requires { is_inside (length cert.old.at.items) place ≡ true }
    ensures { seen_cert cert.new ≡ with_state place (seen state) (seen_cert cert.old) }
{
    match place {
        StatePlace::Idle => cert.idle = Some(state),
        StatePlace::Ready => cert.ready = Some(state),
        StatePlace::At(pc) => cert.at[pc] = Some(state),
    }
}

impl Fixpoint {
    /// There are no states, but for that in which `open` begins.
    pub fn new(alloc: Global, code: &Module) -> Result<Fixpoint, AllocError>
        ensures begun { IfOk result (λ g. seen_growth g ≡ begun code.now) }
        ensures some { 0 < length code.now.code }
        ensures few { length code.now.pools ≤ 8 }
        ensures proper { IsModule code.now }
    {
        let has_code = code.init() < code.len();
        prove!(has_code);
        let first = at_open(code.pool_count(), code.brigade_count());
        let mut cert = Cert {
            version: CertVersion::One,
            slim: false,
            idle: None,
            ready: None,
            at: vec![in alloc; None; code.len()]?,
        };
        put(&mut cert, StatePlace::At(0), first);
        let changed = vec![in alloc; StatePlace::At(0)]?;
        Ok(Fixpoint { cert, changed })
    }

    /// The state of a place.
    pub fn state(&self, place: StatePlace) -> Option<State>
        ensures { seen_some result ≡ state_at (seen_cert self.now.cert) place }
    {
        match place {
            StatePlace::Idle => self.cert.idle,
            StatePlace::Ready => self.cert.ready,
            StatePlace::At(pc) => self.cert.state(pc),
        }
    }

    fn grow(&mut self, place: StatePlace, state: State) -> Result<(), AllocError>
        requires { is_inside (length self.old.cert.at.items) place ≡ true }
        ensures { OnOk result (seen_growth self.new ≡ grow place (seen state) (seen_growth self.old)) }
    {
        put(&mut self.cert, place, state);
        self.changed.push(place)?;
        Ok(())
    }

    /// A state arrives: the one that is there grows, where it does not already stand above.
    pub fn merge(&mut self, arrival: &Arrival) -> Result<(), AllocError>
        requires inside { is_inside (length self.old.cert.at.items) arrival.now.place ≡ true }
        requires pools { (t : known) → state_at (seen_cert self.old.cert) arrival.now.place ≡ Some t → t.pool_count ≡ (seen arrival.now.state).pool_count }
        requires brigades { (t : known) → state_at (seen_cert self.old.cert) arrival.now.place ≡ Some t → t.brigade_count ≡ (seen arrival.now.state).brigade_count }
        ensures { OnOk result (seen_growth self.new ≡ merge (seen_arrival arrival.now) (seen_growth self.old)) }
    {
        let Arrival { place, state } = *arrival;
        match self.state(place) {
            None => self.grow(place, state),
            Some(there) => {
                if leq(&state, &there) {
                    Ok(())
                } else {
                    self.grow(place, join(&there, &state))
                }
            }
        }
    }
}
