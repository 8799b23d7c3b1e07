//! Slim forms of certificates.

ghost use Rattle.std.specs.Prelude.{◌≡◌, true, IfOk};
ghost use Rattle.life_cert.specs.Prelude.{IsModule, seen_some, AreFormed, seen_cert, AreLeaders, slim_form, Accepts};

use life_check::{Cert, leaders};
use life_state::State;
use module_code::Module;
use std::alloc::{AllocError, Global};

/// The state that the slim form gives before an instruction.
fn kept(cert: &Cert, leaders: &[bool; 1025], pc: usize, code: &Module) -> Option<State>
    requires proper { IsModule code.now }
    requires leaders { AreLeaders code.now leaders.now }
    ensures { seen_some result ≡ (slim_form code.now cert.now).at pc }
{
    if cert.slim || (pc < 1025 && leaders[pc]) {
        cert.state(pc)
    } else {
        None
    }
}

/// The slim form of a certificate: its states between calls, and those at heads. One that is slim stays as it is, and the version stays. Where `check`
/// accepts a certificate whose states are in form, it accepts its slim form. `AllocError`: it cannot be held.
pub fn slim(alloc: Global, code: &Module, cert: &Cert) -> Result<Cert, AllocError>
    ensures slim { IfOk result (λ c. c.slim ≡ true) }
    ensures version { IfOk result (λ c. c.version ≡ cert.now.version) }
    ensures states { IfOk result (λ c. seen_cert c ≡ slim_form code.now cert.now) }
    ensures accepted { IfOk result (λ c. AreFormed (seen_cert cert.now) → Accepts code.now cert.now → Accepts code.now c) }
{
    let _count = code.len();
    let leaders = leaders(code);
    let mut at = Vec::new(alloc);
    for pc in 0..cert.at.len() {
        at.push(kept(cert, &leaders, pc, code))?;
    }
    Ok(Cert {
        version: cert.version,
        slim: true,
        idle: cert.idle,
        ready: cert.ready,
        at,
    })
}
