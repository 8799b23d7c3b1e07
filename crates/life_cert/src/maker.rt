//! The maker of certificates.

ghost use Rattle.std.specs.Prelude.{◌≡◌, ◌∷◌, [], false, OnOk, IfOk};
ghost use Rattle.life_cert.specs.Prelude.{IsModule, Accepts, Certificate, AreFormed, seen_cert, ChainNeverFaults, IsTyped, round, enough, made, IsOf, seen_growth, version_two, IsCertMade, IsRefused, RefusesByFault, IsBelow};

use crate::fixpoint::Fixpoint;
use crate::handing::handed_on;
use crate::refusal::MakeRefusal;
use life_check::{Cert, CertVersion, check};
use module_code::Module;
use std::alloc::{AllocError, Global};

/// How many rounds are made: so many that no state grows in the last. Each growth of a state adds to what it says may be: `sent`; 3 of a pool; 5, 4 steps
/// of contents and 11 homes of a brigade; 20 steps of a cursor; and the pairs of cursors of which it says nothing. That are at most
/// 510 growths of one state behind its first (`laws::rounds_grow_and_end`).
#[tactic(auto, unfolding(crate::specs::Rounds::enough))]
pub fn round_count(code: &Module) -> usize
    ensures { result ≡ enough code.now }
{
    512 * (code.len() + 2)
}

fn round(alloc: Global, code: &Module, fixpoint: &mut Fixpoint) -> Result<(), AllocError>
    requires { IsOf code.now (seen_growth fixpoint.old) }
    ensures round { OnOk result (seen_growth fixpoint.new ≡ round code.now (seen_growth fixpoint.old)) }
    ensures growing { OnOk result (IsOf code.now (seen_growth fixpoint.new)) }
{
    let arrivals = handed_on(alloc, code, fixpoint)?;
    fixpoint.changed.clear();
    for arrival in &arrivals {
        fixpoint.merge(arrival)?;
    }
    Ok(())
}

/// The states of a module after so many rounds that none grows any more, whether it is accepted with them or not. `AllocError`: they
/// cannot be held.
pub fn least_fixpoint(alloc: Global, code: &Module) -> Result<Cert, AllocError>
    ensures version { IfOk result (λ c. c.version ≡ version_two code.now) }
    ensures whole { IfOk result (λ c. c.slim ≡ false) }
    ensures made { IfOk result (λ c. seen_cert c ≡ made code.now) }
    ensures proper { IsModule code.now }
{
    let mut fixpoint = Fixpoint::new(alloc, code)?;
    for _ in 0..round_count(code) {
        if fixpoint.changed.is_empty() {
            break;
        }
        round(alloc, code, &mut fixpoint)?;
    }
    let Cert {
        version: _,
        slim: _,
        idle,
        ready,
        at,
    } = fixpoint.cert;
    Ok(Cert {
        version: CertVersion::two(code),
        slim: false,
        idle,
        ready,
        at,
    })
}

/// Makes a certificate of version 2 that gives all states. The states grow from none, in rounds over all instructions at once: each hands on what it leads to, where its
/// state grew in the round before, and one that may have a fault hands on nothing. The certificate is accepted by `check`, and so no run of the module alone answers a fault; where it
/// is not, the refusal is the first of `check`: the fault of the first instruction that may have one, and nothing else. Of all certificates that `check` accepts it is the least, and a module is
/// refused only where there is none. It takes a line for each instruction, and `NoMemory` comes where these or what is handed on cannot be held.
pub fn make(alloc: Global, code: &Module) -> Result<Cert, MakeRefusal>
    ensures version { IfOk result (λ c. c.version ≡ version_two code.now) }
    ensures whole { IfOk result (λ c. c.slim ≡ false) }
    ensures accepted { IfOk result (λ c. Accepts code.now c) }
    ensures typed { IfOk result (λ c. IsTyped code.now (seen_cert c)) }
    ensures made { IsCertMade code.now result }
    ensures fault { RefusesByFault code.now result }
    ensures least { IfOk result (λ c. (other : Certificate) → AreFormed other → IsTyped code.now other → IsBelow (seen_cert c) other) }
    ensures complete { IsRefused result → (other : Certificate) → AreFormed other → IsTyped code.now other → ⊥ }
    ensures safe { OnOk result (ChainNeverFaults (code.now ∷ [])) }
{
    let cert = least_fixpoint(alloc, code)?;
    check(code, &cert)?;
    Ok(cert)
}
