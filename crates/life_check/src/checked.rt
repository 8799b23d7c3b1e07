//! The check of a certificate.

ghost use Rattle.std.specs.Prelude.{◌≤◌, ◌≡◌, ◌↔◌, ◌∷◌, [], true, length, IsOk};
ghost use Rattle.life_check.specs.Prelude.{IsModule, InstancesAreSafe, seen_cert, AllBounded, AreFormed, ChainNeverFaults, meant, cert_refusal, states_refusal, names_shape, Accepts, AreLeaders, has_shape, entry_refusal};
ghost use Rattle.life_check.specs.Prelude.{first_refusal, IsAnswer};

use crate::cert::Cert;
use crate::entries::{inits, opens, requests, serves};
use crate::lines::{check_lines, unless};
use crate::refusal::{CheckRefusal, Rule};
use crate::shape::{at_leaders, has_shape, names_shape};
use crate::slim::leaders;
use module_code::Module;

fn check_entries(code: &Module, cert: &Cert) -> Result<(), CheckRefusal>
    ensures first { IsAnswer (entry_refusal code.now (meant code.now cert.now)) result }
    ensures few { length code.now.pools ≤ 8 }
{
    unless(opens(code, cert), 0, Rule::Entry)?;
    unless(inits(code, cert), code.init(), Rule::Entry)?;
    unless(serves(code, cert), code.main(), Rule::Entry)
}

/// The first refusal of what is meant, where the states that are given have the shape.
fn check_meant(code: &Module, cert: &Cert, leaders: &[bool; 1025]) -> Result<(), CheckRefusal>
    requires leaders { AreLeaders code.now leaders.now }
    requires shape { has_shape code.now (seen_cert cert.now) ≡ true }
    requires formed { AreFormed (seen_cert cert.now) }
    ensures first { IsAnswer (first_refusal code.now (meant code.now cert.now)) result }
    ensures proper { IsModule code.now }
{
    let _count = code.len();
    check_entries(code, cert)?;
    check_lines(code, cert, leaders)?;
    unless(requests(code, cert), 0, Rule::Request)
}

/// The first refusal of the states.
fn check_states(code: &Module, cert: &Cert) -> Result<(), CheckRefusal>
    ensures first { IsAnswer (states_refusal code.now cert.now) result }
    ensures bounded { IsOk result → AllBounded (meant code.now cert.now) }
    ensures formed { IsOk result → AreFormed (meant code.now cert.now) }
    ensures proper { IsOk result → IsModule code.now }
{
    let leaders = leaders(code);
    unless(has_shape(code, cert), 0, Rule::Shape)?;
    unless(
        !cert.slim || at_leaders(code, cert, &leaders),
        0,
        Rule::Shape,
    )?;
    check_meant(code, cert, &leaders)
}

pub(crate) fn check_all(code: &Module, cert: &Cert) -> Result<(), CheckRefusal>
    ensures first { IsAnswer (cert_refusal code.now cert.now) result }
    ensures bounded { IsOk result → AllBounded (meant code.now cert.now) }
    ensures formed { IsOk result → AreFormed (meant code.now cert.now) }
    ensures proper { IsOk result → IsModule code.now }
{
    unless(names_shape(code, cert.version), 0, Rule::Shape)?;
    check_states(code, cert)
}

/// Whether the states of a certificate follow from one another by the rules, so that no instruction has a fault: Ok exactly where
/// no rule refuses, and then each state is in form. Else the first refusal: by the shape that version 2 names, where it is not that of the module; by the shape of the states; where a handler begins; at the
/// lowest instruction with a state by a fault that it may have, by where it leads, or by what it leaves where it returns; at the end of
/// the request. Of a slim certificate the shape is that of the states that are given, which stand at heads alone; all else is asked of
/// what it means. It takes no memory. No run of a chain that is this module alone answers a fault, on however many connections, and whatever is found
/// and read, or cannot be. No instance of it has a fault, whatever filters stand before and behind.
pub fn check(code: &Module, cert: &Cert) -> Result<(), CheckRefusal>
    ensures first { IsAnswer (cert_refusal code.now cert.now) result }
    ensures accepts { IsOk result ↔ Accepts code.now cert.now }
    ensures formed { IsOk result → AreFormed (meant code.now cert.now) }
    ensures safe { IsOk result → ChainNeverFaults (code.now ∷ []) }
    ensures instances { IsOk result → InstancesAreSafe code.now }
{
    check_all(code, cert)
}
