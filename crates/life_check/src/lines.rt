//! What instructions lead to.

ghost use Rattle.std.specs.Prelude.{◌≡◌, ◌<◌, ◌+◌, true, length, None, Some, IfOk, IfErr, OnOk, slice_get, unwrap_or, Ok};
ghost use Rattle.module_code.specs.declared.instr.Instr as instr;
ghost use Rattle.life_check.specs.Prelude.{IsModule, target, seen, seen_some, seen_edges, AreFormed, seen_cert, AreLeaders, handed_next, meant, declares, has_shape, left_by, exits, leads_on, unless};
ghost use Rattle.life_check.specs.Prelude.{step_refusal, refusal_at, first_below, IsAnswer};

use crate::cert::Cert;
use crate::entries::{flows, is_below};
use crate::refusal::{CheckRefusal, Rule};
use life_state::{State, Successors, after, at_return};
use module_code::{Instr, Module};

fn left_by(code: &Module, cert: &Cert, pc: usize) -> Option<State>
    ensures { seen_some result ≡ left_by code.now (meant code.now cert.now) pc }
{
    if pc < code.init() {
        cert.idle
    } else {
        cert.ready
    }
}

fn exits(code: &Module, cert: &Cert, pc: usize, instr: Instr, state: &State) -> bool
    ensures { result ≡ exits code.now (meant code.now cert.now) pc instr (seen state.now) }
{
    match instr {
        Instr::Ret(_) => is_below(&at_return(state), left_by(code, cert, pc)),
        _ => true,
    }
}

/// The state that is meant before the next instruction: the one that is given, or the one that is handed on where a slim certificate
/// gives none.
fn next_meant(
    code: &Module,
    cert: &Cert,
    leaders: &[bool; 1025],
    pc: usize,
    handed: Option<State>,
) -> Option<State>
    requires proper { IsModule code.now }
    requires inside { pc < length code.now.code }
    requires leaders { AreLeaders code.now leaders.now }
    requires handed { seen_some handed ≡ handed_next code.now (slice_get code.now.code pc) ((meant code.now cert.now).at pc) }
    ensures { seen_some result ≡ (meant code.now cert.now).at (pc + 1) }
{
    let next = cert.state(pc + 1);
    let given = !cert.slim | leaders[pc + 1];
    if given { next } else { handed }
}

fn leads_on(code: &Module, cert: &Cert, pc: usize, edges: &Successors, next: Option<State>) -> bool
    requires inside { pc < length code.now.code }
    requires next { seen_some next ≡ (meant code.now cert.now).at (pc + 1) }
    ensures { (i : instr.Instr) → slice_get code.now.code pc ≡ Some i → result ≡ leads_on (meant code.now cert.now) pc i (seen_edges edges.now) }
{
    let jump = cert.state(code.at(pc).target());
    flows(edges.next, next) & flows(edges.jump, jump)
}

/// The answer where the test fails.
pub(crate) fn unless(holds: bool, pc: usize, rule: Rule) -> Result<(), CheckRefusal>
    ensures { IsAnswer (unless holds pc rule) result }
{
    if holds {
        Ok(())
    } else {
        Err(CheckRefusal { pc, rule })
    }
}

fn check_edges(
    code: &Module,
    cert: &Cert,
    pc: usize,
    state: &State,
    edges: &Successors,
    next: Option<State>,
) -> Result<(), CheckRefusal>
    requires inside { pc < length code.now.code }
    requires next { seen_some next ≡ (meant code.now cert.now).at (pc + 1) }
    ensures { (i : instr.Instr) → slice_get code.now.code pc ≡ Some i → IsAnswer (step_refusal code.now (meant code.now cert.now) pc i (seen state.now) (Ok (seen_edges edges.now))) result }
{
    unless(leads_on(code, cert, pc, edges, next), pc, Rule::Flow)?;
    unless(exits(code, cert, pc, code.at(pc), state), pc, Rule::Exit)
}

/// The refusal of an instruction in its state, or the state that is meant before the next.
fn check_state(
    code: &Module,
    cert: &Cert,
    leaders: &[bool; 1025],
    pc: usize,
    state: &State,
) -> Result<Option<State>, CheckRefusal>
    requires proper { IsModule code.now }
    requires inside { pc < length code.now.code }
    requires leaders { AreLeaders code.now leaders.now }
    requires declared { declares code.now (seen state.now) ≡ true }
    requires stands { (meant code.now cert.now).at pc ≡ Some (seen state.now) }
    ensures next { IfOk result (λ next. seen_some next ≡ (meant code.now cert.now).at (pc + 1)) }
    ensures passes { OnOk result (refusal_at code.now (meant code.now cert.now) pc ≡ None) }
    ensures refused { IfErr result (λ r. refusal_at code.now (meant code.now cert.now) pc ≡ Some r) }
{
    match after(code, pc, state) {
        Err(kind) => Err(CheckRefusal {
            pc,
            rule: Rule::May(kind),
        }),
        Ok(edges) => {
            let next = next_meant(code, cert, leaders, pc, edges.next);
            check_edges(code, cert, pc, state, &edges, next)?;
            Ok(next)
        }
    }
}

fn check_line(
    code: &Module,
    cert: &Cert,
    leaders: &[bool; 1025],
    pc: usize,
    here: Option<State>,
) -> Result<Option<State>, CheckRefusal>
    requires proper { IsModule code.now }
    requires inside { pc < length code.now.code }
    requires leaders { AreLeaders code.now leaders.now }
    requires shape { has_shape code.now (seen_cert cert.now) ≡ true }
    requires formed { AreFormed (seen_cert cert.now) }
    requires here { seen_some here ≡ (meant code.now cert.now).at pc }
    ensures next { IfOk result (λ next. seen_some next ≡ (meant code.now cert.now).at (pc + 1)) }
    ensures passes { OnOk result (refusal_at code.now (meant code.now cert.now) pc ≡ None) }
    ensures refused { IfErr result (λ r. refusal_at code.now (meant code.now cert.now) pc ≡ Some r) }
{
    match here {
        None => Ok(next_meant(code, cert, leaders, pc, None)),
        Some(state) => check_state(code, cert, leaders, pc, &state),
    }
}

/// The first refusal of an instruction that has a state. One state is held at a time: the one that is meant before the instruction.
pub(crate) fn check_lines(
    code: &Module,
    cert: &Cert,
    leaders: &[bool; 1025],
) -> Result<(), CheckRefusal>
    requires leaders { AreLeaders code.now leaders.now }
    requires shape { has_shape code.now (seen_cert cert.now) ≡ true }
    requires formed { AreFormed (seen_cert cert.now) }
    ensures first { IsAnswer (first_below (length code.now.code) (refusal_at code.now (meant code.now cert.now))) result }
    ensures proper { IsModule code.now }
{
    let count = code.len();
    let mut here = cert.state(0);
    for pc in 0..count {
        here = check_line(code, cert, leaders, pc, here)?;
    }
    Ok(())
}
