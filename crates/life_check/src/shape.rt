//! Whether states are in form and of a module's variables, and stand where they may.

ghost use Rattle.std.specs.Prelude.{◌≡◌, ℕ, ◌||◌, ◌<◌, length, true, nat_le, not, if◌then◌else◌, is_some, IfSome};
ghost use Rattle.life_check.specs.Prelude.{IsFormed, seen, seen_some, seen_cert, AreFormed, declares, has_in, has_no_cursor, fits_between, fits_line, fits_lines, has_shape};
ghost use Rattle.life_check.specs.Prelude.{is_leader, at_leaders, names_shape, AreLeaders};

use crate::cert::Cert;
use crate::version::CertVersion;
use life_state::State;
use module_code::Module;

fn declares(code: &Module, state: &State) -> bool
    ensures { result ≡ declares code.now (seen state.now) }
{
    (state.pool_count() == code.pool_count()) & (state.brigade_count() == code.brigade_count())
}

fn has_in(state: &State) -> bool
    ensures { result ≡ has_in (seen state.now) }
{
    !state.brigade(8).null
}

fn has_no_cursor(state: &State) -> bool
    ensures { result ≡ has_no_cursor (seen state.now) }
{
    for c in 0..9u8 {
        let is_free = !state.cursor(c).is_set();
        if !is_free {
            return false;
        }
    }
    true
}

fn fits_between(code: &Module, state: Option<State>) -> bool
    ensures value { result ≡ fits_between code.now (seen_some state) }
    ensures formed { result ≡ true → IfSome (seen_some state) IsFormed }
{
    match state {
        None => true,
        Some(state) => {
            let fits = declares(code, &state) & !has_in(&state) & has_no_cursor(&state);
            fits & state.is_formed()
        }
    }
}

fn stands_in_part(code: &Module, pc: usize, state: &State) -> bool
    ensures { result ≡ (if nat_le code.now.main pc then has_in (seen state.now) else not (has_in (seen state.now))) }
{
    if code.main() <= pc {
        has_in(state)
    } else {
        !has_in(state)
    }
}

fn fits_line(code: &Module, pc: usize, state: Option<State>) -> bool
    ensures value { result ≡ fits_line code.now pc (seen_some state) }
    ensures formed { result ≡ true → IfSome (seen_some state) IsFormed }
{
    match state {
        None => true,
        Some(state) => {
            let stands = declares(code, &state)
                & (pc < code.len())
                & stands_in_part(code, pc, &state);
            stands & state.is_formed()
        }
    }
}

fn fits_lines(code: &Module, cert: &Cert) -> bool
    ensures value { result ≡ fits_lines code.now (seen_cert cert.now) }
    ensures formed { result ≡ true → (pc : ℕ) → IfSome ((seen_cert cert.now).at pc) IsFormed }
{
    for pc in 0..cert.at.len() {
        let fits = fits_line(code, pc, cert.state(pc));
        if !fits {
            return false;
        }
    }
    true
}

/// Whether the shape that version 2 names is the module's.
pub(crate) fn names_shape(code: &Module, version: CertVersion) -> bool
    ensures { result ≡ names_shape code.now version }
{
    match version {
        CertVersion::One => true,
        CertVersion::Two {
            pools,
            brigades,
            code: len,
        } => {
            (pools == code.pool_count())
                & (brigades == code.brigade_count())
                & (usize::from(len) == code.len())
        }
    }
}

pub(crate) fn has_shape(code: &Module, cert: &Cert) -> bool
    ensures value { result ≡ has_shape code.now (seen_cert cert.now) }
    ensures formed { result ≡ true → AreFormed (seen_cert cert.now) }
{
    fits_between(code, cert.idle) & fits_between(code, cert.ready) & fits_lines(code, cert)
}

fn stands_at_leader(code: &Module, leaders: &[bool; 1025], pc: usize, state: Option<State>) -> bool
    requires leaders { AreLeaders code.now leaders.now }
    requires few { is_some (seen_some state) ≡ true → pc < 1025 }
    ensures { result ≡ is_leader code.now pc || not (is_some (seen_some state)) }
{
    match state {
        None => true,
        Some(_) => leaders[pc],
    }
}

/// Whether states are given at heads alone.
pub(crate) fn at_leaders(code: &Module, cert: &Cert, leaders: &[bool; 1025]) -> bool
    requires leaders { AreLeaders code.now leaders.now }
    requires shape { has_shape code.now (seen_cert cert.now) ≡ true }
    ensures { result ≡ at_leaders code.now (seen_cert cert.now) }
{
    let _count = code.len();
    for pc in 0..cert.at.len() {
        let stands = stands_at_leader(code, leaders, pc, cert.state(pc));
        if !stands {
            return false;
        }
    }
    true
}
