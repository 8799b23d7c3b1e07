//! Where handlers begin, and where requests end.

ghost use Rattle.std.specs.Prelude.{◌≡◌, ◌≤◌, true, length};
ghost use Rattle.life_check.specs.Prelude.{seen, seen_some, seen_cert, meant, is_below, flows, main_from, fits_between, has_shape, opens, inits, serves, request_end, requests};

use crate::cert::Cert;
use life_state::{State, at_end_of_request, at_main, at_open, leq};
use module_code::Module;

/// Whether the state is below the one that is given; none is below none.
pub(crate) fn is_below(state: &State, given: Option<State>) -> bool
    ensures { result ≡ is_below (seen state.now) (seen_some given) }
{
    match given {
        None => false,
        Some(given) => leq(state, &given),
    }
}

/// Whether what can be reached is below what is given there.
pub(crate) fn flows(reached: Option<State>, given: Option<State>) -> bool
    ensures { result ≡ flows (seen_some reached) (seen_some given) }
{
    match reached {
        None => true,
        Some(state) => is_below(&state, given),
    }
}

fn main_from(ready: Option<State>) -> Option<State>
    ensures { seen_some result ≡ main_from (seen_some ready) }
{
    match ready {
        None => None,
        Some(state) => Some(at_main(&state)),
    }
}

pub(crate) fn opens(code: &Module, cert: &Cert) -> bool
    ensures value { result ≡ opens code.now (meant code.now cert.now) }
    ensures few { length code.now.pools ≤ 8 }
{
    let first = at_open(code.pool_count(), code.brigade_count());
    is_below(&first, cert.state(0))
}

pub(crate) fn inits(code: &Module, cert: &Cert) -> bool
    ensures { result ≡ inits code.now (meant code.now cert.now) }
{
    flows(cert.idle, cert.state(code.init()))
}

pub(crate) fn serves(code: &Module, cert: &Cert) -> bool
    ensures { result ≡ serves code.now (meant code.now cert.now) }
{
    flows(main_from(cert.ready), cert.state(code.main()))
}

fn request_end(code: &Module, ready: Option<State>) -> Option<State>
    requires fits { fits_between code.now (seen_some ready) ≡ true }
    requires few { length code.now.pools ≤ 8 }
    ensures { seen_some result ≡ request_end code.now (seen_some ready) }
{
    match ready {
        None => None,
        Some(state) => Some(at_end_of_request(code, &state)),
    }
}

pub(crate) fn requests(code: &Module, cert: &Cert) -> bool
    requires shape { has_shape code.now (seen_cert cert.now) ≡ true }
    requires few { length code.now.pools ≤ 8 }
    ensures { result ≡ requests code.now (meant code.now cert.now) }
{
    flows(request_end(code, cert.ready), cert.idle)
}
