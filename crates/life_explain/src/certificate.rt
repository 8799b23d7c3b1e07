//! What a certificate says against its module.

use crate::flow::{FlowEdges, add_edges_of, state_at};
use crate::told::{handler_name, put_at, put_filter_line};
use explain_text::{ModuleText, Page, Topic, put_known};
use life_cert::StatePlace;
use life_check::{Cert, CertVersion, CheckRefusal, Rule};
use life_state::{State, at_open, leq};
use module_code::Module;

// The variables and cursors of a state: eight pools, nine brigades and nine cursors.
const PARTS: u8 = 26;

// The variable or cursor of this number.
fn part(index: u8) -> (Topic, u8) {
    if index < 8 {
        (Topic::Pool, index)
    } else if index < 17 {
        (Topic::Brigade, index.wrapping_sub(8))
    } else {
        (Topic::Cursor, index.wrapping_sub(17))
    }
}

// Whether a state says no more of a part than another.
fn is_part_below(state: &State, given: &State, index: u8) -> bool {
    let mut with = *given;
    match part(index) {
        (Topic::Pool, q) if q < 8 => with.set_pool(q, state.pool(q)),
        (Topic::Brigade, b) if b < 9 => with.set_brigade(b, state.brigade(b)),
        (Topic::Cursor, c) if c < 9 => with.put_cursor(c, state.cursor(c)),
        _ => {}
    }
    leq(&with, given)
}

// The first part of which the given state says more; `PARTS` where it is none of these.
fn differing(state: &State, given: &State) -> u8 {
    for index in 0..PARTS {
        if !is_part_below(state, given, index) {
            return index;
        }
    }
    PARTS
}

// Adds a text, and behind it the name of a place.
fn put_place(page: &mut Page, source: &ModuleText, text: &str, place: StatePlace) {
    match place {
        StatePlace::At(pc) => put_at(page, source, pc, "$line #, `@`", text),
        StatePlace::Idle => page.put_text("$`idle`", text),
        StatePlace::Ready => page.put_text("$`ready`", text),
    }
}

// Tells what the certificate says of the first part in which a state that comes is not below the one that is given.
fn put_difference(page: &mut Page, state: &State, given: &State) {
    let index = differing(state, given);
    if state.sent() && !given.sent() {
        page.push(
            "an EOS of this request may have been passed\n  the certificate says there: no EOS of this request was passed\n",
        );
    } else if index == PARTS {
        page.push(
            "two cursors may be at one bucket\n  the certificate says there: they are at different buckets\n",
        );
    } else {
        let (topic, of) = part(index);
        put_known(page, state, topic, of);
        page.push("  the certificate says there: ");
        put_known(page, given, topic, of);
    }
}

// Tells how a state that comes to a place is not below the one that the certificate has there, and whether it is not.
fn put_not_below(
    page: &mut Page,
    source: &ModuleText,
    cert: &Cert,
    place: StatePlace,
    state: &State,
) -> bool {
    match state_at(cert, place) {
        Some(given) => {
            let is_below = leq(state, &given);
            if !is_below {
                put_place(page, source, "  what comes to ", place);
                page.push(": ");
                put_difference(page, state, &given);
            }
            !is_below
        }
        None => {
            put_place(page, source, "  the certificate has no state for ", place);
            page.push("\n");
            true
        }
    }
}

fn put_from(page: &mut Page, source: &ModuleText, code: &Module, cert: &Cert, place: StatePlace) {
    let mut edges = FlowEdges::new(page.alloc);
    if let Some(state) = state_at(cert, place) {
        add_edges_of(code, place, &state, false, &mut edges);
    }
    page.full |= edges.full;
    for edge in &edges.all {
        if put_not_below(page, source, cert, edge.to, &edge.state) {
            break;
        }
    }
}

fn put_entry(page: &mut Page, source: &ModuleText, code: &Module, cert: &Cert, pc: usize) {
    let form = "line #: `$` does not begin as the certificate says\n";
    put_at(page, source, pc, form, handler_name(code, pc));
    if pc == code.main() {
        put_from(page, source, code, cert, StatePlace::Ready);
    } else if pc == code.init() {
        put_from(page, source, code, cert, StatePlace::Idle);
    } else {
        let first = at_open(code.pool_count(), code.brigade_count());
        put_not_below(page, source, cert, StatePlace::At(0), &first);
    }
}

// Tells that a certificate is of another module; whether its lines `vars` and `code` say so.
fn put_other_numbers(page: &mut Page, code: &Module, version: CertVersion) -> bool {
    let CertVersion::Two {
        pools,
        brigades,
        code: count,
    } = version
    else {
        return false;
    };
    let (p, b, n) = (code.pool_count(), code.brigade_count(), code.len());
    if pools == p && brigades == b && usize::from(count) == n {
        return false;
    }
    page.full |= write!(
        page.text,
        "the certificate is of another module: it says `vars {pools} {brigades}` and `code {count}`, and this module has `vars {p} {b}` and `code {n}`\n"
    )
    .is_err();
    true
}

// Tells how a certificate is not of the shape of its module.
fn put_shape(page: &mut Page, code: &Module, cert: &Cert) {
    if put_other_numbers(page, code, cert.version) {
        return;
    }
    page.push(
        "the states of the certificate are not of this module: other variables, `in` elsewhere than in `main`, a cursor between calls, or a line for no instruction\n",
    );
    if cert.slim {
        page.push(
            "  a slim certificate has lines only for the first instruction of each handler and for targets\n",
        );
    }
}

/// Tells what a certificate says against its module.
pub fn put_certificate(
    page: &mut Page,
    source: &ModuleText,
    code: &Module,
    cert: &Cert,
    refusal: CheckRefusal,
) {
    let pc = refusal.pc;
    match refusal.rule {
        Rule::Shape => put_shape(page, code, cert),
        Rule::Request => {
            page.push("the end of a request leaves what `idle` does not allow\n");
            put_from(page, source, code, cert, StatePlace::Ready);
        }
        Rule::Entry => put_entry(page, source, code, cert, pc),
        Rule::Exit | Rule::Flow | Rule::May(_) => {
            let says = match refusal.rule {
                Rule::Exit => "leaves what the certificate does not allow between calls",
                _ => "leads to what the certificate does not allow",
            };
            put_at(page, source, pc, "line #: `@` $\n", says);
            put_filter_line(page, source, pc);
            put_from(page, source, code, cert, StatePlace::At(pc));
        }
    }
}
