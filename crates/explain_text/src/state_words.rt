//! States in words.

use crate::doubt::{Doubt, Sort, Topic, brigade_name, cursor_name};
use crate::page::Page;
use life_state::{Contents, CursorState, HomeSet, State};

// What a variable may be, by whether it may be null, gone and live.
const VARIABLES: [&str; 8] = [
    "is not there",
    "is null",
    "is gone",
    "is null or gone",
    "is live",
    "is null or live",
    "is gone or live",
    "is null, gone or live",
];

// What kinds a bucket may be of, by whether it may have bytes, be a FLUSH and be an EOS.
const CLASSES: [&str; 8] = [
    "no kind",
    "data",
    "FLUSH",
    "data or FLUSH",
    "EOS",
    "data or EOS",
    "FLUSH or EOS",
    "any kind",
];

// What buckets may depend on.
const HOMES: [&str; 11] = [
    "the call",
    "what has ended",
    "the request's pool",
    "p0",
    "p1",
    "p2",
    "p3",
    "p4",
    "p5",
    "p6",
    "p7",
];

// The text for three tests.
fn of_three(texts: &[&'static str; 8], first: bool, second: bool, third: bool) -> &'static str {
    let index = usize::from(first) | usize::from(second) << 1 | usize::from(third) << 2;
    texts.get(index).copied().unwrap_or("")
}

// Whether buckets may depend on what is of this number in `HOMES`.
fn depends(homes: &HomeSet, index: usize) -> bool {
    match index {
        0 => homes.call,
        1 => homes.dead,
        2 => homes.pools.req,
        _ => homes
            .pools
            .own
            .get(index.saturating_sub(3))
            .copied()
            .unwrap_or(false),
    }
}

fn put_homes(page: &mut Page, homes: &HomeSet) {
    let mut some = false;
    for (index, home) in HOMES.iter().enumerate() {
        if depends(homes, index) {
            page.push(if some { " or " } else { "" });
            page.push(home);
            some = true;
        }
    }
    if !some {
        page.push("nothing that ends before the connection");
    }
}

// What is known of a brigade variable.
fn put_brigade(page: &mut Page, state: &State, b: u8) {
    let brigade = state.brigade(b);
    let variable = of_three(&VARIABLES, brigade.null, brigade.gone, brigade.live);
    page.put("`@` $", 0, brigade_name(b).as_bytes(), variable);
    if brigade.passed {
        page.push(if brigade.usable {
            " and may be passed"
        } else {
            " and passed"
        });
    }
    if brigade.live && brigade.usable {
        put_contents(page, brigade.content, &brigade.homes);
    }
}

fn put_contents(page: &mut Page, content: Contents, homes: &HomeSet) {
    let text = match content {
        Contents::Empty => ", holds nothing",
        Contents::Flushes => ", holds FLUSH buckets at most; its buckets may depend on ",
        Contents::NoEos => ", may hold data, and no EOS; its buckets may depend on ",
        Contents::NoLateData =>
            ", may hold data and an EOS, and no data behind an EOS; its buckets may depend on ",
        Contents::Any => ", may hold data behind an EOS; its buckets may depend on ",
    };
    page.push(text);
    if !matches!(content, Contents::Empty) {
        put_homes(page, homes);
    }
}

// Which buckets a cursor may be at.
fn class_text(cursor: CursorState) -> &'static str {
    match cursor {
        CursorState::Loose(classes, _)
        | CursorState::In(_, classes)
        | CursorState::InOrEnd(_, classes) => of_three(
            &CLASSES,
            classes.bytes,
            classes.flush,
            classes.eos,
        ),
        CursorState::Unset | CursorState::End(_) => "",
    }
}

// What is known of a cursor.
fn put_cursor(page: &mut Page, state: &State, c: u8) {
    let cursor = state.cursor(c);
    page.push(cursor_name(c));
    let (form, b) = match cursor {
        CursorState::Unset => (" is not known to be anywhere", 0),
        CursorState::Loose(_, _) => (" is a loose bucket of $, which may depend on ", 0),
        CursorState::In(b, _) => (" is a bucket of $ in `@`", b),
        CursorState::End(b) => (" is the end of `@`", b),
        CursorState::InOrEnd(b, _) => (" is a bucket of $ in `@`, or its end", b),
    };
    page.put(form, 0, brigade_name(b).as_bytes(), class_text(cursor));
    if let CursorState::Loose(_, homes) = cursor {
        put_homes(page, &homes);
    }
}

/// What is known of a variable or a cursor.
pub fn put_known(page: &mut Page, state: &State, topic: Topic, of: u8) {
    match topic {
        Topic::Pool => {
            let pool = state.pool(of);
            let variable = of_three(&VARIABLES, pool.null, pool.gone, pool.live);
            page.put("`p#` $", usize::from(of), &[], variable);
        }
        Topic::Brigade => put_brigade(page, state, of),
        Topic::Cursor => put_cursor(page, state, of),
    }
    page.push("\n");
}

/// Tells what a rule wants and what the state there is.
pub fn put_rule(page: &mut Page, state: &State, doubt: Doubt) {
    let row = doubt.row();
    let other = brigade_name(doubt.other).as_bytes();
    page.push("  wanted: ");
    page.put(row.wanted, usize::from(doubt.of), other, doubt.name());
    page.push("\n  there: ");
    if let Sort::Sent = doubt.sort {
        page.push("an EOS of this request may have been passed; ");
    }
    put_known(page, state, row.topic, doubt.of);
}
