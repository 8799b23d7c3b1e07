//! States as they are written.

ghost use Rattle.std.specs.Prelude.{◌≡◌, ◌++◌, codes};
ghost use Rattle.life_cert.specs.Prelude.{Wrote, writer_state, seen, seen_homes, seen_brigade, seen_cursor, Loose, where_holds, numbered, has_home, home_text, homes_text, set_text, classes_text, content_text};
ghost use Rattle.life_cert.specs.Prelude.{usable_text, live_text, pool_text, brigade_text, brigade_name, cursor_name, place_text_of, cursor_text, fact_text, facts_text, sent_text, state_text, each};

use byte_text::{TextWriter, WriteFault, put_all};
use itoa::Buffer;
use life_state::{BrigadeState, Classes, Contents, CursorState, HomeSet, PoolState, State};
use module_code::PoolRef;
use std::io::Write;

/// What a bucket may live as long as, as it is named.
#[derive(Clone, Copy)]
enum HomeWord {
    Call,
    Req,
    Own(u8),
    Dead,
}

/// In the order in which they are written.
const HOMES: [HomeWord; 11] = [
    HomeWord::Call,
    HomeWord::Req,
    HomeWord::Own(0),
    HomeWord::Own(1),
    HomeWord::Own(2),
    HomeWord::Own(3),
    HomeWord::Own(4),
    HomeWord::Own(5),
    HomeWord::Own(6),
    HomeWord::Own(7),
    HomeWord::Dead,
];

/// A text, if it is to be written.
fn put_if<W: Write>(out: &mut TextWriter<W>, wanted: bool, text: &[u8]) -> Result<(), WriteFault>
    ensures { Wrote result (writer_state W.contents out.old) (writer_state W.contents out.new) (where_holds wanted text.now) }
{
    if wanted { put_all(out, text) } else { Ok(()) }
}

/// A letter and a number behind it.
fn put_numbered<W: Write>(
    out: &mut TextWriter<W>,
    letter: &[u8],
    number: u8,
) -> Result<(), WriteFault>
    ensures { Wrote result (writer_state W.contents out.old) (writer_state W.contents out.new) (numbered letter.now number) }
{
    let mut digits = Buffer::new();
    put_all(out, letter)?;
    put_all(out, digits.format(number).as_bytes())
}

fn has_home(homes: &HomeSet, home: HomeWord) -> bool
    ensures { result ≡ has_home (seen_homes homes.now) home }
{
    match home {
        HomeWord::Call => homes.call,
        HomeWord::Req => homes.pools.has(PoolRef::Req),
        HomeWord::Own(pool) => homes.pools.has(PoolRef::Own(pool)),
        HomeWord::Dead => homes.dead,
    }
}

fn put_home<W: Write>(out: &mut TextWriter<W>, home: HomeWord) -> Result<(), WriteFault>
    ensures { Wrote result (writer_state W.contents out.old) (writer_state W.contents out.new) (home_text home) }
{
    match home {
        HomeWord::Call => put_all(out, b"call"),
        HomeWord::Req => put_all(out, b"req"),
        HomeWord::Own(pool) => put_numbered(out, b"p", pool),
        HomeWord::Dead => put_all(out, b"dead"),
    }
}

/// The names of homes, with commas between them; a dash for none.
fn put_homes<W: Write>(out: &mut TextWriter<W>, homes: &HomeSet) -> Result<(), WriteFault>
    ensures { Wrote result (writer_state W.contents out.old) (writer_state W.contents out.new) (homes_text (seen_homes homes.now)) }
{
    let mut any = false;
    for home in &HOMES {
        if has_home(homes, *home) {
            put_if(out, any, b",")?;
            put_home(out, *home)?;
            any = true;
        }
    }
    put_if(out, !any, b"-")
}

/// What a variable may be.
fn put_set<W: Write>(
    out: &mut TextWriter<W>,
    null: bool,
    gone: bool,
    live: bool,
) -> Result<(), WriteFault>
    ensures { Wrote result (writer_state W.contents out.old) (writer_state W.contents out.new) (set_text null gone live) }
{
    put_if(out, null, b"n")?;
    put_if(out, gone, b"g")?;
    put_if(out, live, b"l")
}

fn put_classes<W: Write>(out: &mut TextWriter<W>, classes: Classes) -> Result<(), WriteFault>
    ensures { Wrote result (writer_state W.contents out.old) (writer_state W.contents out.new) (classes_text classes) }
{
    put_if(out, classes.bytes, b"d")?;
    put_if(out, classes.flush, b"f")?;
    put_if(out, classes.eos, b"e")
}

fn content_text(content: Contents) -> &'static [u8]
    ensures { result.now ≡ content_text content }
{
    match content {
        Contents::Empty => b"e",
        Contents::Flushes => b"f",
        Contents::NoEos => b"n",
        Contents::NoLateData => b"o",
        Contents::Any => b"a",
    }
}

/// What stands in a brigade that may be usable.
fn put_usable<W: Write>(out: &mut TextWriter<W>, brigade: &BrigadeState) -> Result<(), WriteFault>
    ensures { Wrote result (writer_state W.contents out.old) (writer_state W.contents out.new) (usable_text (seen_brigade brigade.now)) }
{
    if !brigade.usable {
        return Ok(());
    }
    put_all(out, b"/")?;
    put_all(out, content_text(brigade.content))?;
    put_all(out, b"/")?;
    put_homes(out, &brigade.homes)
}

/// A sign, the marks of a brigade that may be live, and what stands in it.
fn put_live<W: Write>(
    out: &mut TextWriter<W>,
    sign: &[u8],
    brigade: &BrigadeState,
) -> Result<(), WriteFault>
    ensures { Wrote result (writer_state W.contents out.old) (writer_state W.contents out.new) (live_text sign.now (seen_brigade brigade.now)) }
{
    if !brigade.live {
        return Ok(());
    }
    put_all(out, sign)?;
    put_if(out, brigade.usable, b"u")?;
    put_if(out, brigade.passed, b"p")?;
    put_usable(out, brigade)
}

fn put_pool<W: Write>(
    out: &mut TextWriter<W>,
    number: u8,
    pool: PoolState,
) -> Result<(), WriteFault>
    ensures { Wrote result (writer_state W.contents out.old) (writer_state W.contents out.new) (pool_text number pool) }
{
    put_numbered(out, b" p", number)?;
    put_all(out, b"=")?;
    put_set(out, pool.null, pool.gone, pool.live)
}

fn put_brigade<W: Write>(
    out: &mut TextWriter<W>,
    number: u8,
    brigade: &BrigadeState,
) -> Result<(), WriteFault>
    ensures { Wrote result (writer_state W.contents out.old) (writer_state W.contents out.new) (brigade_text number (seen_brigade brigade.now)) }
{
    put_numbered(out, b" b", number)?;
    put_all(out, b"=")?;
    put_set(out, brigade.null, brigade.gone, brigade.live)?;
    put_live(out, b"/", brigade)
}

fn put_brigade_name<W: Write>(out: &mut TextWriter<W>, number: u8) -> Result<(), WriteFault>
    ensures { Wrote result (writer_state W.contents out.old) (writer_state W.contents out.new) (brigade_name number) }
{
    if number == 8 {
        return put_all(out, b"in");
    }
    put_numbered(out, b"b", number)
}

fn put_cursor_name<W: Write>(out: &mut TextWriter<W>, number: u8) -> Result<(), WriteFault>
    ensures { Wrote result (writer_state W.contents out.old) (writer_state W.contents out.new) (cursor_name number) }
{
    if number == 8 {
        return put_all(out, b"rd");
    }
    put_numbered(out, b"c", number)
}

fn put_loose<W: Write>(
    out: &mut TextWriter<W>,
    classes: Classes,
    homes: &HomeSet,
) -> Result<(), WriteFault>
    ensures { Wrote result (writer_state W.contents out.old) (writer_state W.contents out.new) (place_text_of (Loose classes (seen_homes homes.now))) }
{
    put_all(out, b"loose/")?;
    put_classes(out, classes)?;
    put_all(out, b"/")?;
    put_homes(out, homes)
}

/// A brigade's name, a sign behind it, and classes.
fn put_place<W: Write>(
    out: &mut TextWriter<W>,
    brigade: u8,
    sign: &[u8],
    classes: Classes,
) -> Result<(), WriteFault>
    ensures { Wrote result (writer_state W.contents out.old) (writer_state W.contents out.new) (brigade_name brigade ++ (sign.now ++ classes_text classes)) }
{
    put_brigade_name(out, brigade)?;
    put_all(out, sign)?;
    put_classes(out, classes)
}

fn put_cursor_state<W: Write>(
    out: &mut TextWriter<W>,
    cursor: &CursorState,
) -> Result<(), WriteFault>
    ensures { Wrote result (writer_state W.contents out.old) (writer_state W.contents out.new) (place_text_of (seen_cursor cursor.now)) }
{
    match cursor {
        CursorState::Unset => Ok(()),
        CursorState::Loose(classes, homes) => put_loose(out, *classes, homes),
        CursorState::In(brigade, classes) => put_place(out, *brigade, b"/", *classes),
        CursorState::End(brigade) => {
            put_brigade_name(out, *brigade)?;
            put_all(out, b"$")
        }
        CursorState::InOrEnd(brigade, classes) => put_place(out, *brigade, b"?/", *classes),
    }
}

/// What is known of a cursor that is not unset.
fn put_cursor<W: Write>(
    out: &mut TextWriter<W>,
    number: u8,
    cursor: &CursorState,
) -> Result<(), WriteFault>
    ensures { Wrote result (writer_state W.contents out.old) (writer_state W.contents out.new) (cursor_text number (seen_cursor cursor.now)) }
{
    let set = cursor.is_set();
    if !set {
        return Ok(());
    }
    put_all(out, b" ")?;
    put_cursor_name(out, number)?;
    put_all(out, b"=")?;
    put_cursor_state(out, cursor)
}

/// That two cursors are at different buckets, where it is written.
fn put_fact<W: Write>(
    out: &mut TextWriter<W>,
    state: &State,
    c: u8,
    d: u8,
) -> Result<(), WriteFault>
    ensures { Wrote result (writer_state W.contents out.old) (writer_state W.contents out.new) (fact_text (seen state.now) c d) }
{
    let rises = (c < d) & state.fact(c, d);
    if !rises {
        return Ok(());
    }
    put_all(out, b" ")?;
    put_cursor_name(out, c)?;
    put_all(out, b"!")?;
    put_cursor_name(out, d)
}

fn put_pools<W: Write>(out: &mut TextWriter<W>, state: &State) -> Result<(), WriteFault>
    ensures { Wrote result (writer_state W.contents out.old) (writer_state W.contents out.new) (each 0 (seen state.now).pool_count (λ q. pool_text q ((seen state.now).pools q))) }
{
    for q in 0..state.pool_count() {
        put_pool(out, q, state.pool(q))?;
    }
    Ok(())
}

fn put_brigades<W: Write>(out: &mut TextWriter<W>, state: &State) -> Result<(), WriteFault>
    ensures { Wrote result (writer_state W.contents out.old) (writer_state W.contents out.new) (each 0 (seen state.now).brigade_count (λ b. brigade_text b ((seen state.now).brigades b))) }
{
    for b in 0..state.brigade_count() {
        put_brigade(out, b, &state.brigade(b))?;
    }
    Ok(())
}

fn put_cursors<W: Write>(out: &mut TextWriter<W>, state: &State) -> Result<(), WriteFault>
    ensures { Wrote result (writer_state W.contents out.old) (writer_state W.contents out.new) (each 0 9 (λ c. cursor_text c ((seen state.now).cursors c))) }
{
    for c in 0..9u8 {
        put_cursor(out, c, &state.cursor(c))?;
    }
    Ok(())
}

fn put_facts_of<W: Write>(out: &mut TextWriter<W>, state: &State, c: u8) -> Result<(), WriteFault>
    ensures { Wrote result (writer_state W.contents out.old) (writer_state W.contents out.new) (facts_text (seen state.now) c) }
{
    for d in 0..9u8 {
        put_fact(out, state, c, d)?;
    }
    Ok(())
}

fn put_facts<W: Write>(out: &mut TextWriter<W>, state: &State) -> Result<(), WriteFault>
    ensures { Wrote result (writer_state W.contents out.old) (writer_state W.contents out.new) (each 0 9 (facts_text (seen state.now))) }
{
    for c in 0..9u8 {
        put_facts_of(out, state, c)?;
    }
    Ok(())
}

fn sent_text(sent: bool) -> &'static [u8]
    ensures { result.now ≡ sent_text sent }
{
    if sent { b"sent=maybe" } else { b"sent=no" }
}

/// The words of a state, one space between them.
pub(crate) fn put_state<W: Write>(out: &mut TextWriter<W>, state: &State) -> Result<(), WriteFault>
    ensures { Wrote result (writer_state W.contents out.old) (writer_state W.contents out.new) (state_text (seen state.now)) }
{
    put_all(out, sent_text(state.sent()))?;
    put_pools(out, state)?;
    put_brigades(out, state)?;
    put_live(out, b" in=", &state.brigade(8))?;
    put_cursors(out, state)?;
    put_facts(out, state)
}
