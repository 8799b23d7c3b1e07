//! States from their texts. Each part is read from the front, in the order in which the parts are written. Of the text of a
//! state in form each part is read as it was written; of another text some state is read, and nothing is refused: `read_state` then
//! compares the text with that of this state.

ghost use Rattle.std.specs.Prelude.{◌≡◌, ◌∷◌, ◌<◌, ◌≤◌, [], true, codes, IfErr, IfOk};
ghost use Rattle.life_cert.specs.Prelude.{seen_some, state_text, IsReadState};
ghost use Rattle.life_cert.specs.declared.refusal.CertRefusal.TheVariants.{NoMemory};
ghost use Rattle.life_cert.specs.Prelude.{seen, seen_brigade, seen_cursor, seen_homes, cursor_name, IsToldState, starts, at_pools, at_past, at_read, behind_name, classes_past, classes_read};
ghost use Rattle.life_cert.specs.Prelude.{content_read, cursor_past, cursor_read, fact_past, fact_word, homes_past, homes_read, in_past, in_read, key, live_past, live_read, loose_past, loose_read};
ghost use Rattle.life_cert.specs.Prelude.{number_in, own_past, own_read, place_past, place_read, pool_past, pool_read, row_past, set_past, set_read, told_brigades, told_cursors, told_facts};
ghost use Rattle.life_cert.specs.Prelude.{told_pools, told_row, past_three, three_there, past_cursors, past_brigades, past_pools, brigades_there, pools_there};

use crate::print_state::put_state;
use crate::refusal::CertRefusal;
use crate::unread::Unread;
use byte_text::{TextWriter, begins, is_text};
use life_state::{
    BrigadeState, Classes, Contents, CursorState, HomeSet, PoolSet, PoolState, State, at_open,
};
use std::alloc::Global;

/// Three words in turn, each of which may stand there: which do.
fn take_three(
    unread: &mut Unread<'_>,
    first: &[u8],
    second: &[u8],
    third: &[u8],
) -> (bool, bool, bool)
    ensures value { result ≡ three_there first.now second.now third.now unread.old.bytes.now }
    ensures rest { unread.new.bytes.now ≡ past_three first.now second.now third.now unread.old.bytes.now }
{
    let first = unread.take(first);
    let second = unread.take(second);
    let third = unread.take(third);
    (first, second, third)
}

/// `ngl`: what a variable may be.
fn read_set(unread: &mut Unread<'_>) -> PoolState
    ensures value { result ≡ set_read unread.old.bytes.now }
    ensures rest { unread.new.bytes.now ≡ set_past unread.old.bytes.now }
{
    let (null, gone, live) = take_three(unread, b"n", b"g", b"l");
    PoolState { null, gone, live }
}

/// `dfe`: which kinds a bucket may be of.
fn read_classes(unread: &mut Unread<'_>) -> Classes
    ensures value { result ≡ classes_read unread.old.bytes.now }
    ensures rest { unread.new.bytes.now ≡ classes_past unread.old.bytes.now }
{
    let (bytes, flush, eos) = take_three(unread, b"d", b"f", b"e");
    Classes { bytes, flush, eos }
}

/// The names of homes, with commas between them; a dash for none.
fn read_homes(unread: &mut Unread<'_>) -> HomeSet
    ensures value { seen_homes result ≡ homes_read unread.old.bytes.now }
    ensures rest { unread.new.bytes.now ≡ homes_past unread.old.bytes.now }
{
    let call = unread.take_next(false, b"call");
    let req = unread.take_next(call, b"req");
    let mut any = call | req;
    let mut own = [false; 8];
    for q in 0..8u8 {
        let found = unread.take_next(any, &[b'p', b'0' + q]);
        own[usize::from(q)] = found;
        any |= found;
    }
    let dead = unread.take_next(any, b"dead");
    let none = !(any | dead);
    if none {
        unread.skip(b"-");
    }
    HomeSet {
        call,
        dead,
        pools: PoolSet { req, own },
    }
}

#[tactic(auto, using(crate::proofs::StateWords::content_by_letter))]
fn content_of(letter: &[u8]) -> Contents
    ensures { result ≡ content_read letter.now }
{
    if begins(letter, b'f') {
        Contents::Flushes
    } else if begins(letter, b'n') {
        Contents::NoEos
    } else if begins(letter, b'o') {
        Contents::NoLateData
    } else if begins(letter, b'a') {
        Contents::Any
    } else {
        Contents::Empty
    }
}

/// The marks of a brigade that may be live, and where it may be usable, what stands in it.
#[tactic(auto, unfolding(crate::specs::StateFromText::live_read, crate::specs::StateFromText::live_past))]
fn read_live(unread: &mut Unread<'_>, null: bool, gone: bool) -> BrigadeState
    ensures value { seen_brigade result ≡ live_read null gone unread.old.bytes.now }
    ensures rest { unread.new.bytes.now ≡ live_past unread.old.bytes.now }
{
    let usable = unread.take(b"u");
    let passed = unread.take(b"p");
    let mut brigade = BrigadeState {
        null,
        gone,
        live: true,
        usable,
        passed,
        ..BrigadeState::UNMADE
    };
    if usable {
        unread.skip(b"/");
        brigade.content = content_of(unread.bytes);
        unread.skip(b"e");
        unread.skip(b"/");
        brigade.homes = read_homes(unread);
    }
    brigade
}

/// A pool's word. Its number is not looked at.
fn read_pool(unread: &mut Unread<'_>) -> PoolState
    ensures value { result ≡ pool_read unread.old.bytes.now }
    ensures rest { unread.new.bytes.now ≡ pool_past unread.old.bytes.now }
{
    unread.skip(b" p0=");
    read_set(unread)
}

/// A brigade's word. Its number is not looked at.
#[tactic(auto, unfolding(crate::specs::StateFromText::own_read, crate::specs::StateFromText::own_past))]
fn read_brigade(unread: &mut Unread<'_>) -> BrigadeState
    ensures value { seen_brigade result ≡ own_read unread.old.bytes.now }
    ensures rest { unread.new.bytes.now ≡ own_past unread.old.bytes.now }
{
    unread.skip(b" b0=");
    let set = read_set(unread);
    if set.live {
        unread.skip(b"/");
        return read_live(unread, set.null, set.gone);
    }
    BrigadeState {
        null: set.null,
        gone: set.gone,
        ..BrigadeState::UNMADE
    }
}

/// The word of `in`, if it stands there.
fn read_in(unread: &mut Unread<'_>) -> BrigadeState
    ensures value { seen_brigade result ≡ in_read unread.old.bytes.now }
    ensures rest { unread.new.bytes.now ≡ in_past unread.old.bytes.now }
{
    if unread.take(b" in=") {
        read_live(unread, false, false)
    } else {
        BrigadeState::UNMADE
    }
}

/// The number that the second byte of a name tells, where this byte tells 8.
fn read_number(unread: &mut Unread<'_>, eight: u8) -> u8
    ensures value { result ≡ number_in eight unread.old.bytes.now }
    ensures rest { unread.new.bytes.now ≡ behind_name unread.old.bytes.now }
{
    let name = unread.bytes;
    unread.skip(b"b0");
    if name.len() < 2 {
        return 0;
    }
    if name[1] == eight {
        8
    } else {
        name[1].saturating_sub(b'0')
    }
}

/// What stands behind the name of the brigade that a cursor is in.
#[tactic(auto, unfolding(crate::specs::StateFromText::at_read, crate::specs::StateFromText::at_past))]
fn read_place_in(unread: &mut Unread<'_>, brigade: u8) -> CursorState
    ensures value { seen_cursor result ≡ at_read brigade unread.old.bytes.now }
    ensures rest { unread.new.bytes.now ≡ at_past unread.old.bytes.now }
{
    if unread.take(b"$") {
        return CursorState::End(brigade);
    }
    if unread.take(b"?/") {
        return CursorState::InOrEnd(brigade, read_classes(unread));
    }
    unread.skip(b"/");
    CursorState::In(brigade, read_classes(unread))
}

fn read_loose(unread: &mut Unread<'_>) -> CursorState
    ensures value { seen_cursor result ≡ loose_read unread.old.bytes.now }
    ensures rest { unread.new.bytes.now ≡ loose_past unread.old.bytes.now }
{
    let classes = read_classes(unread);
    unread.skip(b"/");
    CursorState::Loose(classes, read_homes(unread))
}

/// Where a cursor is.
#[tactic(auto, unfolding(crate::specs::StateFromText::place_read, crate::specs::StateFromText::place_past))]
fn read_place(unread: &mut Unread<'_>) -> CursorState
    ensures value { seen_cursor result ≡ place_read unread.old.bytes.now }
    ensures rest { unread.new.bytes.now ≡ place_past unread.old.bytes.now }
{
    if unread.take(b"loose/") {
        return read_loose(unread);
    }
    let brigade = read_number(unread, b'n');
    read_place_in(unread, brigade)
}

/// The two bytes of a cursor's name.
#[tactic(auto, using(std::proofs::lemmas::Fmt::decimal_digit))]
fn name_of(cursor: u8) -> (u8, u8)
    requires { cursor < 9 }
    ensures { cursor_name cursor ≡ result.0 ∷ (result.1 ∷ []) }
{
    if cursor == 8 {
        (b'r', b'd')
    } else {
        (b'c', b'0' + cursor)
    }
}

/// A cursor's word, if it stands there.
fn read_cursor(unread: &mut Unread<'_>, cursor: u8) -> CursorState
    requires { cursor < 9 }
    ensures value { seen_cursor result ≡ cursor_read cursor unread.old.bytes.now }
    ensures rest { unread.new.bytes.now ≡ cursor_past cursor unread.old.bytes.now }
{
    let (letter, digit) = name_of(cursor);
    let key = [b' ', letter, digit, b'='];
    if !unread.has(&key) {
        return CursorState::Unset;
    }
    unread.skip(&key);
    read_place(unread)
}

/// The word of a fact, if it stands there.
fn take_fact(unread: &mut Unread<'_>, c: u8, d: u8) -> bool
    requires first { c < 9 }
    requires second { d < 9 }
    ensures value { result ≡ starts (fact_word c d) unread.old.bytes.now }
    ensures rest { unread.new.bytes.now ≡ fact_past c d unread.old.bytes.now }
{
    let (letter, digit) = name_of(c);
    let (other, number) = name_of(d);
    unread.take(&[b' ', letter, digit, b'!', other, number])
}

/// Whether an EOS of this request may have been passed.
fn read_sent(unread: &mut Unread<'_>) -> bool
    ensures value { result ≡ starts (codes "sent=maybe") unread.old.bytes.now }
    ensures rest { unread.new.bytes.now ≡ at_pools unread.old.bytes.now }
{
    let sent = unread.take(b"sent=maybe");
    if !sent {
        unread.skip(b"sent=no");
    }
    sent
}

/// Goes past the words of pools, and tells how many there are.
fn count_pools(unread: &mut Unread<'_>) -> u8
    ensures value { result ≡ pools_there unread.old.bytes.now }
    ensures rest { unread.new.bytes.now ≡ past_pools unread.old.bytes.now }
    ensures few { result ≤ 8 }
{
    for count in 0..8u8 {
        if !unread.has(b" p") {
            return count;
        }
        read_pool(unread);
    }
    8
}

/// Goes past the words of brigades, and tells how many there are.
fn count_brigades(unread: &mut Unread<'_>) -> u8
    ensures value { result ≡ brigades_there unread.old.bytes.now }
    ensures rest { unread.new.bytes.now ≡ past_brigades unread.old.bytes.now }
    ensures few { result ≤ 8 }
{
    for count in 0..8u8 {
        if !unread.has(b" b") {
            return count;
        }
        read_brigade(unread);
    }
    8
}

fn read_pools(state: &mut State, words: Unread<'_>)
    requires { (seen state.old).pool_count ≤ 8 }
    ensures { seen state.new ≡ told_pools words.entry.bytes.now (seen state.old) }
{
    let mut unread = words;
    for q in 0..state.pool_count() {
        let pool = read_pool(&mut unread);
        state.set_pool(q, pool);
    }
}

fn read_brigades(state: &mut State, words: Unread<'_>)
    requires { (seen state.old).brigade_count ≤ 8 }
    ensures { seen state.new ≡ told_brigades words.entry.bytes.now (seen state.old) }
{
    let mut unread = words;
    for b in 0..state.brigade_count() {
        let brigade = read_brigade(&mut unread);
        state.set_brigade(b, brigade);
    }
}

fn read_cursors(state: &mut State, unread: &mut Unread<'_>)
    ensures value { seen state.new ≡ told_cursors unread.old.bytes.now (seen state.old) }
    ensures rest { unread.new.bytes.now ≡ past_cursors unread.old.bytes.now }
{
    for c in 0..9u8 {
        let cursor = read_cursor(unread, c);
        state.put_cursor(c, cursor);
    }
}

/// The facts of a cursor with each cursor.
fn read_facts_of(state: &mut State, unread: &mut Unread<'_>, c: u8)
    requires { c < 9 }
    ensures value { seen state.new ≡ told_row c unread.old.bytes.now (seen state.old) }
    ensures rest { unread.new.bytes.now ≡ row_past c unread.old.bytes.now }
{
    for d in 0..9u8 {
        if take_fact(unread, c, d) {
            state.add_fact(c, d);
        }
    }
}

fn read_facts(state: &mut State, words: Unread<'_>)
    ensures { seen state.new ≡ told_facts words.entry.bytes.now (seen state.old) }
{
    let mut unread = words;
    for c in 0..9u8 {
        read_facts_of(state, &mut unread, c);
    }
}

/// The state that a text tells, where it is the text of one in form; else some state.
fn told_state(text: &[u8]) -> State
    ensures { IsToldState text.now (seen result) }
{
    let mut unread = Unread { bytes: text };
    let sent = read_sent(&mut unread);
    let pools = unread;
    let pool_count = count_pools(&mut unread);
    let brigades = unread;
    let brigade_count = count_brigades(&mut unread);
    let mut state = at_open(pool_count, brigade_count);
    state.set_sent(sent);
    read_pools(&mut state, pools);
    read_brigades(&mut state, brigades);
    state.set_brigade(8, read_in(&mut unread));
    read_cursors(&mut state, &mut unread);
    read_facts(&mut state, unread);
    state
}

fn is_state_text(alloc: Global, state: &State, text: &[u8]) -> Result<bool, CertRefusal>
    ensures right { IfOk result (λ b. b ≡ true → text.now ≡ state_text (seen state.now)) }
    ensures whole { IfOk result (λ b. text.now ≡ state_text (seen state.now) → b ≡ true) }
    ensures err { IfErr result (λ e. e ≡ NoMemory) }
{
    let mut out = TextWriter::new(Vec::new(alloc));
    match put_state(&mut out, state) {
        Ok(()) => {
            let printed = out.into_writer();
            Ok(is_text(text, printed.as_slice()))
        }
        Err(_) => Err(CertRefusal::NoMemory),
    }
}

/// The state that is written so, if it is one.
pub(crate) fn read_state(alloc: Global, text: &[u8]) -> Result<Option<State>, CertRefusal>
    ensures right { IfOk result (λ o. IsReadState text.now (seen_some o)) }
    ensures err { IfErr result (λ e. e ≡ NoMemory) }
{
    let state = told_state(text);
    let is_formed = state.is_formed();
    let is_written = is_state_text(alloc, &state, text)?;
    if is_formed & is_written {
        Ok(Some(state))
    } else {
        Ok(None)
    }
}
