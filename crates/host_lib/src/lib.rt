//! The proved host of filters for a server that is written in C: what `cidawru.h` declares.
//!
//! A handle is ready (`IsReadyHandle`) where it holds a session that is awake (`IsAwake`), or none. What C owes is that a handle which it gives to a
//! call is one of zeros, or as a call left it; each call leaves one that is ready. Of a handle that holds none each call answers `NO_SESSION`
//! and changes nothing (`OnSession`).
#![tactic(auto)]

ghost use Rattle.std.specs.Prelude.{◌≡◌, ◌≢◌, IfErr, IfOk, None};
ghost use Rattle.host_lib.specs.Awake.{IsAwake, IsReadyHandle};
ghost use Rattle.host_lib.specs.Making.{IsNewSession};
ghost use Rattle.host_lib.specs.Filters.{AreSet};
ghost use Rattle.host_lib.specs.Texts.{IsChainRefused};
ghost use Rattle.host_lib.specs.Calls.{DoesPiece, DoesBegin, DoesBring, DoesClose, DoesEnd, IsNoSession, DoesNew, OnSession, DoesOpen, DoesRun, DoesOutput, TellsNothing};

mod answers;
mod filter_texts;
mod handle;
mod loading;
mod loose;
mod pieces;
mod session;
mod told;

use answers::{DONE, FAULT, NO_SESSION, added, closed, done, refused, stepped};
use handle::Handle;
use loading::{LoadRefusal, TextLengths};
use session::HostSession;
use std::alloc::Global;
use told::{LoadTold, message, put_message};

/// A session of the chain of these texts, with the settings of these words, in a box.
fn made(
    alloc: Global,
    texts: &[u8],
    lengths: &[TextLengths],
    words: &[u8],
    word_lengths: &[usize],
    budget: u64,
) -> Result<Box<HostSession>, LoadRefusal>
    ensures made { IfOk result (λ b. IsNewSession texts.now lengths.now budget b.value) }
    ensures set { IfOk result (λ _. AreSet words.now word_lengths.now) }
    ensures refused { IfErr result (IsChainRefused texts.now lengths.now words.now word_lengths.now) }
    ensures awake { IfOk result (λ b. IsAwake b.value) }
{
    let session = HostSession::new(alloc, texts, lengths, words, word_lengths, budget)?;
    match Box::new(alloc, session) {
        Ok(session) => Ok(session),
        Err(_) => Err(LoadRefusal::NoMemory),
    }
}

/// Makes a session of the chain whose texts stand one after another, and sets params of its filters, as words that stand one after another say.
/// Where it is refused the handle holds what it held, and the buffer has the front of the message, if there is one.
#[unsafe(no_mangle)]
pub extern "C" fn cidawru_new(
    alloc: Global,
    handle: &mut Handle,
    texts: &[u8],
    lengths: &[TextLengths],
    words: &[u8],
    word_lengths: &[usize],
    budget: u64,
    told: &mut LoadTold,
    buffer: &mut [u8],
) -> bool
    requires { IsReadyHandle handle.old }
    ensures ready { IsReadyHandle handle.new }
    ensures makes { DoesNew texts.now lengths.now words.now word_lengths.now budget handle.old.slot.value handle.new.slot.value (told.new, buffer.old, buffer.new) result }
{
    if handle.held {
        *told = LoadTold::held();
        return false;
    }
    match made(alloc, texts, lengths, words, word_lengths, budget) {
        Ok(session) => {
            handle.put(session);
            *told = LoadTold::taken();
            true
        }
        Err(why) => {
            put_message(message(&why), buffer);
            *told = LoadTold::why(why);
            false
        }
    }
}

/// Ends the session, with all that it holds.
#[unsafe(no_mangle)]
pub extern "C" fn cidawru_free(alloc: Global, handle: &mut Handle)
    requires { IsReadyHandle handle.old }
    ensures ready { IsReadyHandle handle.new }
    ensures freed { handle.new.slot.value ≡ None }
{
    let _ = handle.take(alloc);
}

/// Opens a connection, and tells its number; 0 where it is refused.
#[unsafe(no_mangle)]
pub extern "C" fn cidawru_open(alloc: Global, handle: &mut Handle, number: &mut u64) -> u32
    requires { IsReadyHandle handle.old }
    ensures ready { IsReadyHandle handle.new }
    ensures opens { OnSession handle.old.slot.value handle.new.slot.value ((number.new ≡ 0) × IsNoSession result) (DoesOpen number.new result) }
    ensures faultless { result ≢ FAULT }
{
    *number = 0;
    let Some(mut session) = handle.take(alloc) else {
        return NO_SESSION;
    };
    let code = match session.open() {
        Ok(given) => {
            *number = given;
            DONE
        }
        Err(refusal) => refused(refusal),
    };
    handle.put(session);
    code
}

/// A request begins, without pieces.
#[unsafe(no_mangle)]
pub extern "C" fn cidawru_begin(alloc: Global, handle: &mut Handle, number: u64) -> u32
    requires { IsReadyHandle handle.old }
    ensures ready { IsReadyHandle handle.new }
    ensures begins { OnSession handle.old.slot.value handle.new.slot.value (IsNoSession result) (DoesBegin number result) }
    ensures faultless { result ≢ FAULT }
{
    let Some(mut session) = handle.take(alloc) else {
        return NO_SESSION;
    };
    let code = done(session.begin(number));
    handle.put(session);
    code
}

/// Adds a piece behind those that the connection is brought next.
#[unsafe(no_mangle)]
pub extern "C" fn cidawru_piece(
    alloc: Global,
    handle: &mut Handle,
    number: u64,
    kind: u32,
    bytes: &[u8],
) -> u32
    requires { IsReadyHandle handle.old }
    ensures ready { IsReadyHandle handle.new }
    ensures adds { OnSession handle.old.slot.value handle.new.slot.value (IsNoSession result) (DoesPiece number kind bytes.now result) }
    ensures faultless { result ≢ FAULT }
{
    let Some(mut session) = handle.take(alloc) else {
        return NO_SESSION;
    };
    let code = added(session.piece(number, kind, bytes));
    handle.put(session);
    code
}

/// Brings the pieces of the connection as one brigade.
#[unsafe(no_mangle)]
pub extern "C" fn cidawru_bring(alloc: Global, handle: &mut Handle, number: u64) -> u32
    requires { IsReadyHandle handle.old }
    ensures ready { IsReadyHandle handle.new }
    ensures brings { OnSession handle.old.slot.value handle.new.slot.value (IsNoSession result) (DoesBring number result) }
    ensures faultless { result ≢ FAULT }
{
    let Some(mut session) = handle.take(alloc) else {
        return NO_SESSION;
    };
    let code = done(session.bring(number));
    handle.put(session);
    code
}

/// Runs what was begun, by so many steps at most.
#[unsafe(no_mangle)]
pub extern "C" fn cidawru_run(alloc: Global, handle: &mut Handle, number: u64, most: u64) -> u32
    requires { IsReadyHandle handle.old }
    ensures ready { IsReadyHandle handle.new }
    ensures runs { OnSession handle.old.slot.value handle.new.slot.value (IsNoSession result) (DoesRun number most result) }
    ensures faultless { result ≢ FAULT }
{
    let Some(mut session) = handle.take(alloc) else {
        return NO_SESSION;
    };
    let code = stepped(session.run(number, most));
    handle.put(session);
    code
}

/// How many bytes of output there are. Where they fit into the buffer they are copied to its front, and taken.
#[unsafe(no_mangle)]
pub extern "C" fn cidawru_output(
    alloc: Global,
    handle: &mut Handle,
    number: u64,
    buffer: &mut [u8],
) -> usize
    requires { IsReadyHandle handle.old }
    ensures ready { IsReadyHandle handle.new }
    ensures tells { OnSession handle.old.slot.value handle.new.slot.value (TellsNothing buffer.old buffer.new result) (DoesOutput number buffer.old buffer.new result) }
{
    let Some(mut session) = handle.take(alloc) else {
        return 0;
    };
    let len = session.output(number, buffer);
    handle.put(session);
    len
}

/// The request ends.
#[unsafe(no_mangle)]
pub extern "C" fn cidawru_end(alloc: Global, handle: &mut Handle, number: u64) -> u32
    requires { IsReadyHandle handle.old }
    ensures ready { IsReadyHandle handle.new }
    ensures ends { OnSession handle.old.slot.value handle.new.slot.value (IsNoSession result) (DoesEnd number result) }
    ensures faultless { result ≢ FAULT }
{
    let Some(mut session) = handle.take(alloc) else {
        return NO_SESSION;
    };
    let code = done(session.end(number));
    handle.put(session);
    code
}

/// The connection is closed, in any state.
#[unsafe(no_mangle)]
pub extern "C" fn cidawru_close(alloc: Global, handle: &mut Handle, number: u64) -> u32
    requires { IsReadyHandle handle.old }
    ensures ready { IsReadyHandle handle.new }
    ensures closes { OnSession handle.old.slot.value handle.new.slot.value (IsNoSession result) (DoesClose number result) }
    ensures faultless { result ≢ FAULT }
{
    let Some(mut session) = handle.take(alloc) else {
        return NO_SESSION;
    };
    let code = closed(session.close(number));
    handle.put(session);
    code
}
