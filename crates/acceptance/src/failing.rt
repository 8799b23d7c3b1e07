//! Rows of streams that are slow, fail, or never end: of `serve`, and of the calls that play a script or answer a text.

use crate::modules::{IDENTITY, IDENTITY_CERT};
use crate::pages::serve_all;
use crate::requests::{GET, PLAIN};
use crate::streams::{Feed, Taker};
use anyhow::Result;
use byte_streams::{CountedSource, READS, Sink, Source};
use filter_chain::{Rings, Stored};
use http_front::FrontKind;
use module_commands::{
    Ended, PlayFault, run_assemble, run_certify, run_check, run_new, run_upgrade,
};
use script_play::run_play;
use std::alloc::Global;

/// A call that reads a text and writes an answer.
#[derive(Clone, Copy, Debug)]
enum StreamCall {
    /// Requests are served.
    Serve,
    /// A script is played.
    Play,
    /// A module is printed.
    Assemble,
    /// A certificate of it is made.
    Certify,
    /// The same, in its slim form.
    Slim,
    /// It is checked. The certificate is read from memory.
    Check,
    /// It is checked. The module is read from memory.
    CheckWith,
    /// Its certificate is printed in version 2. The module is read from memory.
    Upgrade,
    /// A module to begin with is written; nothing is read.
    New,
}

type Text = &'static [u8];

/// A call, how what it reads is called, a text, what comes after it, and what comes after both, again and again, where there is no end.
/// `CheckWith` and `Upgrade` read the certificate of `IDENTITY` in place of the text.
type Row = (StreamCall, &'static str, Text, Text, Text);

/// How many reads give nothing before each byte of a reader without an end: so it gives 50,000 bytes in all.
const PAUSES: u32 = 19;

const ROWS: &[Row] = &[
    (StreamCall::Serve, "two requests", GET, GET, GET),
    (
        StreamCall::Serve,
        "refusals, a HEAD and a GET",
        b"POST /a HTTP/1.1\r\nHost: h\r\n\r\nGET /b HTTP/1.1\r\nHost: h\r\n\r\nHEAD /a HTTP/1.1\r\nHost: h\r\n\r\n",
        GET,
        GET,
    ),
    (
        StreamCall::Serve,
        "a head that is none",
        b"GET /a HTTP/1.1\r\n\r\n",
        b"",
        GET,
    ),
    (
        StreamCall::Play,
        "a script",
        IDENTITY,
        b"open\nrun 1\nbegin 1\nrun 1\nbring 1 heap \"ab\" eos\nrun 1\noutput 1\n",
        b"labels 1\n",
    ),
    (
        StreamCall::Play,
        "a script with a line that is none",
        IDENTITY,
        b"open\nrun\n",
        b"labels 1\n",
    ),
    (StreamCall::Assemble, "a module", IDENTITY, b"", IDENTITY),
    (StreamCall::Certify, "a module", IDENTITY, b"", IDENTITY),
    (StreamCall::Slim, "a module", IDENTITY, b"", IDENTITY),
    (StreamCall::Check, "a module", IDENTITY, b"", IDENTITY),
    (StreamCall::CheckWith, "a certificate", b"", b"", IDENTITY),
    (StreamCall::Upgrade, "a certificate", b"", b"", IDENTITY),
    (StreamCall::New, "nothing", b"", b"", IDENTITY),
];

/// How a call ends.
#[derive(Clone, Copy, Debug, PartialEq, Eq)]
enum StreamEnd {
    Done,
    Refused,
    Read,
    Write,
    TooManyReads,
    /// A fault that no stream has, or one after which a connection is left.
    Other,
}

fn end_of(ended: Result<Ended, PlayFault>) -> StreamEnd {
    match ended {
        Ok(Ended::Done) => StreamEnd::Done,
        Ok(Ended::Refused) => StreamEnd::Refused,
        Err(PlayFault::Read) => StreamEnd::Read,
        Err(PlayFault::Write) => StreamEnd::Write,
        Err(PlayFault::NoMemory) => StreamEnd::Other,
    }
}

fn end_of_serve<B: Rings<Stored> + Drop, R: Source, W: Sink>(
    alloc: Global,
    reader: &mut CountedSource<R>,
    writer: &mut W,
) -> Result<StreamEnd> {
    match serve_all::<B, R, W>(alloc, PLAIN, reader, writer)? {
        Ok(_) => Ok(StreamEnd::Done),
        Err(fault) if fault.left.is_some() => Ok(StreamEnd::Other),
        Err(fault) => Ok(match fault.kind {
            FrontKind::Read => StreamEnd::Read,
            FrontKind::Write => StreamEnd::Write,
            FrontKind::TooManyReads => StreamEnd::TooManyReads,
            FrontKind::NoMemory | FrontKind::NamesSpent => StreamEnd::Other,
        }),
    }
}

/// Makes a call, and says how it ended.
fn ask<B: Rings<Stored> + Drop, R: Source + Drop, W: Sink>(
    alloc: Global,
    call: StreamCall,
    source: R,
    writer: &mut W,
) -> Result<StreamEnd> {
    let mut reader = CountedSource::new(source, READS);
    let mut module = CountedSource::new(IDENTITY, READS);
    let mut cert = CountedSource::new(IDENTITY_CERT.as_bytes(), READS);
    Ok(match call {
        StreamCall::Serve => end_of_serve::<B, _, _>(alloc, &mut reader, writer)?,
        StreamCall::Play => end_of(run_play(alloc, &mut reader, writer)),
        StreamCall::Assemble => end_of(run_assemble(alloc, &mut reader, writer)),
        StreamCall::Certify => end_of(run_certify(alloc, &mut reader, writer, false)),
        StreamCall::Slim => end_of(run_certify(alloc, &mut reader, writer, true)),
        StreamCall::Check => end_of(run_check(alloc, &mut reader, &mut cert, writer)),
        StreamCall::CheckWith => end_of(run_check(alloc, &mut module, &mut reader, writer)),
        StreamCall::Upgrade => end_of(run_upgrade(alloc, &mut module, &mut reader, writer)),
        StreamCall::New => end_of(run_new(writer)),
    })
}

/// A reader that gives a byte a read, and one that pauses before each byte and never ends: how the call ended, and what it wrote.
fn show_slow<B: Rings<Stored> + Drop>(
    rt: &HostRuntime,
    call: StreamCall,
    feed: Feed<'_>,
    taker: Taker<'_>,
) -> Result<()> {
    let slow = Feed { step: 1, ..feed };
    let mut writer = taker;
    let end = ask::<B, _, _>(rt.alloc(), call, Feed { again: b"", ..slow }, &mut writer)?;
    let is_same = writer.is_front && writer.due.is_empty();
    println!(rt; "  a byte a read: {end:?}, the same answer: {is_same}")?;
    let mut writer = taker;
    let endless = Feed {
        pauses: PAUSES,
        ..slow
    };
    let end = ask::<B, _, _>(rt.alloc(), call, endless, &mut writer)?;
    let count = taker.room.saturating_sub(writer.room);
    println!(rt; "  without an end: {end:?}, {count} bytes are written")?;
    Ok(())
}

/// The readers that fail after each number of bytes: how many calls reported it, wrote nothing, and wrote a front of the answer.
fn show_readers<B: Rings<Stored> + Drop>(
    rt: &HostRuntime,
    call: StreamCall,
    feed: Feed<'_>,
    taker: Taker<'_>,
) -> Result<()> {
    let (mut reported, mut silent, mut fronts) = (0u32, 0u32, 0u32);
    for fails_after in 0..=feed.text.len() {
        let mut writer = taker;
        let cut = Feed {
            fails_after,
            ..feed
        };
        let end = ask::<B, _, _>(rt.alloc(), call, cut, &mut writer)?;
        reported = reported.saturating_add((end == StreamEnd::Read) as u32);
        silent = silent.saturating_add((writer.room == taker.room) as u32);
        fronts = fronts.saturating_add(writer.is_front as u32);
    }
    println!(rt;
        "  the reader fails after 0 to {} bytes: {reported} reported it, {silent} wrote nothing, {fronts} a front",
        feed.text.len()
    )?;
    Ok(())
}

/// The writers that take each number of bytes below those of the answer: how many calls reported it, and wrote just so many bytes of the answer.
fn show_writers<B: Rings<Stored> + Drop>(
    rt: &HostRuntime,
    call: StreamCall,
    feed: Feed<'_>,
    taker: Taker<'_>,
) -> Result<()> {
    let (mut reported, mut fronts) = (0u32, 0u32);
    for room in 0..taker.due.len() {
        let mut writer = Taker { room, ..taker };
        let end = ask::<B, _, _>(rt.alloc(), call, feed, &mut writer)?;
        reported = reported.saturating_add((end == StreamEnd::Write) as u32);
        fronts = fronts.saturating_add((writer.is_front && writer.room == 0) as u32);
    }
    println!(rt;
        "  the writer fails after 0 bytes and on, up to {}: {reported} reported it, {fronts} wrote so many",
        taker.due.len()
    )?;
    Ok(())
}

/// A call that reads this text, with streams that are slow, fail, or never end. The answer is written where nothing is yet.
fn show_text<B: Rings<Stored> + Drop>(
    rt: &HostRuntime,
    row: Row,
    text: &[u8],
    answer: &mut Vec<u8>,
) -> Result<()> {
    let (call, what, _, _, again) = row;
    let end = ask::<B, _, _>(rt.alloc(), call, text, answer)?;
    let count = answer.len();
    println!(rt; "{call:?} of {what}: {end:?}, {count} bytes are written")?;
    let feed = Feed {
        text,
        again: b"",
        step: usize::MAX,
        pauses: 0,
        waited: 0,
        fails_after: usize::MAX,
        has_failed: false,
    };
    let taker = Taker {
        due: answer.as_slice(),
        room: usize::MAX,
        is_front: true,
        has_failed: false,
    };
    show_slow::<B>(rt, call, Feed { again, ..feed }, taker)?;
    show_readers::<B>(rt, call, feed, taker)?;
    show_writers::<B>(rt, call, feed, taker)
}

/// A call, with streams that are slow, fail, or never end.
fn show_row<B: Rings<Stored> + Drop>(rt: &HostRuntime, row: Row) -> Result<()> {
    let (call, _, before, then, _) = row;
    let begun = match call {
        StreamCall::CheckWith | StreamCall::Upgrade => IDENTITY_CERT.as_bytes(),
        _ => before,
    };
    let mut text = begun.to_vec(rt.alloc())?;
    text.extend_from_slice(then)?;
    let mut answer = Vec::new(rt.alloc());
    show_text::<B>(rt, row, text.as_slice(), &mut answer)
}

/// Each call, with streams that are slow, fail, or never end.
pub(crate) fn failing_streams<B: Rings<Stored> + Drop>(rt: &HostRuntime) -> Result<()> {
    for row in ROWS {
        show_row::<B>(rt, *row)?;
    }
    Ok(())
}
