//! Rows of requests.

use crate::modules::{FAILING, IDENTITY, LEAVER, POOL_BYTES};
use crate::pages::{BUDGET, MOMENT, Server, answers, show};
use anyhow::Result;
use filter_chain::{Rings, Stored};
use std::alloc::Global;

/// The server of most rows: its chain passes on what it gets.
pub(crate) const PLAIN: Server = Server {
    module: IDENTITY,
    budget: BUDGET,
    moment: MOMENT,
    fails_at: 0,
};

/// How the server of a row is other than `PLAIN`.
#[derive(Clone, Copy)]
enum Other {
    /// Its filter is this module.
    Module(&'static [u8]),
    /// Its connections break after so many instructions.
    Budget(u64),
    /// It is this moment.
    Moment(u64),
    /// The call on its files of this number fails: the first is an opening, the second a read for the output, and a short file does not
    /// need the third.
    FailsAt(u64),
}

/// The server of a row.
fn server(other: Other) -> Server {
    let mut server = PLAIN;
    match other {
        Other::Module(module) => server.module = module,
        Other::Budget(budget) => server.budget = budget,
        Other::Moment(moment) => server.moment = moment,
        Other::FailsAt(call) => server.fails_at = call,
    }
    server
}

/// The request of most rows.
pub(crate) const GET: &[u8] = b"GET /a HTTP/1.1\r\nHost: h\r\n\r\n";

/// A stream of requests.
#[derive(Clone, Copy)]
enum Stream {
    Text(&'static [u8]),
    /// A request by this method of this target, with so many fields behind its Host.
    Asks(&'static str, &'static str, u32),
}

/// What the server of most rows is asked.
const ROWS: &[(&str, Stream)] = &[
    // A GET has the file as its content, and a HEAD the same head alone.
    ("GET", Stream::Text(GET)),
    (
        "GET of an absolute target, encoded and with a query",
        Stream::Asks("GET", "http://h/%61?q", 0),
    ),
    ("HEAD", Stream::Asks("HEAD", "/a", 0)),
    ("nothing", Stream::Text(b"")),
    // A head that is none ends the connection: what follows it is not served.
    (
        "no Host, and a request behind it",
        Stream::Text(b"GET /a HTTP/1.1\r\n\r\nGET /a HTTP/1.1\r\nHost: h\r\n\r\n"),
    ),
    ("a target that is no path", Stream::Asks("GET", "a", 0)),
    // A head has 64 fields at most.
    ("64 fields behind the Host", Stream::Asks("GET", "/a", 64)),
    ("63 fields behind the Host", Stream::Asks("GET", "/a", 63)),
    // The content has a length, and the connection closes.
    ("HTTP/1.0", Stream::Text(b"GET /a HTTP/1.0\r\n\r\n")),
    // What is refused so does not end the connection.
    (
        "POST, BREW, no such path, and a GET",
        Stream::Text(
            b"POST /a HTTP/1.1\r\nHost: h\r\n\r\nBREW /a HTTP/1.1\r\nHost: h\r\n\r\nGET /b HTTP/1.1\r\nHost: h\r\n\r\nGET /a HTTP/1.1\r\nHost: h\r\n\r\n",
        ),
    ),
    (
        "a path whose file is not there",
        Stream::Asks("GET", "/m", 0),
    ),
    // Methods that the server knows, and does not allow.
    ("PUT", Stream::Asks("PUT", "/a", 0)),
    ("DELETE", Stream::Asks("DELETE", "/a", 0)),
    ("CONNECT", Stream::Asks("CONNECT", "/a", 0)),
    ("OPTIONS", Stream::Asks("OPTIONS", "/a", 0)),
    ("TRACE", Stream::Asks("TRACE", "/a", 0)),
    ("PATCH", Stream::Asks("PATCH", "/a", 0)),
    ("get", Stream::Asks("get", "/a", 0)),
    // A request with content is refused, and what follows it is not served.
    (
        "Content-Length: 3, and a request behind it",
        Stream::Text(
            b"GET /a HTTP/1.1\r\nHost: h\r\nContent-Length: 3\r\n\r\nabcGET /a HTTP/1.1\r\nHost: h\r\n\r\n",
        ),
    ),
    (
        "Content-Length: 0",
        Stream::Text(b"GET /a HTTP/1.1\r\nHost: h\r\nContent-Length: 0\r\n\r\n"),
    ),
    // An empty file has no chunk, and one of 65537 bytes is brought in two brigades.
    ("an empty file", Stream::Asks("GET", "/e", 0)),
    ("65537 bytes", Stream::Asks("GET", "/l", 0)),
];

/// What other servers are asked.
const OTHERS: &[(Other, &str, Stream)] = &[
    // A connection that breaks, a filter that fails, and a device that does.
    (
        Other::Budget(1),
        "a budget of one instruction",
        Stream::Text(GET),
    ),
    (
        Other::Module(FAILING),
        "a filter that fails",
        Stream::Text(GET),
    ),
    (
        Other::FailsAt(1),
        "a device that fails at the opening",
        Stream::Text(GET),
    ),
    (
        Other::FailsAt(2),
        "a device that fails at the read",
        Stream::Text(GET),
    ),
    (
        Other::FailsAt(3),
        "a device that fails behind it",
        Stream::Text(GET),
    ),
    // The content is what the chain makes of the file.
    (
        Other::Module(POOL_BYTES),
        "a filter that passes on bytes of its own, of an empty file",
        Stream::Asks("GET", "/e", 0),
    ),
    // The second brigade of a file goes past a filter that left at the first.
    (
        Other::Module(LEAVER),
        "a filter that puts a letter in front and leaves, of 65537 bytes",
        Stream::Asks("GET", "/l", 0),
    ),
    // After the year 9999 there is no Date.
    (
        Other::Moment(253_402_300_799),
        "the last moment of the year 9999",
        Stream::Text(GET),
    ),
    (
        Other::Moment(253_402_300_800),
        "the next",
        Stream::Text(GET),
    ),
];

/// A request by this method of this target, with so many fields behind its Host.
fn asked(alloc: Global, method: &str, target: &str, fields: u32) -> Result<String> {
    let mut request = format!(in alloc; "{method} {target} HTTP/1.1\r\nHost: h\r\n")?;
    for _ in 0..fields {
        request.push_str("A: b\r\n")?;
    }
    request.push_str("\r\n")?;
    Ok(request)
}

/// Serves a stream, and prints what is written.
fn show_row<B: Rings<Stored> + Drop>(
    rt: &HostRuntime,
    server: Server,
    what: &str,
    stream: Stream,
) -> Result<()> {
    match stream {
        Stream::Text(text) => show::<B>(rt, server, what, text),
        Stream::Asks(method, target, fields) => {
            let request = asked(rt.alloc(), method, target, fields)?;
            show::<B>(rt, server, what, request.as_bytes())
        }
    }
}

/// Tells what other servers answer.
fn show_others<B: Rings<Stored> + Drop>(rt: &HostRuntime) -> Result<()> {
    for (other, what, stream) in OTHERS {
        show_row::<B>(rt, server(*other), what, *stream)?;
    }
    Ok(())
}

/// Tells the rows one after another.
pub(crate) fn show_rows<B: Rings<Stored> + Drop>(rt: &HostRuntime) -> Result<()> {
    for (what, stream) in ROWS {
        show_row::<B>(rt, PLAIN, what, *stream)?;
    }
    show_others::<B>(rt)
}

/// Tells what a request that is cut is answered.
fn show_cut<B: Rings<Stored> + Drop>(rt: &HostRuntime, cut: &[u8]) -> Result<()> {
    let what = format!(in rt.alloc(); "a GET cut to {} bytes", cut.len())?;
    show::<B>(rt, PLAIN, what.as_str(), cut)
}

/// A request that is cut is answered 400, unless nothing of it came. The answer is told where it is another than that to a byte less.
pub(crate) fn cut_requests<B: Rings<Stored> + Drop>(rt: &HostRuntime) -> Result<()> {
    let alloc = rt.alloc();
    let mut last = Vec::new(alloc);
    for len in 0..=GET.len() {
        let (_, written) = answers::<B>(alloc, PLAIN, &GET[..len])?;
        if len == 0 || written.as_slice() != last.as_slice() {
            show_cut::<B>(rt, &GET[..len])?;
        }
        last = written;
    }
    Ok(())
}
