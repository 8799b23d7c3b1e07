//! The lines of the log, on the standard error.

use crate::head_reader::Deadline;
use filter_chain::{Cause, Refusal};
use http_front::{Exchange, Failure, FrontFault, FrontKind, Served};
use jiff::Timestamp;
use std::alloc::AllocError;
use std::net::SocketAddr;
use std::rt::Clock;
use std::time::SystemTime;
use std::{fmt, io};

/// The time in the form of RFC 3339, to the millisecond; a dash where the clock cannot be asked.
#[derive(Drop)]
struct Moment(Option<Timestamp>);

impl Moment {
    fn now(rt: &impl Clock) -> Moment {
        Moment(timestamp(rt))
    }
}

fn timestamp(rt: &impl Clock) -> Option<Timestamp> {
    let now = SystemTime::now(rt).ok()?;
    let since = now.duration_since(SystemTime::UNIX_EPOCH).ok()?;
    let millis = i64::try_from(since.as_millis()).ok()?;
    Timestamp::from_millisecond(millis).ok()
}

impl fmt::Display for Moment {
    fn fmt<W: fmt::Write>(&self, f: &mut fmt::Formatter<W>) -> fmt::Result {
        match &self.0 {
            Some(at) => write!(f, "{at:.3}"),
            None => f.write_str("-"),
        }
    }
}

/// Writes a line whole, by one call; without memory it is left out.
pub fn put_line(rt: &impl Eprint, line: Result<String, AllocError>) {
    if let Ok(line) = line {
        let _ = rt.eprint(line.as_str());
    }
}

/// Logs why no connection was taken.
pub fn log_refused<R: Clock + Eprint + AllocGlobal>(rt: &R, why: &io::Error) {
    let at = Moment::now(rt);
    put_line(rt, format!(in rt.alloc(); "{at} cannot accept: {why}\n"));
}

/// Logs that a connection was taken and could not be set up.
pub fn log_unready<R: Clock + Eprint + AllocGlobal>(
    rt: &R,
    peer: SocketAddr,
    number: u64,
    why: &io::Error,
) {
    let at = Moment::now(rt);
    let line = format!(in rt.alloc(); "{at} {peer} connection {number}: cannot be set up: {why}\n");
    put_line(rt, line);
}

/// How a connection ended before its end.
#[derive(Drop)]
struct End {
    kind: FrontKind,
    is_late: bool,
    is_idle: bool,
}

impl fmt::Display for End {
    fn fmt<W: fmt::Write>(&self, f: &mut fmt::Formatter<W>) -> fmt::Result {
        match self.kind {
            FrontKind::Read if self.is_idle => f.write_str("idle too long"),
            FrontKind::Read if self.is_late => f.write_str("no whole head in time"),
            FrontKind::Write if self.is_late => f.write_str("the response was not taken in time"),
            kind => write!(f, "{kind}"),
        }
    }
}

/// Logs the requests of a connection on the standard error.
#[derive(Drop)]
pub struct RequestLog<'a, R: Clock + Eprint + AllocGlobal> {
    pub runtime: &'a R,
    pub deadline: &'a Deadline,
    /// Who sends.
    pub peer: SocketAddr,
    /// The number of the connection, as the program counts them.
    pub number: u64,
}

/// The log, where requests are logged.
pub fn log_where<'a, R: Clock + Eprint + AllocGlobal>(
    logs: bool,
    log: &'a RequestLog<'a, R>,
) -> Option<&'a RequestLog<'a, R>> {
    if logs { Some(log) } else { None }
}

/// What may be done about a failure, as it stands behind its words; nothing, where that is not known.
pub fn failure_hint(failure: Failure) -> &'static str {
    match failure {
        Failure::Refused(Refusal::Broken(Cause::OutOfSteps)) => ", which --budget raises",
        _ => "",
    }
}

/// Why a status is 500, as it stands at the end of a line.
#[derive(Drop)]
struct Reason(Option<Failure>);

impl fmt::Display for Reason {
    fn fmt<W: fmt::Write>(&self, f: &mut fmt::Formatter<W>) -> fmt::Result {
        let Some(why) = self.0 else {
            return Ok(());
        };
        let hint = failure_hint(why);
        write!(f, ": {why}{hint}")
    }
}

/// What was sent, or a dash where nothing was.
fn or_dash(sent: &[u8]) -> &[u8] {
    if sent.is_empty() { b"-" } else { sent }
}

impl<R: Clock + Eprint + AllocGlobal> RequestLog<'_, R> {
    /// Logs a request: its method and target, the status, the bytes of the body and the microseconds since its last bytes came; and of a
    /// failure the cause.
    pub fn log(&self, exchange: &Exchange<'_>) {
        let at = Moment::now(self.runtime);
        let peer = self.peer;
        let number = self.number;
        let method = or_dash(exchange.method).escape_ascii();
        let target = or_dash(exchange.target).escape_ascii();
        let status = exchange.status;
        let size = exchange.size;
        let micros = self.deadline.taken(self.runtime).as_micros();
        let why = Reason(exchange.failure);
        let line = format!(in self.runtime.alloc();
            "{at} {peer} connection {number}: {method} {target}: {status}, {size} bytes, {micros} us{why}\n"
        );
        put_line(self.runtime, line);
    }

    /// Logs a connection: how many requests were answered, that it was idle too long, or why it ended.
    pub fn log_end(&self, outcome: Result<Served, FrontFault>) {
        let at = Moment::now(self.runtime);
        let peer = self.peer;
        let number = self.number;
        let alloc = self.runtime.alloc();
        let line = match outcome {
            Ok(served) => {
                let requests = served.requests;
                format!(in alloc; "{at} {peer} connection {number}: requests {requests}\n")
            }
            Err(fault) => {
                let why = End {
                    kind: fault.kind,
                    is_late: self.deadline.was_late(),
                    is_idle: self.deadline.was_idle(),
                };
                format!(in alloc; "{at} {peer} connection {number}: {why}\n")
            }
        };
        put_line(self.runtime, line);
    }
}
