//! Connections, one after another.

ghost use Rattle.http_front.specs.Driven.{IsAlive};

use crate::head_reader::{Deadline, HeadReader, ReplyWriter};
use crate::request_log::{RequestLog, log_refused, log_unready, log_where};
use crate::system_clock::SystemClock;
use crate::unclosed::UnclosedConns;
use byte_streams::{CountedSource, READS, SocketSink, StdSource};
use filter_chain::{Files, Host, Rings, Stored};
use http_front::{FrontFault, Served, Site, serve};
use std::io::{self, Read};
use std::net::{Shutdown, SocketAddr, TcpListener, TcpStream};
use std::rt::Clock;
use std::thread;
use std::time::{Duration, Instant};

/// How connections are served.
#[derive(Clone, Copy)]
pub struct ServeSettings {
    /// How many are served; none: as many as come until the program is stopped.
    pub conns: Option<u32>,
    /// How many are served at once.
    pub at_once: usize,
    /// How long a head may take, and a write.
    pub patience: Duration,
    /// Whether each is written on the standard error.
    pub logs: bool,
}

/// How many seconds a client that is answered may go on to send.
const DRAIN_SECONDS: u64 = 1;

/// How many reads what it sends may take.
const DRAIN_READS: u32 = 64;

/// Ends sending, and reads what the client sent meanwhile, so that the last response is not lost: a socket that is closed with bytes unread
/// takes back what is not yet delivered.
fn drain(rt: &impl Clock, stream: &TcpStream) -> io::Result<()> {
    stream.shutdown(Shutdown::Write)?;
    let start = Instant::now(rt)?;
    let mut buffer = [0; 8192];
    let mut reader = stream;
    for _ in 0..DRAIN_READS {
        let left = Duration::from_secs(DRAIN_SECONDS).saturating_sub(start.elapsed(rt)?);
        if left.is_zero() {
            return Ok(());
        }
        stream.set_read_timeout(Some(left))?;
        if reader.read(&mut buffer)? == 0 {
            return Ok(());
        }
    }
    Ok(())
}

fn set_up(stream: &TcpStream, patience: Duration) -> io::Result<()> {
    stream.set_nodelay(true)?;
    stream.set_write_timeout(Some(patience))
}

/// Serves a connection to its end. A fault ends it alone.
pub fn serve_stream<R: Clock + Eprint + AllocGlobal, F: Files + Drop, B: Rings<Stored> + Drop>(
    rt: &R,
    stream: &TcpStream,
    site: &Site,
    host: &mut Host<F, B>,
    deadline: &Deadline,
    log: Option<&RequestLog<'_, R>>,
) -> Result<Served, FrontFault>
    requires { IsAlive F.device host.old }
    ensures { IsAlive F.device host.new }
{
    let reader = HeadReader {
        runtime: rt,
        stream,
        deadline,
    };
    let writer = ReplyWriter { stream, deadline };
    let mut source = CountedSource::new(StdSource::new(reader), READS);
    let mut sink = SocketSink::new(writer);
    let mut clock = SystemClock { runtime: rt, log };
    serve(rt.alloc(), &mut source, &mut sink, site, host, &mut clock)
}

/// How many milliseconds the program waits where no connection could be taken.
const PAUSE_MILLIS: u64 = 100;

/// Serves a connection that was taken, and gives its number on the host where that could not be closed.
fn serve_accepted<R: Clock + Eprint + AllocGlobal, F: Files + Drop, B: Rings<Stored> + Drop>(
    rt: &R,
    stream: &TcpStream,
    site: &Site,
    host: &mut Host<F, B>,
    settings: ServeSettings,
    peer: SocketAddr,
    number: u64,
) -> Option<u64>
    requires { IsAlive F.device host.old }
    ensures { IsAlive F.device host.new }
{
    let deadline = Deadline::new(settings.patience);
    let log = RequestLog {
        runtime: rt,
        deadline: &deadline,
        peer,
        number,
    };
    if let Err(error) = set_up(stream, settings.patience) {
        if settings.logs {
            log_unready(rt, peer, number, &error);
        }
        return None;
    }
    let requests = log_where(settings.logs, &log);
    let outcome = serve_stream(rt, stream, site, host, &deadline, requests);
    if settings.logs {
        log.log_end(outcome);
    }
    let _ = drain(rt, stream);
    match outcome {
        Err(fault) => fault.left,
        Ok(_) => None,
    }
}

/// Serves connections one after another. One that cannot be taken is none.
pub fn serve_in_order<R: Clock + Eprint + AllocGlobal, F: Files + Drop, B: Rings<Stored> + Drop>(
    rt: &R,
    listener: &TcpListener,
    site: &Site,
    host: &mut Host<F, B>,
    settings: ServeSettings,
)
    requires { IsAlive F.device host.old }
{
    let most = match settings.conns {
        Some(0) => return,
        Some(conns) => u64::from(conns),
        None => u64::MAX,
    };
    let mut number = 0u64;
    let mut left = UnclosedConns::new();
    for _ in 0..u64::MAX {
        let (stream, peer) = match listener.accept() {
            Ok(taken) => taken,
            Err(error) => {
                if settings.logs {
                    log_refused(rt, &error);
                }
                thread::sleep(rt, Duration::from_millis(PAUSE_MILLIS));
                continue;
            }
        };
        number = number.saturating_add(1);
        if let Some(conn) = serve_accepted(rt, &stream, site, host, settings, peer, number) {
            left.add(conn);
        }
        left.close(host);
        if number == most {
            return;
        }
    }
}
