//! A client of many that are served by turns.

ghost use Rattle.std.specs.Prelude.{◌<◌, length};
ghost use Rattle.http_front.specs.Driven.{IsAlive};

use crate::head_reader::Deadline;
use crate::request_log::{RequestLog, log_where};
use crate::socket::Socket;
use crate::system_clock::SystemClock;
use byte_streams::{Sink, SocketSink, Source, StdSource};
use filter_chain::{Files, Host, Rings, Stored};
use http_front::{
    Clock as TellsTime, FrontFault, FrontKind, HttpConn, Next, RequestTask, Served, Site, Turned,
};
use mio::net::TcpStream;
use std::io::{ErrorKind, Read};
use std::net::{Shutdown, SocketAddr};
use std::rt::Clock;
use std::time::{Duration, Instant};

/// How long a client that is answered may go on to send.
const LINGER_MILLIS: u64 = 1000;

/// How many reads what it sends may take.
const LINGER_READS: u32 = 64;

/// How many moves a client makes in one turn: it reads, answers, writes, looks at what is left, and reads again.
const MOVES: u32 = 5;

/// What a turn comes to.
#[derive(Clone, Copy)]
pub enum TurnOutcome {
    /// It can go on.
    Again,
    /// It waits for its socket.
    Waits,
    /// It is over.
    Over,
}

/// What the turns of all clients share.
#[derive(Drop)]
pub struct SharedState<'a, R: Clock + Eprint + AllocGlobal> {
    pub runtime: &'a R,
    pub site: &'a Site,
    /// How long a head may take, a response to be taken, and an idle connection.
    pub patience: Duration,
    /// Whether requests and connections are logged.
    pub logs: bool,
    pub buffer: Vec<u8>,
    ghost room: { 0 < length buffer.items },
}

/// A client, from its acceptance to the close of its connection on the host.
#[derive(Drop)]
pub struct Client {
    pub stream: TcpStream,
    conn: HttpConn<RequestTask>,
    /// What the system reported of the socket, until a call said otherwise.
    pub readable: bool,
    pub writable: bool,
    /// Reads are tried until nothing is there, also behind a short one: the system reported that the peer sends no more, or urgent
    /// data, at which a read stops short.
    pub reads_on: bool,
    /// It stands in the queue.
    pub queued: bool,
    /// When it is to have moved.
    pub due: Instant,
    /// All is written, and what the client still sends is read and dropped: so many reads more.
    lingers: Option<u32>,
    /// It is served no more, and its connection on the host is still to be closed.
    pub gone: bool,
    /// Its number on the host, and as the program counts.
    pub host_number: u64,
    number: u64,
    peer: SocketAddr,
    deadline: Deadline,
}

/// A moment that much later.
pub fn later(now: Instant, by: Duration) -> Instant {
    now.checked_add(by).unwrap_or(now)
}

/// One turn of a connection of this number on the host, over its streams and a clock.
fn turn_conn<R, F, B, S, W, K>(
    conn: &mut HttpConn<RequestTask>,
    shared: &mut SharedState<'_, R>,
    host: &mut Host<F, B>,
    host_number: u64,
    source: &mut S,
    sink: &mut W,
    clock: &mut K,
) -> Result<Turned, FrontKind>
where
    R: Clock + Eprint + AllocGlobal,
    F: Files + Drop,
    B: Rings<Stored> + Drop,
    S: Source,
    W: Sink,
    K: TellsTime,
    requires { IsAlive F.device host.old }
    ensures { IsAlive F.device host.new }
{
    conn.turn(
        shared.runtime.alloc(),
        source,
        sink,
        shared.site,
        host,
        host_number,
        clock,
        shared.buffer.as_mut_slice(),
    )
}

impl Client {
    /// A client that was just taken.
    pub fn new<R: Clock + Eprint + AllocGlobal>(
        shared: &SharedState<'_, R>,
        stream: TcpStream,
        peer: SocketAddr,
        host_number: u64,
        number: u64,
        now: Instant,
    ) -> Client {
        Client {
            stream,
            conn: HttpConn::new(shared.runtime.alloc()),
            readable: true,
            writable: true,
            reads_on: false,
            queued: false,
            due: later(now, shared.patience),
            lingers: None,
            gone: false,
            host_number,
            number,
            peer,
            deadline: Deadline::new(shared.patience),
        }
    }

    /// Reads what is still sent, and drops it.
    fn linger(&mut self, buffer: &mut [u8], left: u32) -> TurnOutcome {
        if left == 0 {
            return TurnOutcome::Over;
        }
        if !self.readable {
            return TurnOutcome::Waits;
        }
        match Socket::new(&self.stream).read(buffer) {
            Ok(0) => TurnOutcome::Over,
            Ok(_) => {
                self.lingers = Some(left - 1);
                TurnOutcome::Again
            }
            Err(error) if error.kind() == ErrorKind::WouldBlock => {
                self.readable = false;
                TurnOutcome::Waits
            }
            Err(_) => TurnOutcome::Over,
        }
    }

    /// Ends sending, so that the last response is not lost: a socket that is closed with bytes unread takes back what is not yet delivered.
    fn end_sending(&mut self, now: Instant) -> TurnOutcome {
        if self.stream.shutdown(Shutdown::Write).is_err() {
            return TurnOutcome::Over;
        }
        self.due = later(now, Duration::from_millis(LINGER_MILLIS));
        self.lingers = Some(LINGER_READS);
        TurnOutcome::Again
    }

    /// What follows a turn of the connection.
    fn follow(&mut self, turned: Turned, patience: Duration, now: Instant) -> TurnOutcome {
        match turned {
            Turned::Moved => {
                if self.conn.next() == Next::Writes && !self.deadline.is_writing() {
                    self.deadline.begin_write();
                    self.due = later(now, patience);
                }
                TurnOutcome::Again
            }
            Turned::Sent => {
                self.deadline.renew();
                self.due = later(now, patience);
                TurnOutcome::Again
            }
            Turned::NoBytes => {
                self.readable = false;
                TurnOutcome::Waits
            }
            Turned::NoRoom => {
                self.writable = false;
                TurnOutcome::Waits
            }
            Turned::Over => self.end_sending(now),
        }
    }

    /// What follows a turn of the connection, of a read or not, or the fault that ended it.
    fn after_turn<R: Clock + Eprint + AllocGlobal>(
        &mut self,
        shared: &SharedState<'_, R>,
        turned: Result<Turned, FrontKind>,
        reads: bool,
        now: Instant,
    ) -> TurnOutcome {
        match turned {
            Ok(turned) => {
                if reads && turned == Turned::Moved {
                    self.deadline.note_bytes(Some(now));
                }
                self.follow(turned, shared.patience, now)
            }
            Err(kind) => {
                self.log_end(shared, Err(FrontFault { kind, left: None }));
                TurnOutcome::Over
            }
        }
    }

    /// Whether a request of it is under way. Its time is the host's, so no deadline of the client counts.
    pub fn works(&self) -> bool {
        self.conn.next() == Next::Works
    }

    /// Whether the socket is not ready for what the connection waits for.
    fn must_wait(&self) -> bool {
        match self.conn.next() {
            Next::Reads => !self.readable,
            Next::Writes => !self.writable,
            Next::Steps | Next::Works | Next::Over => false,
        }
    }

    /// One move: a read, a slice of a step, or a write.
    fn move_once<R: Clock + Eprint + AllocGlobal, F: Files + Drop, B: Rings<Stored> + Drop>(
        &mut self,
        shared: &mut SharedState<'_, R>,
        host: &mut Host<F, B>,
        now: Instant,
    ) -> TurnOutcome
        requires { IsAlive F.device host.old }
        ensures { IsAlive F.device host.new }
    {
        if let Some(left) = self.lingers {
            return self.linger(shared.buffer.as_mut_slice(), left);
        }
        if self.must_wait() {
            return TurnOutcome::Waits;
        }
        let reads = self.conn.next() == Next::Reads;
        let log = RequestLog {
            runtime: shared.runtime,
            deadline: &self.deadline,
            peer: self.peer,
            number: self.number,
        };
        let mut clock = SystemClock {
            runtime: shared.runtime,
            log: log_where(shared.logs, &log),
        };
        let mut source = StdSource::polled(Socket::new(&self.stream));
        let turned = turn_conn(
            &mut self.conn,
            shared,
            host,
            self.host_number,
            &mut source,
            &mut SocketSink::polled(Socket::new(&self.stream)),
            &mut clock,
        );
        // The system reports more bytes when they come.
        if source.reader.drained && !self.reads_on {
            self.readable = false;
        }
        self.after_turn(shared, turned, reads, now)
    }

    /// As many moves as one turn has. Behind a slice of a request that is then under way there is none.
    pub fn turn<R: Clock + Eprint + AllocGlobal, F: Files + Drop, B: Rings<Stored> + Drop>(
        &mut self,
        shared: &mut SharedState<'_, R>,
        host: &mut Host<F, B>,
        now: Instant,
    ) -> TurnOutcome
        requires { IsAlive F.device host.old }
        ensures { IsAlive F.device host.new }
    {
        for _ in 0..MOVES {
            let had_all = self.lingers.is_some();
            match self.move_once(shared, host, now) {
                TurnOutcome::Again => {
                    if !had_all && self.lingers.is_some() {
                        self.log_end(
                            shared,
                            Ok(Served {
                                requests: self.conn.requests(),
                            }),
                        );
                    }
                    if self.works() {
                        return TurnOutcome::Again;
                    }
                }
                other => return other,
            }
        }
        TurnOutcome::Again
    }

    /// Logs how it ended, where that is logged.
    fn log_end<R: Clock + Eprint + AllocGlobal>(
        &self,
        shared: &SharedState<'_, R>,
        outcome: Result<Served, FrontFault>,
    ) {
        if shared.logs {
            self.log(shared).log_end(outcome);
        }
    }

    fn log<'a, R: Clock + Eprint + AllocGlobal>(
        &'a self,
        shared: &SharedState<'a, R>,
    ) -> RequestLog<'a, R> {
        RequestLog {
            runtime: shared.runtime,
            deadline: &self.deadline,
            peer: self.peer,
            number: self.number,
        }
    }

    /// Its time is over.
    pub fn log_late<R: Clock + Eprint + AllocGlobal>(&self, shared: &SharedState<'_, R>) {
        if self.lingers.is_some() || self.gone {
            return;
        }
        let kind = match self.conn.next() {
            Next::Writes => FrontKind::Write,
            _ => FrontKind::Read,
        };
        self.deadline.pass();
        self.log_end(shared, Err(FrontFault { kind, left: None }));
    }
}
