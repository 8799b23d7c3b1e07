//! Many connections on one thread, by turns.

ghost use Rattle.http_front.specs.Driven.{IsAlive};

use crate::client::{Client, SharedState, TurnOutcome, later};
use crate::listening::ServeSettings;
use crate::request_log::{log_refused, log_unready};
use filter_chain::{Files, Host, Rings, Stored};
use http_front::{Site, close_turns, open_turns};
use mio::event::Event;
use mio::net::{TcpListener, TcpStream};
use mio::{Events, Interest, Poll, Token};
use slab::Slab;
use std::collections::VecDeque;
use std::io::{self, ErrorKind};
use std::net::{Net, SocketAddr};
use std::rt::Clock;
use std::time::{Duration, Instant};

/// The token of the listener; those of the clients are their keys, which are below it.
const LISTENER: usize = 1 << 40;

/// How many reports a wait gives at most.
const REPORTS: usize = 256;

/// How many connections are taken in a row.
const TAKEN_IN_A_ROW: u32 = 64;

/// How often deadlines are looked at.
const SWEEP_MILLIS: u64 = 250;

/// How long no connection is taken where one could not be.
const PAUSE_MILLIS: u64 = 100;

/// The clients, and those whose turn it is.
#[derive(Drop)]
struct Clients {
    by_key: Slab<Client>,
    queue: VecDeque<usize>,
    late: Vec<usize>,
}

impl Clients {
    /// Takes note of what the system reported of a client.
    fn note(&mut self, key: usize, event: &Event) {
        let Some(client) = self.by_key.get_mut(key) else {
            return;
        };
        client.readable = client.readable || event.is_readable() || event.is_read_closed();
        client.writable = client.writable || event.is_writable();
        client.reads_on = client.reads_on || event.is_read_closed() || event.is_priority();
        self.wake(key);
    }

    /// A client gets its turn.
    fn wake(&mut self, key: usize) {
        let Some(client) = self.by_key.get_mut(key) else {
            return;
        };
        if !client.queued && self.queue.push_back(key).is_ok() {
            client.queued = true;
        }
    }

    /// A client takes a place and gets its turn. Answers whether there was memory for it.
    fn admit(&mut self, client: Client) -> bool {
        let Ok(key) = self.by_key.insert(client) else {
            return false;
        };
        self.wake(key);
        true
    }

    /// A client leaves. Where there is no memory to close its connection on the host, that is tried again at each sweep.
    fn leave<F: Files + Drop, B: Rings<Stored> + Drop>(&mut self, host: &mut Host<F, B>, key: usize)
        requires { IsAlive F.device host.old }
        ensures { IsAlive F.device host.new }
    {
        let Some(client) = self.by_key.get_mut(key) else {
            return;
        };
        if close_turns(host, client.host_number) {
            let _ = self.by_key.try_remove(key);
            return;
        }
        client.gone = true;
    }

    /// The turn of a client that was in the queue.
    fn serve_turn<R: Clock + Eprint + AllocGlobal, F: Files + Drop, B: Rings<Stored> + Drop>(
        &mut self,
        shared: &mut SharedState<'_, R>,
        host: &mut Host<F, B>,
        key: usize,
        now: Instant,
    )
        requires { IsAlive F.device host.old }
        ensures { IsAlive F.device host.new }
    {
        let Some(client) = self.by_key.get_mut(key) else {
            return;
        };
        client.queued = false;
        if client.gone {
            return;
        }
        match client.turn(shared, host, now) {
            TurnOutcome::Waits => {}
            TurnOutcome::Again => self.wake(key),
            TurnOutcome::Over => self.leave(host, key),
        }
    }

    /// The turns of those that are in the queue.
    fn go_round<R: Clock + Eprint + AllocGlobal, F: Files + Drop, B: Rings<Stored> + Drop>(
        &mut self,
        shared: &mut SharedState<'_, R>,
        host: &mut Host<F, B>,
        now: Instant,
    )
        requires { IsAlive F.device host.old }
        ensures { IsAlive F.device host.new }
    {
        for _ in 0..self.queue.len() {
            let Some(key) = self.queue.pop_front() else {
                return;
            };
            self.serve_turn(shared, host, key, now);
        }
    }

    /// Finds those that are too late.
    fn find_late<R: Clock + Eprint + AllocGlobal>(
        &mut self,
        shared: &SharedState<'_, R>,
        now: Instant,
    ) {
        self.late.clear();
        for (key, client) in self.by_key.iter() {
            if client.gone || (client.due <= now && !client.works()) {
                client.log_late(shared);
                let _ = self.late.push(key);
            }
        }
    }

    /// Sends away those that are too late.
    fn sweep<R: Clock + Eprint + AllocGlobal, F: Files + Drop, B: Rings<Stored> + Drop>(
        &mut self,
        shared: &SharedState<'_, R>,
        host: &mut Host<F, B>,
        now: Instant,
    )
        requires { IsAlive F.device host.old }
        ensures { IsAlive F.device host.new }
    {
        self.find_late(shared, now);
        for _ in 0..self.late.len() {
            let Some(key) = self.late.pop() else {
                return;
            };
            self.leave(host, key);
        }
    }

    /// Sends away those that are too late, where it was not done for a while. Answers when it was done last.
    fn sweep_in_time<R: Clock + Eprint + AllocGlobal, F: Files + Drop, B: Rings<Stored> + Drop>(
        &mut self,
        shared: &SharedState<'_, R>,
        host: &mut Host<F, B>,
        swept: Instant,
        now: Instant,
    ) -> Instant
        requires { IsAlive F.device host.old }
        ensures { IsAlive F.device host.new }
    {
        let due = Duration::from_millis(SWEEP_MILLIS);
        if now.checked_duration_since(swept).unwrap_or(due) < due {
            return swept;
        }
        self.sweep(shared, host, now);
        now
    }
}

/// The listener, and when it is asked again.
#[derive(Drop)]
struct Acceptor {
    listener: TcpListener,
    /// Somebody may wait there.
    open: bool,
    pause: Option<Instant>,
    /// How many are taken yet, and how many were, and may be there at once.
    left: u64,
    taken: u64,
    at_once: usize,
}

impl Acceptor {
    /// Whether nobody can be taken now.
    fn waits(&self, inside: usize) -> bool {
        !self.open || self.pause.is_some() || self.left == 0 || inside >= self.at_once
    }

    /// The next that waits; none where none can be taken now.
    fn next<R: Clock + Eprint + AllocGlobal>(
        &mut self,
        rt: &R,
        logs: bool,
        now: Instant,
    ) -> Option<(TcpStream, SocketAddr)> {
        match self.listener.accept() {
            Ok(taken) => {
                self.left = self.left.saturating_sub(1);
                self.taken = self.taken.saturating_add(1);
                Some(taken)
            }
            Err(error) if error.kind() == ErrorKind::WouldBlock => {
                self.open = false;
                None
            }
            Err(error) => {
                if logs {
                    log_refused(rt, &error);
                }
                self.pause = Some(later(now, Duration::from_millis(PAUSE_MILLIS)));
                None
            }
        }
    }

    /// The pause is over, where its time is.
    fn end_pause(&mut self, now: Instant) {
        if let Some(until) = self.pause {
            if now >= until {
                self.pause = None;
            }
        }
    }
}

/// Sets up the stream of a client that comes in: the system reports of it by its key. Answers its number on the host.
fn enter<F: Files + Drop, B: Rings<Stored> + Drop>(
    stream: &mut TcpStream,
    host: &mut Host<F, B>,
    poll: &Poll,
    key: usize,
) -> io::Result<u64>
    requires { IsAlive F.device host.old }
    ensures { IsAlive F.device host.new }
{
    stream.set_nodelay(true)?;
    poll.registry().register(
        stream,
        Token(key),
        Interest::READABLE | Interest::WRITABLE | Interest::PRIORITY,
    )?;
    match open_turns(host) {
        Ok(number) => Ok(number),
        Err(_) => Err(io::Error::from(ErrorKind::OutOfMemory)),
    }
}

/// A client comes in.
fn welcome<R: Clock + Eprint + AllocGlobal, F: Files + Drop, B: Rings<Stored> + Drop>(
    clients: &mut Clients,
    shared: &SharedState<'_, R>,
    host: &mut Host<F, B>,
    poll: &Poll,
    taken: (TcpStream, SocketAddr),
    number: u64,
    now: Instant,
) -> io::Result<()>
    requires { IsAlive F.device host.old }
    ensures { IsAlive F.device host.new }
{
    let (mut stream, peer) = taken;
    let host_number = enter(&mut stream, host, poll, clients.by_key.vacant_key())?;
    if clients.admit(Client::new(shared, stream, peer, host_number, number, now)) {
        return Ok(());
    }
    let _ = close_turns(host, host_number);
    Err(io::Error::from(ErrorKind::OutOfMemory))
}

/// Takes those that wait, as many as there are places.
fn take<R: Clock + Eprint + AllocGlobal, F: Files + Drop, B: Rings<Stored> + Drop>(
    acceptor: &mut Acceptor,
    clients: &mut Clients,
    shared: &SharedState<'_, R>,
    host: &mut Host<F, B>,
    poll: &Poll,
    now: Instant,
)
    requires { IsAlive F.device host.old }
    ensures { IsAlive F.device host.new }
{
    acceptor.end_pause(now);
    for _ in 0..TAKEN_IN_A_ROW {
        if acceptor.waits(clients.by_key.len()) {
            return;
        }
        let Some(taken) = acceptor.next(shared.runtime, shared.logs, now) else {
            continue;
        };
        let peer = taken.1;
        let number = acceptor.taken;
        if let Err(error) = welcome(clients, shared, host, poll, taken, number, now) {
            if shared.logs {
                log_unready(shared.runtime, peer, number, &error);
            }
        }
    }
}

/// How long the loop may wait: not at all where somebody's turn is, or somebody can be taken; to the next sweep where there is any client, or the
/// listener pauses.
fn patience_of(clients: &Clients, acceptor: &Acceptor) -> Option<Duration> {
    if !clients.queue.is_empty() || !acceptor.waits(clients.by_key.len()) {
        return Some(Duration::ZERO);
    }
    if clients.by_key.is_empty() && acceptor.pause.is_none() {
        return None;
    }
    Some(Duration::from_millis(SWEEP_MILLIS))
}

/// Takes note of what the system reports.
fn note(events: &Events, clients: &mut Clients, acceptor: &mut Acceptor) {
    for event in events.iter() {
        let Token(key) = event.token();
        if key == LISTENER {
            acceptor.open = true;
        } else {
            clients.note(key, event);
        }
    }
}

/// Waits for what the system reports. A wait that a signal interrupts reports nothing.
fn wait(poll: &mut Poll, events: &mut Events, most: Option<Duration>) -> io::Result<()> {
    match poll.poll(events, most) {
        Err(error) if error.kind() != ErrorKind::Interrupted => Err(error),
        _ => Ok(()),
    }
}

/// Serves clients by turns, and those that come in, until all are served.
fn serve_clients<R: Clock + Eprint + AllocGlobal, F: Files + Drop, B: Rings<Stored> + Drop>(
    clients: &mut Clients,
    shared: &mut SharedState<'_, R>,
    host: &mut Host<F, B>,
    poll: &mut Poll,
    events: &mut Events,
    acceptor: &mut Acceptor,
) -> io::Result<()>
    requires { IsAlive F.device host.old }
{
    let mut swept = Instant::now(shared.runtime)?;
    for _ in 0..u64::MAX {
        if acceptor.left == 0 && clients.by_key.is_empty() {
            return Ok(());
        }
        let most = patience_of(clients, acceptor);
        wait(poll, events, most)?;
        note(events, clients, acceptor);
        let now = Instant::now(shared.runtime)?;
        take(acceptor, clients, shared, host, poll, now);
        clients.go_round(shared, host, now);
        swept = clients.sweep_in_time(shared, host, swept, now);
    }
    Ok(())
}

/// The listener of these settings, of which nobody is accepted yet.
fn acceptor_of(listener: TcpListener, settings: ServeSettings) -> Acceptor {
    Acceptor {
        listener,
        open: true,
        pause: None,
        left: match settings.conns {
            Some(conns) => u64::from(conns),
            None => u64::MAX,
        },
        taken: 0,
        at_once: settings.at_once,
    }
}

/// Serves connections by turns, up to so many at once. One that cannot be taken is none. It fails only where the system reports no events.
pub fn serve_by_turns<
    R: Clock + Eprint + AllocGlobal + Net,
    F: Files + Drop,
    B: Rings<Stored> + Drop,
>(
    rt: &R,
    listener: TcpListener,
    site: &Site,
    host: &mut Host<F, B>,
    settings: ServeSettings,
) -> io::Result<()>
    requires { IsAlive F.device host.old }
{
    let alloc = rt.alloc();
    let mut poll = Poll::new(rt)?;
    let mut events = Events::with_capacity(alloc, REPORTS)?;
    let mut acceptor = acceptor_of(listener, settings);
    poll.registry().register(&mut acceptor.listener, Token(LISTENER), Interest::READABLE)?;
    let mut shared = SharedState {
        runtime: rt,
        site,
        patience: settings.patience,
        logs: settings.logs,
        buffer: vec![in alloc; 0; 8192]?,
    };
    let mut clients = Clients {
        by_key: Slab::new(alloc),
        queue: VecDeque::new(alloc),
        late: Vec::new(alloc),
    };
    serve_clients(
        &mut clients,
        &mut shared,
        host,
        &mut poll,
        &mut events,
        &mut acceptor,
    )
}
