//! A connection of the host, from its opening to its close.

ghost use Rattle.http_front.specs.Prelude.{reads_left, source_of, Program, Connected, Refused, Open, HostView, Answers, kind_result, ClosesTurns, ServingFails, IsClosed, IsConnOpened, ServesAll};
ghost use Rattle.http_front.specs.Prelude.{IsOnlyStreamFor, Visits, kind_of, outcome_of, BlamesSink, BlamesSource, HasConn, IsAlive, NoEventsOf, Refines};
ghost use Rattle.std.specs.Prelude.{◌≡◌, ◌≢◌, ◌↔◌, ℕ, List, IfOk, IfErr, IfSome, IsTrue};

use crate::fault::{FrontFault, FrontKind, Served};
use crate::running::run_call;
use crate::serving::serve_open;
use byte_streams::{CountedSource, Sink, Source};
use filter_chain::{Files, Host, Refusal, Rings, Stored};
use http_message::{Clock, Site};
use std::alloc::Global;

/// Why no connection is opened: names are lacking, or else memory.
fn kind_of(refusal: Refusal) -> FrontKind
    ensures { result ≡ kind_of refusal }
{
    match refusal {
        Refusal::NamesSpent => FrontKind::NamesSpent,
        _ => FrontKind::NoMemory,
    }
}

/// Closes the connection, which is there. Without memory it is left.
fn close<F: Files + Drop, R: Rings<Stored> + Drop>(
    host: &mut Host<F, R>,
    number: u64,
) -> Option<u64>
    requires { HasConn F.device host.old number }
    ensures { Refines F.device host.old host.new (λ (b : ℕ) (c : List Program) (s t : HostView). IsClosed b c number result s t) }
{
    match host.close(number) {
        Ok(_) => None,
        Err(_) => Some(number),
    }
}

/// Opens a connection on the host for one that is served by turns, and runs its `open` handlers, however they end. Answers its number.
///
/// `NamesSpent`, `NoMemory`: none is opened. To every other connection nothing happens.
pub fn open_turns<F: Files + Drop, R: Rings<Stored> + Drop>(
    host: &mut Host<F, R>,
) -> Result<u64, FrontKind>
    requires { IsAlive F.device host.old }
    ensures still { IsAlive F.device host.new }
    ensures ok { IfOk result (λ number. Refines F.device host.old host.new (λ (b : ℕ) (c : List Program) (s t : HostView). IsConnOpened b c number s t)) }
    ensures others { (k : ℕ) → k ≢ 0 → IfOk result (λ number. k ≢ number) → (from : Host F R R.Rings) → NoEventsOf F.device from k host.old → NoEventsOf F.device from k host.new }
{
    match host.open_conn() {
        Ok(number) => {
            run_call(host, number);
            Ok(number)
        }
        Err(refusal) => Err(kind_of(refusal)),
    }
}

fn lacks_memory(refusal: Refusal) -> bool
    ensures { IsTrue result ↔ refusal ≡ Refusal.NoMemory }
{
    matches!(refusal, Refusal::NoMemory)
}

/// Closes a connection of the host that was served by turns: its labels run, and it is there no more. Answers `true` then, and where there was none
/// of this number. `false`: there was no memory for it now, and it is as it was. To every other connection nothing happens.
pub fn close_turns<F: Files + Drop, R: Rings<Stored> + Drop>(
    host: &mut Host<F, R>,
    number: u64,
) -> bool
    requires { IsAlive F.device host.old }
    ensures still { IsAlive F.device host.new }
    ensures closed { Refines F.device host.old host.new (λ (b : ℕ) (c : List Program) (s t : HostView). ClosesTurns b c number result s t) }
    ensures others { (k : ℕ) → k ≢ number → (from : Host F R R.Rings) → NoEventsOf F.device from k host.old → NoEventsOf F.device from k host.new }
{
    let answer = host.close(number);
    match answer {
        Ok(_) => true,
        Err(refusal) => !lacks_memory(refusal),
    }
}

/// What serving comes to, where the connection is left or not.
fn outcome_of(served: Result<Served, FrontKind>, left: Option<u64>) -> Result<Served, FrontFault>
    ensures { result ≡ outcome_of served left }
{
    match (served, left) {
        (Ok(served), None) => Ok(served),
        (Ok(_), left) => Err(FrontFault {
            kind: FrontKind::NoMemory,
            left,
        }),
        (Err(kind), left) => Err(FrontFault { kind, left }),
    }
}

/// Serves one connection: opens it on the host, answers the requests that the source gives, one after another, and closes it.
///
/// The kinds of faults: `NamesSpent` and `NoMemory` where no connection is opened, and nothing is read or written then; those of a request,
/// `NamesSpent` only of one that nothing refuses, whose path has a file, and of which the host refused an event so; `Read` and `Write`, only where
/// the source or the sink failed; `TooManyReads`, only where the source was read as often as it may be; `NoMemory` too where the sink had none. The
/// connection is closed at each of them. Where that finds no memory, the fault names it (`left`), and the host can close it later; the kind is
/// `NoMemory` then where all else went well.
///
/// Whatever source and sink are, nothing happens to the host but the opening of one connection, events of it, and its close. What is written is promised
/// where it is known what the source had left and what the sink holds, as of a slice and a `Vec`. Over files that are all known, as files in
/// memory are, it is the only stream of responses (`only`), each with its own Date line, up to the first 500 whose failure is that memory was refused.
pub fn serve<S: Source, W: Sink, F: Files + Drop, R: Rings<Stored> + Drop, K: Clock>(
    alloc: Global,
    reader: &mut CountedSource<S>,
    sink: &mut W,
    site: &Site,
    host: &mut Host<F, R>,
    clock: &mut K,
) -> Result<Served, FrontFault>
    requires alive { IsAlive F.device host.old }
    ensures still { IsAlive F.device host.new }
    ensures visits { Visits F.device K.tells site.now host.old result host.new }
    ensures ok { IfOk result (λ s. IfSome (S.remaining (source_of reader.old))
        (λ stream. ServesAll F.device K.tells site.now host.old clock.old stream s.requests (W.contents sink.old) (W.contents sink.new) host.new clock.new)) }
    ensures only { IfOk result (λ s. IfSome (S.remaining (source_of reader.old))
        (λ stream. IsOnlyStreamFor F.device K.tells site.now host.old clock.old stream s.requests (W.contents sink.old) (W.contents sink.new) host.new clock.new)) }
    ensures err { IfErr result (λ e. IfSome (S.remaining (source_of reader.old))
        (λ stream. ServingFails F.device K.tells site.now host.old clock.old stream e (S.remaining (source_of reader.new)) (W.contents sink.old) (W.contents sink.new) host.new clock.new)) }
    ensures source { BlamesSource (kind_result result) (S.failed (source_of reader.old)) (S.failed (source_of reader.new)) (reads_left reader.new) }
    ensures sink { BlamesSink (kind_result result) (W.failed sink.old) (W.failed sink.new) }
{
    match host.open_conn() {
        Ok(number) => {
            run_call(host, number);
            let served = serve_open(alloc, reader, sink, site, host, number, clock);
            outcome_of(served, close(host, number))
        }
        Err(refusal) => Err(FrontFault {
            kind: kind_of(refusal),
            left: None,
        }),
    }
}
