//! The requests of a connection beside which no other is served, from a source, and the responses, into a sink: both may wait.

ghost use Rattle.http_front.specs.Prelude.{reads_left, source_of, unread, ServedSoFar, ServeGoes, EndsWell, FailsBy, BlamesSink, BlamesSource, pending, to_do, WantsMore};
ghost use Rattle.std.specs.Prelude.{◌≡◌, ◌≢◌, ℕ, List, ◌+◌, ◌<◌, ◌≤◌, ◌^◌, Option, length, [], true, false, Ok, Err, IfOk, IfErr, OnOk, OnErr};
ghost use Rattle.std.specs.Io.KnownBytes.{IsAtEnd};

use crate::fault::{FrontKind, Served};
use crate::handler::Handler;
use crate::http_conn::{HttpConn, Next};
use crate::pace::WholeRequest;
use byte_streams::{CountedSource, READ_BYTES, Sink, Source};
use http_message::{Clock, Site};
use std::alloc::Global;
use std::convert::Infallible;

/// Takes a step with what is at hand, and writes what it answered.
fn answer_next<W: Sink, H: Handler, K: Clock>(
    alloc: Global,
    conn: &mut HttpConn<Infallible>,
    sink: &mut W,
    site: &Site,
    handler: &mut H,
    number: u64,
    clock: &mut K,
) -> Result<(), FrontKind>
    requires open { H.is_open handler.old number }
    requires going { conn.old.over ≡ false }
    requires ready { conn.old.needs_input ≡ false }
    requires few { conn.old.requests + length (unread conn.old.read_buffer) < 2 ^ 63 }
    ensures open { H.is_open handler.new number }
    ensures beside { (from : H) → H.beside from number handler.old → H.beside from number handler.new }
    ensures few { OnOk result (conn.new.over ≡ false → conn.new.requests + length (unread conn.new.read_buffer) ≤ conn.old.requests + length (unread conn.old.read_buffer)) }
    ensures eof { conn.new.eof ≡ conn.old.eof }
    ensures written { pending conn.new ≡ [] }
    ensures less { OnOk result (to_do conn.new < to_do conn.old) }
    ensures needs_input { OnOk result (conn.new.needs_input ≡ true → (conn.old.eof ≡ false) × WantsMore (unread conn.new.read_buffer)) }
    ensures blames { BlamesSink result (W.failed sink.old) (W.failed sink.new) }
    ensures unread { result ≢ Err FrontKind.Read × result ≢ Err FrontKind.TooManyReads }
    ensures goes { (old : H) (before : K) (r q w : Option (List ℕ)) → (conn.old.eof ≡ true → IsAtEnd q)
        → ServedSoFar site.now (λ h. H.handles h number) K.tells old before r q w (W.contents sink.old) (unread conn.old.read_buffer) conn.old.requests handler.old clock.old
        → ServeGoes site.now (λ h. H.handles h number) K.tells (λ h. H.lacks h number) old before r q w (W.contents sink.new) conn.new.over
        (unread conn.new.read_buffer) conn.new.requests handler.new clock.new result }
{
    conn.step::<H, K, WholeRequest>(alloc, site, handler, number, clock)?;
    conn.put_all(alloc, sink, handler)
}

/// Answers what is at hand, until more bytes are wanted. Whether the connection is served to its end.
fn answer_all<W: Sink, H: Handler, K: Clock>(
    alloc: Global,
    conn: &mut HttpConn<Infallible>,
    sink: &mut W,
    site: &Site,
    handler: &mut H,
    number: u64,
    clock: &mut K,
) -> Result<bool, FrontKind>
    requires open { H.is_open handler.old number }
    requires going { conn.old.over ≡ false }
    requires written { pending conn.old ≡ [] }
    requires needs_input { conn.old.needs_input ≡ true → (conn.old.eof ≡ false) × WantsMore (unread conn.old.read_buffer) }
    requires few { conn.old.requests + length (unread conn.old.read_buffer) < 2 ^ 63 }
    ensures open { H.is_open handler.new number }
    ensures beside { (from : H) → H.beside from number handler.old → H.beside from number handler.new }
    ensures few { result ≡ Ok false → conn.new.requests + length (unread conn.new.read_buffer) ≤ conn.old.requests + length (unread conn.old.read_buffer) }
    ensures over { IfOk result (λ over. conn.new.over ≡ over) }
    ensures written { pending conn.new ≡ [] }
    ensures needs_input { result ≡ Ok false → (conn.new.eof ≡ false) × WantsMore (unread conn.new.read_buffer) }
    ensures blames { BlamesSink result (W.failed sink.old) (W.failed sink.new) }
    ensures unread { result ≢ Err FrontKind.Read × result ≢ Err FrontKind.TooManyReads }
    ensures goes { (old : H) (before : K) (r q w : Option (List ℕ)) → (conn.old.eof ≡ true → IsAtEnd q)
        → ServedSoFar site.now (λ h. H.handles h number) K.tells old before r q w (W.contents sink.old) (unread conn.old.read_buffer) conn.old.requests handler.old clock.old
        → ServeGoes site.now (λ h. H.handles h number) K.tells (λ h. H.lacks h number) old before r q w (W.contents sink.new) conn.new.over
        (unread conn.new.read_buffer) conn.new.requests handler.new clock.new result }
{
    loop {
        match conn.next() {
            Next::Over => return Ok(true),
            Next::Reads => return Ok(false),
            _ => answer_next(alloc, conn, sink, site, handler, number, clock)?,
        }
    }
}

/// How many times a source may still be read.
fn count_left<R>(reader: &CountedSource<R>) -> u32
    ensures left { result ≡ reads_left reader.now }
    ensures few { result < 2 ^ 32 }
{
    reader.left()
}

/// Serves the requests that a source gives, one after another, and writes their responses. `handler` has opened the connection of this
/// number. Serving ends where the source does, or behind a response that closes: what follows is not served. A source that has nothing now
/// is asked again.
///
/// # Errors
///
/// `Read`, `Write`: the source or the sink failed. `TooManyReads`: the source has given no end, and may not be read again. `NoMemory`: memory
/// is lacking, for a response, for bytes that were read, or for the sink. `NamesSpent`: names are lacking for a request that nothing refuses
/// and whose path has a file. Only behind `Write`, and where the sink lacks memory, a response may be cut.
///
/// What is written is promised where it is known what the source had left and what the sink holds, as of a slice and a `Vec`.
pub(crate) fn serve_open<R: Source, W: Sink, H: Handler, K: Clock>(
    alloc: Global,
    reader: &mut CountedSource<R>,
    sink: &mut W,
    site: &Site,
    handler: &mut H,
    number: u64,
    clock: &mut K,
) -> Result<Served, FrontKind>
    requires { H.is_open handler.old number }
    ensures open { H.is_open handler.new number }
    ensures beside { (from : H) → H.beside from number handler.old → H.beside from number handler.new }
    ensures ok { IfOk result (λ s. EndsWell site.now (λ h. H.handles h number) K.tells handler.old clock.old (R.remaining (source_of reader.old))
        (W.contents sink.old) (W.contents sink.new) s.requests handler.new clock.new) }
    ensures err { IfErr result (λ e. FailsBy site.now (λ h. H.handles h number) K.tells (λ h. H.lacks h number) handler.old clock.old
        (R.remaining (source_of reader.old)) (R.remaining (source_of reader.new)) (W.contents sink.old) (W.contents sink.new) handler.new clock.new e) }
    ensures source { BlamesSource result (R.failed (source_of reader.old)) (R.failed (source_of reader.new)) (reads_left reader.new) }
    ensures sink { BlamesSink result (W.failed sink.old) (W.failed sink.new) }
{
    let mut buffer = [0; READ_BYTES];
    let mut conn = HttpConn::new(alloc);
    let _reads = count_left(reader);
    loop {
        conn.take_counted(reader, &mut buffer)?;
        if answer_all(alloc, &mut conn, sink, site, handler, number, clock)? {
            return Ok(Served {
                requests: conn.requests(),
            });
        }
    }
}
