//! A body is brought, read by read.

ghost use Rattle.std.specs.Prelude.{◌≡◌, ◌≢◌, ◌<◌, ◌∷◌, [], ℕ, List, IfOk, Some};
ghost use Rattle.body_filter.specs.Prelude.{Begin, Bring, Heap, FeedsBody, HostView, IsAlive, IsSafe, Program, PutsCall, Refines, TellsOfReader, TellsOfWriter, TriesCall};
ghost use Rattle.body_filter.specs.Prelude.{brings_bytes, faulted, reads_left, source_of};

use crate::calls::end_call;
use byte_streams::{CountedSource, ReadAnswer, Sink, Source};
use filter_chain::{Files, Host, Piece, Rings, Seq, Stored};
use http_message::Failure;
use module_commands::PlayFault;
use std::alloc::{AllocError, Global};

/// How many bytes are read at once at most: as many as a read of a FILE bucket gives.
pub const MOST_READ_BYTES: usize = 8000;

/// A brigade of one piece.
fn brigade_of(alloc: Global, piece: Piece) -> Result<Seq<Piece>, AllocError>
    ensures { IfOk result (λ pieces. pieces ≡ piece ∷ []) }
{
    let mut pieces = Seq::new(alloc);
    pieces.push(piece)?;
    Ok(pieces)
}

/// A HEAP bucket of these bytes.
fn heap_piece(alloc: Global, bytes: &[u8]) -> Result<Piece, AllocError>
    ensures { IfOk result (λ piece. piece ≡ Heap bytes.now) }
{
    let mut copy = Seq::new(alloc);
    copy.extend(bytes)?;
    Ok(Piece::Heap(copy))
}

/// Begins the request, and writes what comes out.
fn begin<F: Files + Drop, R: Rings<Stored> + Drop, W: Sink>(
    host: &mut Host<F, R>,
    number: u64,
    writer: &mut W,
) -> Result<Option<Failure>, PlayFault>
    requires { IsAlive F.device host.old }
    ensures leads { Refines F.device host.old host.new (λ (b : ℕ) (c : List Program) (s t : HostView). PutsCall b c number (W.contents writer.old)
        (W.contents writer.new) Begin result s t) }
    ensures safe { IsSafe host.old → IfOk result (λ how. how ≢ Some faulted) }
    ensures writer { TellsOfWriter (W.failed writer.old) (W.failed writer.new) result }
{
    let begun = host.begin(number);
    end_call(host, number, begun, writer)
}

/// Brings a piece, and writes what comes out.
fn bring<F: Files + Drop, R: Rings<Stored> + Drop, W: Sink>(
    alloc: Global,
    host: &mut Host<F, R>,
    number: u64,
    piece: Piece,
    writer: &mut W,
) -> Result<Option<Failure>, PlayFault>
    requires { IsAlive F.device host.old }
    ensures leads { Refines F.device host.old host.new (λ (b : ℕ) (c : List Program) (s t : HostView). TriesCall b c number (W.contents writer.old)
        (W.contents writer.new) (Bring (piece ∷ [])) result s t) }
    ensures safe { IsSafe host.old → IfOk result (λ how. how ≢ Some faulted) }
    ensures writer { TellsOfWriter (W.failed writer.old) (W.failed writer.new) result }
{
    let pieces = brigade_of(alloc, piece)?;
    let begun = host.bring(number, pieces);
    end_call(host, number, begun, writer)
}

/// Brings bytes that were read, and writes what comes out.
fn bring_bytes<F: Files + Drop, R: Rings<Stored> + Drop, W: Sink>(
    alloc: Global,
    host: &mut Host<F, R>,
    number: u64,
    bytes: &[u8],
    writer: &mut W,
) -> Result<Option<Failure>, PlayFault>
    requires { IsAlive F.device host.old }
    ensures leads { Refines F.device host.old host.new (λ (b : ℕ) (c : List Program) (s t : HostView). TriesCall b c number (W.contents writer.old)
        (W.contents writer.new) (brings_bytes bytes.now) result s t) }
    ensures safe { IsSafe host.old → IfOk result (λ how. how ≢ Some faulted) }
    ensures writer { TellsOfWriter (W.failed writer.old) (W.failed writer.new) result }
{
    let piece = heap_piece(alloc, bytes)?;
    bring(alloc, host, number, piece, writer)
}

/// Begins a request, brings what a reader gives, and the EOS behind it, up to the first call that does not succeed; answers why that did not. What comes
/// out of a call is written before more is read.
///
/// `Read`: the reader failed, or gave no end within the reads that were left to it. `Write`: the writer failed. `NoMemory`: there was none for what was
/// read, or the writer had none.
pub(crate) fn feed<F: Files + Drop, R: Rings<Stored> + Drop, S: Source, W: Sink>(
    alloc: Global,
    host: &mut Host<F, R>,
    number: u64,
    reader: &mut CountedSource<S>,
    writer: &mut W,
) -> Result<Option<Failure>, PlayFault>
    requires { IsAlive F.device host.old }
    ensures leads { Refines F.device host.old host.new (λ (b : ℕ) (c : List Program) (s t : HostView). FeedsBody b c number
        (W.contents writer.old) (W.contents writer.new)
        (S.remaining (source_of reader.old)) (S.remaining (source_of reader.new)) result s t) }
    ensures safe { IsSafe host.old → IfOk result (λ how. how ≢ Some faulted) }
    ensures reader { TellsOfReader (S.failed (source_of reader.old)) (S.failed (source_of reader.new)) (reads_left reader.new) result }
    ensures writer { TellsOfWriter (W.failed writer.old) (W.failed writer.new) result }
{
    let begun = begin(host, number, writer)?;
    if begun.is_some() {
        return Ok(begun);
    }
    let mut buffer = [0; MOST_READ_BYTES];
    for _ in 0..reader.left() {
        match reader.read(&mut buffer) {
            Ok(ReadAnswer::Bytes(count)) => {
                let how = bring_bytes(alloc, host, number, &buffer[..count], writer)?;
                if how.is_some() {
                    return Ok(how);
                }
            }
            Ok(ReadAnswer::End) => return bring(alloc, host, number, Piece::Eos, writer),
            Ok(ReadAnswer::NotNow) => continue,
            Err(_) => return Err(PlayFault::Read),
        }
    }
    Err(PlayFault::Read)
}
