//! The pieces of which a brigade is brought: their tests, and their buckets.

ghost use Rattle.std.specs.Prelude.{◌≡◌, ◌==◌, ◌&&◌, nat_le, false, ◌+◌, map, IfOk};
ghost use Rattle.std.specs.List.{list_any};
ghost use Rattle.module_run.specs.Prelude.{bucket_of, own, is_data_piece, is_eos_piece, data_behind_eos, lacks_file, lengths, late_piece};

use crate::conn::OpenFile;
use brigade_ops::{BrigadeId, Bucket, FileNo, PoolId, Stored};
use bucket_kinds::keep_own;
use run_model::{Content, Home, Kind, Piece, Seq};
use std::alloc::{AllocError, Global};

fn is_data(piece: &Piece) -> bool
    ensures { result ≡ is_data_piece piece.now }
{
    !matches!(piece, Piece::Flush | Piece::Eos)
}

fn is_eos(piece: &Piece) -> bool
    ensures { result ≡ is_eos_piece piece.now }
{
    matches!(piece, Piece::Eos)
}

fn has_late_data(pieces: &[Piece]) -> bool
    ensures { result ≡ late_piece false pieces.now }
{
    let mut late = false;
    for piece in pieces {
        if is_eos(piece) {
            late = true;
        } else if late && is_data(piece) {
            return true;
        }
    }
    false
}

/// Whether a data piece stands behind an EOS.
#[tactic(auto, using(interp_calls::proofs::LatePieces::late_from_none))]
pub(crate) fn has_data_behind_eos(pieces: &[Piece]) -> bool
    ensures { result ≡ data_behind_eos pieces.now }
{
    has_late_data(pieces)
}

/// Whether this is the file of a number and reaches so far.
fn covers(f: &OpenFile, file: FileNo, start: u64, len: u64) -> bool
    ensures { result ≡ (f.now.number == file && nat_le (start + len) f.now.len) }
{
    f.number == file && start <= f.len && len <= f.len - start
}

/// Whether one of the files is that of a number and reaches so far. Their numbers rise, so halving finds it; all of them are
/// looked through only before a range is refused.
fn has_range(files: &[OpenFile], file: FileNo, start: u64, len: u64) -> bool
    ensures { result ≡ list_any (λ f. f.number == file && nat_le (start + len) f.len) files.now }
{
    match files.binary_search_by_key(&file, |f| f.number) {
        Ok(index) if covers(&files[index], file, start, len) => true,
        _ => files.iter().any(|f| covers(f, file, start, len)),
    }
}

fn lacks_file(files: &[OpenFile], piece: &Piece) -> bool
    ensures { result ≡ lacks_file (lengths files.now) piece.now }
{
    match piece {
        Piece::File { file, start, len } => !has_range(files, *file, *start, *len),
        _ => false,
    }
}

/// Whether a piece is a range that no file of the request has.
pub(crate) fn lack_files(files: &[OpenFile], pieces: &[Piece]) -> bool
    ensures { result ≡ list_any (lacks_file (lengths files.now)) pieces.now }
{
    pieces.iter().any(|piece| lacks_file(files, piece))
}

/// A bucket in memory.
fn in_memory(kind: Kind, bytes: Seq<u8>, home: Home) -> Bucket
    ensures { result ≡ record { kind = kind; content = Content.Bytes bytes; home = home } }
{
    Bucket {
        kind,
        content: Content::Bytes(bytes),
        home,
    }
}

fn metadata(kind: Kind) -> Bucket
    ensures { result ≡ record { kind = kind; content = Content.Nothing; home = Home.Free } }
{
    Bucket {
        kind,
        content: Content::Nothing,
        home: Home::Free,
    }
}

/// The bucket of a piece that is brought to a call, in a request of this pool.
fn bucket_of(call: BrigadeId, req: PoolId, piece: Piece) -> Bucket
    ensures { result ≡ bucket_of call req piece }
{
    match piece {
        Piece::Heap(bytes) => in_memory(Kind::Heap, bytes, Home::Free),
        Piece::Transient(bytes) => in_memory(Kind::Transient, bytes, Home::Call(call)),
        Piece::Immortal(bytes) => in_memory(Kind::Immortal, bytes, Home::Free),
        Piece::Pool(bytes) => in_memory(Kind::Pool(req), bytes, Home::Free),
        Piece::File { file, start, len } => Bucket {
            kind: Kind::File,
            content: Content::Range { file, start, len },
            home: Home::Pool(req),
        },
        Piece::Flush => metadata(Kind::Flush),
        Piece::Eos => metadata(Kind::Eos),
    }
}

/// The buckets of the pieces that are brought to a call, in a request of this pool, each with a content of its own.
pub(crate) fn buckets_of(
    alloc: Global,
    call: BrigadeId,
    req: PoolId,
    pieces: Seq<Piece>,
) -> Result<Vec<Stored>, AllocError>
    ensures { IfOk result (λ buckets. buckets.items ≡ map (λ piece. own (bucket_of call req piece)) pieces) }
{
    let mut buckets = Vec::with_capacity(alloc, pieces.len())?;
    for piece in pieces.into_vec() {
        buckets.push(keep_own(bucket_of(call, req, piece)))?;
    }
    Ok(buckets)
}
