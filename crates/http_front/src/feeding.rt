//! The brigades of a file, one after another.

ghost use Rattle.std.specs.Prelude.{◌≡◌, ◌∷◌, ◌≤◌, ◌^◌, [], length, Some, IfOk};
ghost use Rattle.run_model.specs.declared.event.Piece.TheVariants.{File};
ghost use Rattle.http_front.specs.Among.{brigades_left};
ghost use Rattle.http_front.specs.Requests.{brigades_for, last_brigade, piece_bytes};

use crate::task::FileRest;
use filter_chain::{Piece, Seq};
use http_message::Method;
use std::alloc::{AllocError, Global};

/// The most bytes of a file in one brigade.
const PIECE_BYTES: u64 = 65536;

fn whole_brigade(alloc: Global, file: u64, start: u64) -> Result<Seq<Piece>, AllocError>
    ensures { IfOk result (λ pieces. pieces ≡ File file start piece_bytes ∷ []) }
{
    let mut pieces = Seq::new(alloc);
    pieces.push(Piece::File {
        file,
        start,
        len: PIECE_BYTES,
    })?;
    Ok(pieces)
}

fn last_brigade(alloc: Global, file: u64, start: u64, len: u64) -> Result<Seq<Piece>, AllocError>
    ensures { IfOk result (λ pieces. pieces ≡ last_brigade file start len) }
{
    let mut pieces = Seq::new(alloc);
    if len > 0 {
        pieces.push(Piece::File { file, start, len })?;
    }
    pieces.push(Piece::Eos)?;
    Ok(pieces)
}

/// What a method wants of a file.
pub(crate) fn wanted(method: Method, file: (u64, u64)) -> Option<FileRest>
    ensures all { brigades_left result ≡ brigades_for method file }
    ensures few { length (brigades_left result) ≤ 2 ^ 48 }
{
    match method {
        Method::Get => Some(FileRest {
            file: file.0,
            len: file.1,
            start: 0,
            left: file.1.saturating_sub(1) / PIECE_BYTES,
        }),
        Method::Head => None,
        Method::Other => None,
    }
}

/// The next brigade, and what is left behind it.
pub(crate) fn next_brigade(
    alloc: Global,
    rest: FileRest,
) -> Result<(Seq<Piece>, Option<FileRest>), AllocError>
    ensures { IfOk result (λ r. brigades_left (Some rest) ≡ r.0 ∷ brigades_left r.1) }
{
    if rest.left == 0 {
        let pieces = last_brigade(alloc, rest.file, rest.start, rest.len - rest.start)?;
        return Ok((pieces, None));
    }
    let pieces = whole_brigade(alloc, rest.file, rest.start)?;
    let left = FileRest {
        file: rest.file,
        len: rest.len,
        start: rest.start + PIECE_BYTES,
        left: rest.left - 1,
    };
    Ok((pieces, Some(left)))
}
