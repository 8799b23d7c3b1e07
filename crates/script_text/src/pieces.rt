//! The pieces of a brigade, as scripts write them.

ghost use Rattle.std.specs.Prelude.{◌≡◌, ◌<◌, ◌≤◌, ◌+◌, ◌^◌, true, nat_eq, length, IfOk, IfSome};
ghost use Rattle.std.specs.List.{starts_with};
ghost use Rattle.script_text.specs.Pieces.{word_of, piece_of, kind_at, text_of_kind, text_at, word_piece, range_at, range_from, or_else, piece_at, pieces_of, IsPieceWithin};

use crate::words::{copied, is_parted, number_and_rest};
use byte_text::{cut_token, unquote_front};
use module_code::is_name;
use run_model::{Piece, Seq};
use std::alloc::{AllocError, Global};

/// A piece of a brigade, as a script writes it.
#[derive(Drop)]
pub enum ScriptPiece {
    /// A piece that can be brought as it is.
    Ready(Piece),
    /// A range of the file of this name: `len` bytes from byte `start` on.
    Range { name: Seq<u8>, start: u64, len: u64 },
}

/// A piece, and how many bytes its text takes, with the space before it.
#[derive(Drop)]
pub struct PieceRead {
    /// The piece.
    pub piece: ScriptPiece,
    /// How many bytes it takes.
    pub used: usize,
}

/// The pieces that have a text.
#[derive(Clone, Copy)]
pub enum MemoryKind {
    Heap,
    Transient,
    Immortal,
    Pool,
}

const TEXT_KINDS: [MemoryKind; 4] = [
    MemoryKind::Heap,
    MemoryKind::Transient,
    MemoryKind::Immortal,
    MemoryKind::Pool,
];

impl MemoryKind {
    /// The word before the text, with the spaces around it.
    #[tactic(auto, unfolding(crate::specs::Pieces::word_of))]
    fn word(self) -> &'static [u8]
        ensures value { result.now ≡ word_of self }
        ensures small { 0 < length result.now }
    {
        match self {
            MemoryKind::Heap => b" heap ",
            MemoryKind::Transient => b" transient ",
            MemoryKind::Immortal => b" immortal ",
            MemoryKind::Pool => b" pool ",
        }
    }

    #[tactic(auto, unfolding(crate::specs::Pieces::piece_of))]
    fn piece(self, text: Seq<u8>) -> Piece
        ensures { result ≡ piece_of self text }
    {
        match self {
            MemoryKind::Heap => Piece::Heap(text),
            MemoryKind::Transient => Piece::Transient(text),
            MemoryKind::Immortal => Piece::Immortal(text),
            MemoryKind::Pool => Piece::Pool(text),
        }
    }
}

#[tactic(auto, unfolding(crate::specs::Pieces::kind_at))]
fn kind_at(bytes: &[u8]) -> Option<MemoryKind>
    ensures value { result ≡ kind_at bytes.now }
    ensures found { IfSome result (λ k. starts_with nat_eq bytes.now (word_of k) ≡ true) }
{
    TEXT_KINDS
        .iter()
        .copied()
        .find(|kind| bytes.starts_with(kind.word()))
}

/// The piece of a kind with a text, whose word these bytes begin with.
fn text_of_kind(
    alloc: Global,
    kind: MemoryKind,
    bytes: &[u8],
) -> Result<Option<PieceRead>, AllocError>
    requires { starts_with nat_eq bytes.now (word_of kind) ≡ true }
    ensures value { IfOk result (λ r. r ≡ text_of_kind kind bytes.now) }
    ensures within { IfOk result (λ r. IfSome r (λ r. IsPieceWithin r bytes.now)) }
{
    let word = kind.word().len();
    let quoted = &bytes[word..];
    let Some((text, used)) = unquote_front(alloc, quoted)? else {
        return Ok(None);
    };
    if !is_parted(&quoted[used..]) {
        return Ok(None);
    }
    Ok(Some(PieceRead {
        piece: ScriptPiece::Ready(kind.piece(text)),
        used: word + used,
    }))
}

#[tactic(auto, unfolding(crate::specs::Pieces::text_at))]
fn text_at(alloc: Global, bytes: &[u8]) -> Result<Option<PieceRead>, AllocError>
    ensures value { IfOk result (λ r. r ≡ text_at bytes.now) }
    ensures within { IfOk result (λ r. IfSome r (λ r. IsPieceWithin r bytes.now)) }
{
    match kind_at(bytes) {
        Some(kind) => text_of_kind(alloc, kind, bytes),
        None => Ok(None),
    }
}

/// A piece that is a word alone.
#[tactic(auto, unfolding(crate::specs::Pieces::word_piece))]
fn word_piece(bytes: &[u8], word: &[u8], piece: Piece) -> Option<PieceRead>
    requires { 0 < length word.now }
    ensures value { result ≡ word_piece word.now piece bytes.now }
    ensures within { IfSome result (λ r. IsPieceWithin r bytes.now) }
{
    if !bytes.starts_with(word) || !is_parted(&bytes[word.len()..]) {
        return None;
    }
    Some(PieceRead {
        piece: ScriptPiece::Ready(piece),
        used: word.len(),
    })
}

/// The range of a file that stands behind the word `file`: its name and two numbers.
fn range_from(alloc: Global, bytes: &[u8]) -> Result<Option<PieceRead>, AllocError>
    requires { length bytes.now + 6 < 2 ^ 64 }
    ensures value { IfOk result (λ r. r ≡ range_from bytes.now) }
    ensures within { IfOk result (λ r. IfSome r (λ r. (0 < r.used) × (r.used ≤ length bytes.now + 6))) }
{
    let (name, numbers) = cut_token(bytes);
    if !is_name(name) {
        return Ok(None);
    }
    let Some((start, second)) = number_and_rest(numbers) else {
        return Ok(None);
    };
    let Some((len, rest)) = number_and_rest(second) else {
        return Ok(None);
    };
    let used = 6 + (bytes.len() - rest.len());
    let name = copied(alloc, name)?;
    Ok(Some(PieceRead {
        piece: ScriptPiece::Range { name, start, len },
        used,
    }))
}

#[tactic(auto, unfolding(crate::specs::Pieces::range_at))]
fn range_at(alloc: Global, bytes: &[u8]) -> Result<Option<PieceRead>, AllocError>
    ensures value { IfOk result (λ r. r ≡ range_at bytes.now) }
    ensures within { IfOk result (λ r. IfSome r (λ r. IsPieceWithin r bytes.now)) }
{
    if !bytes.starts_with(b" file ") {
        return Ok(None);
    }
    range_from(alloc, &bytes[6..])
}

fn named_at(alloc: Global, bytes: &[u8]) -> Result<Option<PieceRead>, AllocError>
    ensures value { IfOk result (λ r. r ≡ or_else (range_at bytes.now) (text_at bytes.now)) }
    ensures within { IfOk result (λ r. IfSome r (λ r. IsPieceWithin r bytes.now)) }
{
    match range_at(alloc, bytes)? {
        Some(read) => Ok(Some(read)),
        None => text_at(alloc, bytes),
    }
}

/// The piece that stands after a space, and before the end or another space.
#[tactic(auto, unfolding(crate::specs::Pieces::piece_at))]
fn piece_at(alloc: Global, bytes: &[u8]) -> Result<Option<PieceRead>, AllocError>
    ensures value { IfOk result (λ r. r ≡ piece_at bytes.now) }
    ensures within { IfOk result (λ r. IfSome r (λ r. IsPieceWithin r bytes.now)) }
{
    if let Some(read) = word_piece(bytes, b" eos", Piece::Eos) {
        return Ok(Some(read));
    }
    if let Some(read) = word_piece(bytes, b" flush", Piece::Flush) {
        return Ok(Some(read));
    }
    named_at(alloc, bytes)
}

/// The pieces that these bytes are, each after a space. A piece takes a byte at least.
#[tactic(auto, unfolding(crate::specs::Pieces::pieces_of))]
pub fn pieces_of(alloc: Global, bytes: &[u8]) -> Result<Option<Seq<ScriptPiece>>, AllocError>
    ensures { IfOk result (λ ps. ps ≡ pieces_of bytes.now) }
{
    let mut pieces = Seq::new(alloc);
    let mut at = 0;
    for _ in 0..bytes.len() {
        if at == bytes.len() {
            return Ok(Some(pieces));
        }
        let Some(read) = piece_at(alloc, &bytes[at..])? else {
            return Ok(None);
        };
        pieces.push(read.piece)?;
        at += read.used;
    }
    if at == bytes.len() {
        return Ok(Some(pieces));
    }
    Ok(None)
}
