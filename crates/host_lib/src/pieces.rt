//! The pieces that connections are brought next.

ghost use Rattle.std.specs.Prelude.{◌≡◌, ◌≢◌, ℕ, ◌∷◌, ◌++◌, [], IfErr, IfOk, OnErr, OnOk};
ghost use Rattle.run_model.specs.Indexed.{upd};
ghost use Rattle.host_lib.specs.Kinds.{IsPieceOf, IsNoPiece};

use filter_chain::{Piece, Seq};
use std::alloc::Global;
use std::collections::HashMap;
use std::mem;

/// Why a piece is not added.
#[derive(Clone, Copy)]
pub enum PieceRefusal {
    /// No connection has the number.
    NoConnection,
    /// There is no such kind.
    NoKind,
    /// There is no memory.
    NoMemory,
}

fn copied(alloc: Global, bytes: &[u8]) -> Result<Seq<u8>, PieceRefusal>
    ensures copied { IfOk result (λ s. s ≡ bytes.now) }
    ensures refused { IfErr result (λ e. e ≡ PieceRefusal.NoMemory) }
{
    let mut copy = Seq::new(alloc);
    match copy.extend(bytes) {
        Ok(()) => Ok(copy),
        Err(_) => Err(PieceRefusal::NoMemory),
    }
}

/// The piece of a kind. Kinds: 0 HEAP, 1 TRANSIENT, 2 IMMORTAL, 3 POOL, 4 FLUSH, 5 EOS. The bytes are copied; the last two have none.
pub(crate) fn piece(alloc: Global, kind: u32, bytes: &[u8]) -> Result<Piece, PieceRefusal>
    ensures piece { IfOk result (IsPieceOf kind bytes.now) }
    ensures refused { IfErr result (IsNoPiece kind) }
{
    match kind {
        0 => Ok(Piece::Heap(copied(alloc, bytes)?)),
        1 => Ok(Piece::Transient(copied(alloc, bytes)?)),
        2 => Ok(Piece::Immortal(copied(alloc, bytes)?)),
        3 => Ok(Piece::Pool(copied(alloc, bytes)?)),
        4 => Ok(Piece::Flush),
        5 => Ok(Piece::Eos),
        _ => Err(PieceRefusal::NoKind),
    }
}

/// The pieces that connections are brought next, by their numbers. Those of the connection `last`, which was given a piece last, lie apart, so
/// that a connection whose calls come one after another wants no look into the map.
#[derive(Drop)]
pub struct Pieces {
    pub(crate) alloc: Global,
    pub(crate) last: u64,
    pub(crate) apart: Seq<Piece>,
    pub(crate) by_number: HashMap<u64, Seq<Piece>>,
}

#[tactic(auto, unfolding(crate::specs::Pieces::pieces_at, run_model::specs::Indexed::upd))]
impl Pieces {
    ghost use Rattle.host_lib.specs.Pieces.{pieces_at};

    /// No pieces.
    pub(crate) fn new(alloc: Global) -> Self
        ensures { (n : ℕ) → pieces_at result n ≡ [] }
    {
        Pieces {
            alloc,
            last: 0,
            apart: Seq::new(alloc),
            by_number: HashMap::new(alloc),
        }
    }

    /// Takes the pieces of a connection, which has none then.
    pub(crate) fn take(&mut self, number: u64) -> Seq<Piece>
        ensures value { result ≡ pieces_at self.old number }
        ensures rest { (n : ℕ) → pieces_at self.new n ≡ upd (pieces_at self.old) number [] n }
    {
        if number == self.last {
            return mem::replace(&mut self.apart, Seq::new(self.alloc));
        }
        match self.by_number.remove(&number) {
            Some(pieces) => pieces,
            None => Seq::new(self.alloc),
        }
    }

    /// Has the pieces of another connection lie apart. Without memory nothing is changed.
    fn turn_to(&mut self, number: u64) -> Result<(), PieceRefusal>
        requires other { number ≢ self.old.last }
        ensures kept { (n : ℕ) → pieces_at self.new n ≡ pieces_at self.old n }
        ensures turned { OnOk result (self.new.last ≡ number) }
        ensures refused { IfErr result (λ e. e ≡ PieceRefusal.NoMemory) }
    {
        let Ok(()) = self.by_number.reserve(1) else {
            return Err(PieceRefusal::NoMemory);
        };
        let next = match self.by_number.remove(&number) {
            Some(pieces) => pieces,
            None => Seq::new(self.alloc),
        };
        let before = mem::replace(&mut self.apart, next);
        let last = mem::replace(&mut self.last, number);
        if before.is_empty() {
            let _ = self.by_number.remove(&last);
        } else {
            let _ = self.by_number.insert(last, before);
        }
        Ok(())
    }

    /// Adds a piece behind those of a connection. Without memory it has none then.
    pub(crate) fn add(&mut self, number: u64, piece: Piece) -> Result<(), PieceRefusal>
        ensures added { OnOk result ((n : ℕ) → pieces_at self.new n ≡ upd (pieces_at self.old) number (pieces_at self.old number ++ piece ∷ []) n) }
        ensures dropped { OnErr result ((n : ℕ) → pieces_at self.new n ≡ upd (pieces_at self.old) number [] n) }
        ensures refused { IfErr result (λ e. e ≡ PieceRefusal.NoMemory) }
    {
        if number != self.last {
            match self.turn_to(number) {
                Ok(()) => {}
                Err(refusal) => {
                    let _ = self.take(number);
                    return Err(refusal);
                }
            }
        }
        match self.apart.push(piece) {
            Ok(()) => Ok(()),
            Err(_) => {
                let _ = self.take(number);
                Err(PieceRefusal::NoMemory)
            }
        }
    }
}
