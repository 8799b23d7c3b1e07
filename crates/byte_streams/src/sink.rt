//! What bytes are written into.

ghost use Rattle.std.specs.Prelude.{◌≡◌, ℕ, ◌<◌, Bool, false, List, length, Option, Some, None, Err, refl};
ghost use Rattle.std.specs.Vec.{VecUnchanged};
ghost use Rattle.byte_streams.specs.Texts.{IsPut, joined};
ghost use Rattle.byte_streams.specs.Transfers.{IsWritten, IsAllWritten};

use crate::parts::Parts;
use thiserror::Error;

/// What a write took.
#[derive(Clone, Copy, Debug, PartialEq, Eq)]
pub enum WriteAnswer {
    /// So many bytes, one at least.
    Bytes(usize),
    /// Nothing now. A later write may take some.
    NotNow,
}

/// Why bytes were not taken.
#[derive(Clone, Copy, Debug, PartialEq, Eq, Error)]
pub enum SinkFault {
    /// The sink failed, or took nothing of some bytes.
    #[error("cannot write")]
    Failed,
    /// There was no memory for them. The sink is as it was, and has not failed.
    #[error("no memory")]
    NoMemory,
}

/// What bytes are written into, and whether it failed.
pub trait Sink {
    // The bytes that it holds, where they are known.
    ghost contents: { Self → Option (List ℕ) } = { λ _. None };

    // Whether a write failed.
    ghost failed: { Self → Bool };

    // Nothing was done to it: the second is the first, as far as anybody can see.
    ghost unchanged: { Self → Self → Type 0 };

    /// Writes a front of some bytes, of which there is one at least. After an error nothing of them was taken.
    fn write(&mut self, bytes: &[u8]) -> Result<WriteAnswer, SinkFault>
        requires { 0 < length bytes.now }
        ensures written { IsWritten (contents self.old) (contents self.new) (failed self.old) (failed self.new) bytes.now result }
        ensures unchanged { result ≡ Err SinkFault.NoMemory → unchanged self.old self.new };

    /// Writes all of a text. `Failed`: the sink failed, also where it could take nothing just then; a front of the text was taken, but not all
    /// of it. `NoMemory`: nothing was taken.
    fn write_all(&mut self, text: &[u8]) -> Result<(), SinkFault>
        ensures written { IsAllWritten (contents self.old) (contents self.new) (failed self.old) (failed self.new) text.now result }
        ensures unchanged { result ≡ Err SinkFault.NoMemory → unchanged self.old self.new };

    /// Writes all of a text. `Failed`, `NoMemory`: a front of the text was taken, but not all of it. Of an empty text a sink is not asked.
    fn put(&mut self, text: &[u8]) -> Result<(), SinkFault>
        ensures { IsPut (contents self.old) (contents self.new) (failed self.old) (failed self.new) text.now result }
    {
        if text.is_empty() {
            return Ok(());
        }
        self.write_all(text)
    }

    /// Writes a front of a text in parts, in which there is one byte at least. After an error nothing of it was taken. A sink that can write
    /// several parts in one call does so; any other writes the first in which there is something.
    fn write_parts(&mut self, parts: Parts<'_>) -> Result<WriteAnswer, SinkFault>
        requires { 0 < length (joined parts) }
        ensures written { IsWritten (contents self.old) (contents self.new) (failed self.old) (failed self.new) (joined parts.entry) result }
        ensures unchanged { result ≡ Err SinkFault.NoMemory → unchanged self.old self.new }
    {
        self.write(parts.front())
    }

    /// Writes all of a text in parts. `Failed`, `NoMemory`: a front of the text was taken, but not all of it.
    fn put_parts(&mut self, parts: Parts<'_>) -> Result<(), SinkFault>
        ensures { IsPut (contents self.old) (contents self.new) (failed self.old) (failed self.new) (joined parts.entry) result }
    {
        self.put(parts.first)?;
        self.put(parts.second)?;
        self.put(parts.third)
    }

    ghost unchanged_self: { (s : Self) → unchanged s s };
}

impl<W: Sink> Sink for &mut W {
    ghost contents = { λ w. W.contents w.now };

    ghost failed = { λ w. W.failed w.now };

    ghost unchanged = { λ a b. W.unchanged a.now b.now };

    ghost unchanged_self = { λ s. W.unchanged_self s.now };

    fn write(&mut self, bytes: &[u8]) -> Result<WriteAnswer, SinkFault> {
        Sink::write(&mut **self, bytes)
    }

    fn write_all(&mut self, text: &[u8]) -> Result<(), SinkFault> {
        Sink::write_all(&mut **self, text)
    }

    fn put(&mut self, text: &[u8]) -> Result<(), SinkFault> {
        Sink::put(&mut **self, text)
    }

    fn write_parts(&mut self, parts: Parts<'_>) -> Result<WriteAnswer, SinkFault> {
        Sink::write_parts(&mut **self, parts)
    }

    fn put_parts(&mut self, parts: Parts<'_>) -> Result<(), SinkFault> {
        Sink::put_parts(&mut **self, parts)
    }
}

/// A vector takes all bytes for which there is memory, and never fails.
impl Sink for Vec<u8> {
    ghost contents = { λ v. Some v.items };

    ghost failed = { λ _. false };

    ghost unchanged = { VecUnchanged };

    ghost unchanged_self = { λ _. (refl, refl) };

    fn write(&mut self, bytes: &[u8]) -> Result<WriteAnswer, SinkFault> {
        match self.extend_from_slice(bytes) {
            Ok(()) => Ok(WriteAnswer::Bytes(bytes.len())),
            Err(_) => Err(SinkFault::NoMemory),
        }
    }

    fn write_all(&mut self, text: &[u8]) -> Result<(), SinkFault> {
        match self.extend_from_slice(text) {
            Ok(()) => Ok(()),
            Err(_) => Err(SinkFault::NoMemory),
        }
    }
}
