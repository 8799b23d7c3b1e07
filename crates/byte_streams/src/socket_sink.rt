//! Sockets that are written to: a text in parts goes out in one call of the system.

ghost use Rattle.std.specs.Prelude.{◌≡◌, ◌≢◌, ◌≤◌, ℕ, List, Option, IfOk, None, Err, true, false, length, refl};
ghost use Rattle.std.specs.Io.KnownBytes.{WriteAppends};
ghost use Rattle.std.specs.Io.Slices.{io_slices_bytes};
ghost use Rattle.byte_streams.specs.Texts.{IsPut, joined};

use crate::parts::Parts;
use crate::sink::{Sink, SinkFault, WriteAnswer};
use std::io::{self, ErrorKind, IoSlice};

/// What writes a front of a text in parts in one call of the system.
pub trait WritesParts {
    // The bytes that it holds, where they are known.
    ghost contents: { Self → Option (List ℕ) } = { λ _. None };

    /// Writes, and tells how many bytes were taken. After an error none was.
    fn write_parts(&mut self, parts: Parts<'_>) -> io::Result<usize>
        ensures bound { IfOk result (λ n. n ≤ length (joined parts.entry)) }
        ensures bytes { WriteAppends (contents self.old) (contents self.new) result (joined parts.entry) };
}

/// A socket as a sink. It remembers whether a write failed: it answered an error, or took nothing of some bytes.
#[derive(Drop)]
pub struct SocketSink<W> {
    writer: W,
    is_polled: bool,
    has_failed: bool,
}

impl<W> SocketSink<W> {
    /// A socket whose writes wait. One that answers `WouldBlock` has failed: its time is over.
    pub fn new(writer: W) -> SocketSink<W>
        ensures writer { result.writer ≡ writer }
        ensures waits { result.is_polled ≡ false }
        ensures sound { result.has_failed ≡ false }
    {
        SocketSink {
            writer,
            is_polled: false,
            has_failed: false,
        }
    }

    /// A socket whose writes do not wait: `WouldBlock` is `NotNow`.
    pub fn polled(writer: W) -> SocketSink<W>
        ensures writer { result.writer ≡ writer }
        ensures polled { result.is_polled ≡ true }
        ensures sound { result.has_failed ≡ false }
    {
        SocketSink {
            writer,
            is_polled: true,
            has_failed: false,
        }
    }
}

/// A text that is one part.
fn whole(text: &[u8]) -> Parts<'_>
    ensures { joined result ≡ text.now }
{
    Parts {
        first: text,
        second: &[],
        third: &[],
    }
}

impl<W: WritesParts> Sink for SocketSink<W> {
    ghost contents = { λ s. W.contents s.writer };

    ghost failed = { λ s. s.has_failed };

    ghost unchanged = { λ a b. b ≡ a };

    ghost unchanged_self = { λ _. refl };

    fn write(&mut self, bytes: &[u8]) -> Result<WriteAnswer, SinkFault> {
        self.write_parts(whole(bytes))
    }

    fn write_all(&mut self, text: &[u8]) -> Result<(), SinkFault> {
        self.put_parts(whole(text))
    }

    fn write_parts(&mut self, parts: Parts<'_>) -> Result<WriteAnswer, SinkFault> {
        match self.writer.write_parts(parts) {
            Ok(count) if count > 0 => Ok(WriteAnswer::Bytes(count)),
            Err(e) if self.is_polled && e.kind() == ErrorKind::WouldBlock => {
                Ok(WriteAnswer::NotNow)
            }
            _ => {
                self.has_failed = true;
                Err(SinkFault::Failed)
            }
        }
    }

    fn put_parts(&mut self, parts: Parts<'_>) -> Result<(), SinkFault>
        ensures put { IsPut (W.contents self.old.writer) (W.contents self.new.writer) self.old.has_failed self.new.has_failed (joined parts.entry) result }
        ensures known { result ≢ Err SinkFault.NoMemory }
    {
        let mut rest = parts;
        while !rest.is_empty() {
            match self.writer.write_parts(rest) {
                Ok(0) | Err(_) => {
                    self.has_failed = true;
                    return Err(SinkFault::Failed);
                }
                Ok(count) => rest = rest.behind(count),
            }
        }
        Ok(())
    }
}

/// The parts as the system takes them.
pub fn io_slices(parts: Parts<'_>) -> [IoSlice<'_>; 3]
    ensures { io_slices_bytes result ≡ joined parts.entry }
{
    [
        IoSlice::new(parts.first),
        IoSlice::new(parts.second),
        IoSlice::new(parts.third),
    ]
}
