//! Readers and writers of the standard library, as sources and sinks that remember whether a call failed.

ghost use Rattle.std.specs.Prelude.{◌≡◌, ◌≢◌, ◌<◌, false, refl, length};
ghost use Rattle.byte_streams.specs.Counted.{reads_left, source_of};
ghost use Rattle.byte_streams.specs.Transfers.{IsRead, IsWritten};

use crate::counted::{CountedSource, READS};
use crate::sink::{Sink, SinkFault, WriteAnswer};
use crate::source::{ReadAnswer, ReadFailed, Source};
use std::io::{ErrorKind, Read, Write};

/// A reader as a source. It remembers whether a read failed: it answered an error, `Interrupted` included.
#[derive(Drop)]
pub struct StdSource<R> {
    /// The reader.
    pub reader: R,
    /// Whether `WouldBlock` is no failure, but means that there is nothing now.
    pub is_polled: bool,
    /// Whether a read failed.
    pub has_failed: bool,
}

impl<R> StdSource<R> {
    /// A reader whose reads wait. One that answers `WouldBlock` has failed, as a socket whose time is over.
    pub fn new(reader: R) -> StdSource<R>
        ensures reader { result.reader ≡ reader }
        ensures sound { result.has_failed ≡ false }
    {
        StdSource {
            reader,
            is_polled: false,
            has_failed: false,
        }
    }

    /// A reader whose reads do not wait, as a socket in an event loop: `WouldBlock` is `NotNow`.
    pub fn polled(reader: R) -> StdSource<R>
        ensures reader { result.reader ≡ reader }
        ensures sound { result.has_failed ≡ false }
    {
        StdSource {
            reader,
            is_polled: true,
            has_failed: false,
        }
    }
}

impl<R> CountedSource<StdSource<R>> {
    /// A reader whose reads wait, which is read at most `READS` times.
    pub fn from_reader(reader: R) -> CountedSource<StdSource<R>>
        ensures reader { (source_of result).reader ≡ reader }
        ensures sound { (source_of result).has_failed ≡ false }
        ensures left { reads_left result ≡ READS }
    {
        CountedSource::new(StdSource::new(reader), READS)
    }
}

impl<R: Read> Source for StdSource<R> {
    ghost remaining = { λ s. R.remaining s.reader };

    ghost failed = { λ s. s.has_failed };

    fn read(&mut self, buffer: &mut [u8]) -> Result<ReadAnswer, ReadFailed>
        requires { 0 < length buffer.old }
        ensures read { IsRead (R.remaining self.old.reader) (R.remaining self.new.reader) self.old.has_failed self.new.has_failed buffer.new result }
        ensures waits { self.old.is_polled ≡ false → result ≢ Ok ReadAnswer.NotNow }
    {
        match self.reader.read(buffer) {
            Ok(0) => Ok(ReadAnswer::End),
            Ok(count) => Ok(ReadAnswer::Bytes(count)),
            Err(e) if self.is_polled && e.kind() == ErrorKind::WouldBlock => Ok(ReadAnswer::NotNow),
            Err(_) => {
                self.has_failed = true;
                Err(ReadFailed)
            }
        }
    }
}

/// A writer as a sink. It remembers whether a write failed: it answered an error, `Interrupted` included, or took nothing of some bytes.
#[derive(Drop)]
pub struct StdSink<W> {
    /// The writer.
    pub writer: W,
    /// Whether a write failed.
    pub has_failed: bool,
}

impl<W> StdSink<W> {
    /// A writer whose writes wait. One that answers `WouldBlock` has failed, as a socket whose time is over.
    pub fn new(writer: W) -> StdSink<W>
        ensures writer { result.writer ≡ writer }
        ensures sound { result.has_failed ≡ false }
    {
        StdSink {
            writer,
            has_failed: false,
        }
    }
}

impl<W: Write> Sink for StdSink<W> {
    ghost contents = { λ s. W.contents s.writer };

    ghost failed = { λ s. s.has_failed };

    ghost unchanged = { λ a b. b ≡ a };

    ghost unchanged_self = { λ _. refl };

    fn write(&mut self, bytes: &[u8]) -> Result<WriteAnswer, SinkFault>
        requires { 0 < length bytes.now }
        ensures written { IsWritten (W.contents self.old.writer) (W.contents self.new.writer) self.old.has_failed self.new.has_failed bytes.now result }
        ensures waits { result ≢ Ok WriteAnswer.NotNow }
        ensures known { result ≢ Err SinkFault.NoMemory }
    {
        match self.writer.write(bytes) {
            Ok(count) if count > 0 => Ok(WriteAnswer::Bytes(count)),
            _ => {
                self.has_failed = true;
                Err(SinkFault::Failed)
            }
        }
    }

    fn write_all(&mut self, text: &[u8]) -> Result<(), SinkFault> {
        let mut at = 0;
        while at < text.len() {
            match self.writer.write(&text[at..]) {
                Ok(0) | Err(_) => {
                    self.has_failed = true;
                    return Err(SinkFault::Failed);
                }
                Ok(count) => at += count,
            }
        }
        Ok(())
    }
}
