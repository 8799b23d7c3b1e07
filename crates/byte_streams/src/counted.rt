//! A source that is read at most so many times.

ghost use Rattle.std.specs.Prelude.{◌≡◌, ◌+◌, ◌<◌, IfErr, IfOk, OnOk, length};
ghost use Rattle.byte_streams.specs.Counted.{IsCounted, reads_left, source_of};

use crate::source::{ReadAnswer, Source};
use thiserror::Error;

/// How many bytes a read of this project asks for.
pub const READ_BYTES: usize = 8192;

/// How many times a source of this project is read at most, the read that tells the end included.
pub const READS: u32 = 1_000_000;

/// Why a read of a source with a bound gives nothing.
#[derive(Clone, Copy, Debug, PartialEq, Eq, Error)]
pub enum CountedFault {
    /// The source failed.
    #[error("cannot read")]
    Failed,
    /// It was read as often as it may be, and was not asked again.
    #[error("too many reads")]
    TooManyReads,
}

/// A source that is read at most so many times. Each read is counted, also one that fails or gives nothing. Only a read changes it: so what is
/// left says how often it was read.
#[derive(Drop)]
pub struct CountedSource<R> {
    source: R,
    left: u32,
}

impl<R> CountedSource<R> {
    /// A source that may be read so many times.
    pub fn new(source: R, reads: u32) -> CountedSource<R>
        ensures source { source_of result ≡ source }
        ensures left { reads_left result ≡ reads }
    {
        CountedSource {
            source,
            left: reads,
        }
    }

    /// The source.
    pub fn source(&self) -> &R
        ensures { result.now ≡ source_of self.now }
    {
        &self.source
    }

    /// How many more times it may be read.
    pub fn left(&self) -> u32
        ensures { result ≡ reads_left self.now }
    {
        self.left
    }
}

impl<R: Source> CountedSource<R> {
    /// Reads into a buffer, which has room for a byte at least. `Failed`: the source failed, and nothing was taken from it. `TooManyReads`:
    /// no read was left, and the source was not asked.
    pub fn read(&mut self, buffer: &mut [u8]) -> Result<ReadAnswer, CountedFault>
        requires { 0 < length buffer.old }
        ensures { IsCounted (reads_left self.old) (reads_left self.new) (R.remaining (source_of self.old)) (R.remaining (source_of self.new)) (R.failed
            (source_of self.old)) (R.failed (source_of self.new)) buffer.new result }
    {
        if self.left == 0 {
            return Err(CountedFault::TooManyReads);
        }
        self.left -= 1;
        match self.source.read(buffer) {
            Ok(answer) => Ok(answer),
            Err(_) => Err(CountedFault::Failed),
        }
    }
}
