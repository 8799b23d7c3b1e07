//! What bytes are read from.

ghost use Rattle.std.specs.Prelude.{ℕ, ◌<◌, Bool, false, List, length, Option, Some, None};
ghost use Rattle.byte_streams.specs.Transfers.{IsRead};

/// What a read gives.
#[derive(Clone, Copy, Debug, PartialEq, Eq)]
pub enum ReadAnswer {
    /// So many bytes, one at least, at the front of the buffer.
    Bytes(usize),
    /// The end: nothing is left.
    End,
    /// Nothing now. A later read may give bytes, or the end.
    NotNow,
}

/// The source failed.
#[derive(Clone, Copy, Debug, PartialEq, Eq)]
pub struct ReadFailed;

/// What bytes are read from, and whether it failed.
pub trait Source {
    // The bytes that reads will give from here on, where they are known.
    ghost remaining: { Self → Option (List ℕ) } = { λ _. None };

    // Whether a read failed.
    ghost failed: { Self → Bool };

    /// Reads into a buffer, which has room for a byte at least. `ReadFailed`: the source failed, and nothing was taken from it.
    fn read(&mut self, buffer: &mut [u8]) -> Result<ReadAnswer, ReadFailed>
        requires { 0 < length buffer.old }
        ensures { IsRead (remaining self.old) (remaining self.new) (failed self.old) (failed self.new) buffer.new result };
}

impl<R: Source> Source for &mut R {
    ghost remaining = { λ r. R.remaining r.now };

    ghost failed = { λ r. R.failed r.now };

    fn read(&mut self, buffer: &mut [u8]) -> Result<ReadAnswer, ReadFailed> {
        Source::read(&mut **self, buffer)
    }
}

/// A slice gives its bytes, and never fails.
impl Source for &[u8] {
    ghost remaining = { λ s. Some s.now };

    ghost failed = { λ _. false };

    fn read(&mut self, buffer: &mut [u8]) -> Result<ReadAnswer, ReadFailed> {
        let all: &[u8] = *self;
        let count = all.len().min(buffer.len());
        if count == 0 {
            return Ok(ReadAnswer::End);
        }
        buffer[..count].copy_from_slice(&all[..count]);
        *self = &all[count..];
        Ok(ReadAnswer::Bytes(count))
    }
}
