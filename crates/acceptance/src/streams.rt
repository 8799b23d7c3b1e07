//! Readers and writers in memory that are slow, fail, or never end.

ghost use Rattle.std.specs.Prelude.{◌≡◌, ◌≤◌, length, refl};

use byte_streams::{ReadAnswer, ReadFailed, Sink, SinkFault, Source, WriteAnswer};

/// A reader that gives a text, and after it another one again and again.
#[derive(Clone, Copy)]
pub(crate) struct Feed<'a> {
    pub(crate) text: &'a [u8],
    /// What it gives at the end of the text; where this is empty, it ends.
    pub(crate) again: &'static [u8],
    /// How many bytes a read gives.
    pub(crate) step: usize,
    /// How many reads give nothing before each one that gives bytes.
    pub(crate) pauses: u32,
    /// How many of these are over.
    pub(crate) waited: u32,
    /// After so many bytes it fails.
    pub(crate) fails_after: usize,
    pub(crate) has_failed: bool,
}

impl Source for Feed<'_> {
    ghost failed = { λ s. s.has_failed };

    fn read(&mut self, buffer: &mut [u8]) -> Result<ReadAnswer, ReadFailed> {
        if self.fails_after == 0 {
            self.has_failed = true;
            return Err(ReadFailed);
        }
        if self.waited < self.pauses {
            self.waited += 1;
            return Ok(ReadAnswer::NotNow);
        }
        self.waited = 0;
        if self.text.is_empty() {
            self.text = self.again;
        }
        let most = self.step.min(buffer.len()).min(self.fails_after);
        let count = self.text.len().min(most);
        if count == 0 {
            return Ok(ReadAnswer::End);
        }
        buffer[..count].copy_from_slice(&self.text[..count]);
        self.text = &self.text[count..];
        self.fails_after -= count;
        Ok(ReadAnswer::Bytes(count))
    }
}

/// A writer that takes so many bytes and then fails. It compares them with what is due.
#[derive(Clone, Copy)]
pub(crate) struct Taker<'a> {
    /// What is due next.
    pub(crate) due: &'a [u8],
    /// How many bytes more it takes.
    pub(crate) room: usize,
    /// Whether all that it took was due.
    pub(crate) is_front: bool,
    pub(crate) has_failed: bool,
}

impl Taker<'_> {
    /// Takes a front of some bytes, as long as there is room, and gives its length.
    fn take(&mut self, bytes: &[u8]) -> usize
        ensures front { result ≤ length bytes.now }
        ensures failed { self.new.has_failed ≡ self.old.has_failed }
    {
        let count = bytes.len().min(self.room);
        match self.due.strip_prefix(&bytes[..count]) {
            Some(rest) => self.due = rest,
            None => self.is_front = false,
        }
        self.room -= count;
        count
    }
}

impl Sink for Taker<'_> {
    ghost failed = { λ s. s.has_failed };

    ghost unchanged = { λ a b. b ≡ a };

    ghost unchanged_self = { λ _. refl };

    fn write(&mut self, bytes: &[u8]) -> Result<WriteAnswer, SinkFault> {
        let count = self.take(bytes);
        if count == 0 {
            self.has_failed = true;
            return Err(SinkFault::Failed);
        }
        Ok(WriteAnswer::Bytes(count))
    }

    fn write_all(&mut self, text: &[u8]) -> Result<(), SinkFault> {
        let count = self.take(text);
        if count < text.len() {
            self.has_failed = true;
            return Err(SinkFault::Failed);
        }
        Ok(())
    }
}
