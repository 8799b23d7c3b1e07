//! Readers that remember what they gave, and writers that remember what they took.

use std::alloc::Global;
use std::io::{self, Read, Write};

fn memory(alloc: Global, remembers: bool) -> Option<Vec<u8>> {
    if remembers {
        Some(Vec::new(alloc))
    } else {
        None
    }
}

// Adds bytes to what is remembered. Without memory all of it is forgotten.
fn remember(memory: &mut Option<Vec<u8>>, bytes: &[u8]) {
    if let Some(mut bytes_before) = memory.take() {
        if bytes_before.extend_from_slice(bytes).is_ok() {
            *memory = Some(bytes_before);
        }
    }
}

fn remembered(memory: &Option<Vec<u8>>) -> &[u8] {
    match memory {
        Some(bytes) => bytes.as_slice(),
        None => &[],
    }
}

/// A reader that remembers what it gave, where it is asked to and there is memory.
#[derive(Drop)]
pub struct Recorded<R: Drop> {
    reader: R,
    given: Option<Vec<u8>>,
}

impl<R: Drop> Recorded<R> {
    /// A reader that gave nothing yet.
    pub fn new(alloc: Global, reader: R, remembers: bool) -> Self {
        let given = memory(alloc, remembers);
        Recorded { reader, given }
    }

    /// What it gave; nothing where it does not remember.
    pub fn given(&self) -> &[u8] {
        remembered(&self.given)
    }

    /// The reader.
    pub fn reader(&self) -> &R {
        &self.reader
    }
}

impl<R: Read + Drop> Read for Recorded<R> {
    fn read(&mut self, buf: &mut [u8]) -> io::Result<usize> {
        let count = self.reader.read(buf)?;
        remember(&mut self.given, &buf[..count]);
        Ok(count)
    }
}

/// A writer that remembers what it took, where it is asked to and there is memory.
#[derive(Drop)]
pub struct RecordedWriter<W: Drop> {
    writer: W,
    taken: Option<Vec<u8>>,
}

impl<W: Drop> RecordedWriter<W> {
    /// A writer that took nothing yet.
    pub fn new(alloc: Global, writer: W, remembers: bool) -> Self {
        let taken = memory(alloc, remembers);
        RecordedWriter { writer, taken }
    }

    /// What it took; nothing where it does not remember.
    pub fn taken(&self) -> &[u8] {
        remembered(&self.taken)
    }
}

impl<W: Write + Drop> Write for RecordedWriter<W> {
    fn write(&mut self, buf: &[u8]) -> io::Result<usize> {
        let count = self.writer.write(buf)?;
        remember(&mut self.taken, &buf[..count]);
        Ok(count)
    }

    fn flush(&mut self) -> io::Result<()> {
        self.writer.flush()
    }
}
