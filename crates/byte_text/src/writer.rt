//! The whole of a text, into a writer.

ghost use Rattle.std.specs.Prelude.{◌≡◌, false};
ghost use Rattle.byte_text.specs.Writes.{Wrote, is_failed, writer_in, writer_state};

use std::io::Write;
use thiserror::Error;

/// The writer failed: it answered a fault, an interrupted write included, or took no byte.
#[derive(Clone, Copy, Debug, Error)]
#[error("cannot write")]
pub struct WriteFault;

/// A writer of texts. It remembers whether a write failed.
#[derive(Drop)]
pub struct TextWriter<W> {
    writer: W,
    has_failed: bool,
}

impl<W> TextWriter<W> {
    /// A writer that has not failed.
    pub fn new(writer: W) -> TextWriter<W>
        ensures writer { writer_in result ≡ writer }
        ensures sound { is_failed result ≡ false }
    {
        TextWriter {
            writer,
            has_failed: false,
        }
    }

    /// Whether a write failed.
    pub fn has_failed(&self) -> bool
        ensures { result ≡ is_failed self.now }
    {
        self.has_failed
    }

    /// What it wrote into.
    pub fn into_writer(self) -> W
        ensures { result ≡ writer_in self }
    {
        let TextWriter {
            writer,
            has_failed: _,
        } = self;
        writer
    }
}

/// Writes all of a text. Where that fails, a front of it is written, and the writer failed.
pub fn put_all<W: Write>(out: &mut TextWriter<W>, text: &[u8]) -> Result<(), WriteFault>
    ensures { Wrote result (writer_state W.contents out.old) (writer_state W.contents out.new) text.now }
{
    let mut at = 0;
    while at < text.len() {
        match out.writer.write(&text[at..]) {
            Ok(0) | Err(_) => {
                out.has_failed = true;
                return Err(WriteFault);
            }
            Ok(count) => at += count,
        }
    }
    Ok(())
}
