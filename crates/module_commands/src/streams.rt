//! The whole of what a reader gives, and a text for a writer.

ghost use Rattle.std.specs.Prelude.{◌≡◌, ◌≢◌, IfOk, IfErr, OnOk};
ghost use Rattle.std.specs.Io.KnownBytes.{Consumes, IsAtEnd};
ghost use Rattle.module_commands.specs.Prelude.{reads_left, source_of, TellsOfReader, TellsOfWriter, WritesText};

use crate::fault::PlayFault;
use byte_streams::{CountedSource, READ_BYTES, ReadAnswer, Sink, SinkFault, Source};
use std::alloc::Global;

/// All that the reader gives up to its end. `Read`: the reader failed, or gave no end within the reads that were left to it. `NoMemory`: there was
/// none for the text.
pub fn read_all<R: Source>(
    alloc: Global,
    reader: &mut CountedSource<R>,
) -> Result<Vec<u8>, PlayFault>
    ensures taken { IfOk result (λ text. Consumes (R.remaining (source_of reader.old)) (R.remaining (source_of reader.new)) text.items) }
    ensures end { OnOk result (IsAtEnd (R.remaining (source_of reader.new))) }
    ensures fault { IfErr result (λ e. e ≢ PlayFault.Write) }
    ensures failed { TellsOfReader (R.failed (source_of reader.old)) (R.failed (source_of reader.new)) (reads_left reader.new) result }
{
    let mut text = Vec::new(alloc);
    let mut buffer = [0; READ_BYTES];
    for _ in 0..reader.left() {
        match reader.read(&mut buffer) {
            Ok(ReadAnswer::Bytes(count)) => text.extend_from_slice(&buffer[..count])?,
            Ok(ReadAnswer::End) => return Ok(text),
            Ok(ReadAnswer::NotNow) => continue,
            Err(_) => return Err(PlayFault::Read),
        }
    }
    Err(PlayFault::Read)
}

/// Writes all of a text. `Write`: the writer failed, and a front of the text is written, but not all of it. `NoMemory`: the writer had none for
/// the text, and is as it was.
pub fn write_text<W: Sink>(writer: &mut W, text: &[u8]) -> Result<(), PlayFault>
    ensures text { WritesText (W.contents writer.old) (W.contents writer.new) text.now result }
    ensures failed { TellsOfWriter (W.failed writer.old) (W.failed writer.new) result }
    ensures silent { result ≡ Err PlayFault.NoMemory → W.unchanged writer.old writer.new }
{
    match writer.write_all(text) {
        Ok(()) => Ok(()),
        Err(SinkFault::Failed) => Err(PlayFault::Write),
        Err(SinkFault::NoMemory) => Err(PlayFault::NoMemory),
    }
}
