//! A script, from a reader to a writer, answered as it is read.

ghost use Rattle.std.specs.Prelude.{◌≡◌, ◌≢◌, ◌<◌, ◌≤◌, ◌+◌, ◌-◌, ◌^◌, ◌++◌, [], ℕ, length, slice_index, IfOk};
ghost use Rattle.script_play.specs.Prelude.{reads_left, source_of, lines_of, PlaysLines, PlaysBytes, PlaysEnd, EndsLines, TellsOfReader, TellsOfWriter, Writes, IsAt, Stage, Reading, no_head, HasNoLf};
ghost use Rattle.script_play.specs.Prelude.{AnswersLinesRead, IsWrittenFor, IsOnlyTextFor, IsFrontOf, IsCutOf};

use crate::player::Player;
use byte_streams::{CountedSource, READ_BYTES, READS, ReadAnswer, Sink, Source};
use filter_chain::{RawRings, Rings, Stored};
use module_commands::{Ended, PlayFault, write_text};
use std::alloc::{AllocError, Global};

/// Plays lines, and writes the answers. Without memory for an answer what was answered so far is written; without memory in the writer, nothing.
fn play_lines<R: Rings<Stored> + Drop, W: Sink>(
    alloc: Global,
    player: &mut Player<R>,
    lines: &[u8],
    writer: &mut W,
) -> Result<(), PlayFault>
    requires at { (s : Stage) × IsAt player.old s }
    requires few { player.old.lines + length lines.now < 2 ^ 62 }
    ensures plays { (s : Stage) → IsAt player.old s → PlaysLines player.old player.new (W.contents writer.old) (W.contents writer.new) (lines_of lines.now) s result }
    ensures writer { TellsOfWriter (W.failed writer.old) (W.failed writer.new) result }
{
    let mut answers = Vec::new(alloc);
    let outcome = player.take(lines, &mut answers);
    write_text(writer, answers.as_slice())?;
    match outcome {
        Ok(()) => Ok(()),
        Err(AllocError) => Err(PlayFault::NoMemory),
    }
}

/// The script has no more lines: tells how the play ends, and writes what is answered of that.
fn end_lines<R: Rings<Stored> + Drop, W: Sink>(
    alloc: Global,
    player: &mut Player<R>,
    writer: &mut W,
) -> Result<Ended, PlayFault>
    requires at { (s : Stage) × IsAt player.old s }
    ensures ends { (s : Stage) → IsAt player.old s → EndsLines (W.contents writer.old) (W.contents writer.new) s result }
    ensures writer { TellsOfWriter (W.failed writer.old) (W.failed writer.new) result }
{
    let mut answers = Vec::new(alloc);
    let outcome = player.end(&mut answers);
    write_text(writer, answers.as_slice())?;
    match outcome {
        Ok(ended) => Ok(ended),
        Err(AllocError) => Err(PlayFault::NoMemory),
    }
}

/// The script has ended, with this line, which has no LF, or at the end of a line.
fn end_play<R: Rings<Stored> + Drop, W: Sink>(
    alloc: Global,
    player: &mut Player<R>,
    last: &[u8],
    writer: &mut W,
) -> Result<Ended, PlayFault>
    requires at { (s : Stage) × IsAt player.old s }
    requires few { player.old.lines + length last.now < 2 ^ 62 }
    ensures plays { (s : Stage) → IsAt player.old s → PlaysEnd (player.old.lines + 1) (W.contents writer.old) (W.contents writer.new) (lines_of last.now) s result }
    ensures writer { TellsOfWriter (W.failed writer.old) (W.failed writer.new) result }
{
    play_lines(alloc, player, last, writer)?;
    end_lines(alloc, player, writer)
}

/// How many of the bytes are whole lines.
fn whole_lines(bytes: &[u8]) -> usize
    ensures within { result ≤ length bytes.now }
    ensures ends { 0 < result → slice_index bytes.now (result - 1) ≡ 10 }
    ensures rest { (k : ℕ) → result ≤ k → k < length bytes.now → slice_index bytes.now k ≢ 10 }
{
    let mut len = bytes.len();
    while len > 0 && bytes[len - 1] != b'\n' {
        len -= 1;
    }
    len
}

/// Takes bytes behind those that are held back of a line, and plays the lines that are whole by then. What is left is held back.
fn take_bytes<R: Rings<Stored> + Drop, W: Sink>(
    alloc: Global,
    player: &mut Player<R>,
    held: &mut Vec<u8>,
    bytes: &[u8],
    writer: &mut W,
) -> Result<(), PlayFault>
    requires at { (s : Stage) × IsAt player.old s }
    requires few { player.old.lines + length held.old.items + length bytes.now < 2 ^ 62 }
    requires unended { HasNoLf held.old.items }
    ensures plays { (s : Stage) → IsAt player.old s → PlaysBytes player.old player.new (W.contents writer.old) (W.contents writer.new) (held.old.items ++ bytes.now) held.new.items s result }
    ensures writer { TellsOfWriter (W.failed writer.old) (W.failed writer.new) result }
{
    let whole = whole_lines(bytes);
    if whole > 0 {
        held.extend_from_slice(&bytes[..whole])?;
        play_lines(alloc, player, held.as_slice(), writer)?;
        held.clear();
    }
    held.extend_from_slice(&bytes[whole..])?;
    Ok(())
}

/// Plays the script that a reader gives, from its first line on.
fn play_all<R: Rings<Stored> + Drop, S: Source, W: Sink>(
    alloc: Global,
    player: &mut Player<R>,
    held: &mut Vec<u8>,
    reader: &mut CountedSource<S>,
    writer: &mut W,
) -> Result<Ended, PlayFault>
    requires reads { reads_left reader.old ≡ READS }
    requires at { IsAt player.old (Reading no_head) }
    requires none { player.old.lines ≡ 0 }
    requires empty { held.old.items ≡ [] }
    ensures ok { IfOk result (λ e. Writes (S.remaining (source_of reader.old)) (W.contents writer.old) (W.contents writer.new) (λ script text. IsWrittenFor script text e)) }
    ensures read { result ≡ Err PlayFault.Read
        → Writes (S.remaining (source_of reader.old)) (W.contents writer.old) (W.contents writer.new) (λ script text. AnswersLinesRead script text
        (S.remaining (source_of reader.new))) }
    ensures memory { result ≡ Err PlayFault.NoMemory
        → Writes (S.remaining (source_of reader.old)) (W.contents writer.old) (W.contents writer.new) (λ script text. IsFrontOf script text (S.remaining
        (source_of reader.new))) }
    ensures write { result ≡ Err PlayFault.Write
        → Writes (S.remaining (source_of reader.old)) (W.contents writer.old) (W.contents writer.new) (λ script text. IsCutOf script text (S.remaining
        (source_of reader.new))) }
    ensures reader { TellsOfReader (S.failed (source_of reader.old)) (S.failed (source_of reader.new)) (reads_left reader.new) result }
    ensures writer { TellsOfWriter (W.failed writer.old) (W.failed writer.new) result }
{
    let mut buffer = [0; READ_BYTES];
    for _ in 0..READS {
        match reader.read(&mut buffer) {
            Ok(ReadAnswer::Bytes(count)) => {
                take_bytes(alloc, player, held, &buffer[..count], writer)?;
            }
            Ok(ReadAnswer::End) => return end_play(alloc, player, held.as_slice(), writer),
            Ok(ReadAnswer::NotNow) => continue,
            Err(_) => return Err(PlayFault::Read),
        }
        if player.is_over() {
            return Ok(Ended::Refused);
        }
    }
    Err(PlayFault::Read)
}

/// Plays the script that a reader gives, on a host over these rings.
fn play_over<R: Rings<Stored> + Drop, S: Source, W: Sink>(
    alloc: Global,
    reader: &mut CountedSource<S>,
    writer: &mut W,
) -> Result<Ended, PlayFault>
    requires { reads_left reader.old ≡ READS }
    ensures ok { IfOk result (λ e. Writes (S.remaining (source_of reader.old)) (W.contents writer.old) (W.contents writer.new) (λ script text. IsWrittenFor script text e)) }
    ensures read { result ≡ Err PlayFault.Read
        → Writes (S.remaining (source_of reader.old)) (W.contents writer.old) (W.contents writer.new) (λ script text. AnswersLinesRead script text
        (S.remaining (source_of reader.new))) }
    ensures memory { result ≡ Err PlayFault.NoMemory
        → Writes (S.remaining (source_of reader.old)) (W.contents writer.old) (W.contents writer.new) (λ script text. IsFrontOf script text (S.remaining
        (source_of reader.new))) }
    ensures write { result ≡ Err PlayFault.Write
        → Writes (S.remaining (source_of reader.old)) (W.contents writer.old) (W.contents writer.new) (λ script text. IsCutOf script text (S.remaining
        (source_of reader.new))) }
    ensures reader { TellsOfReader (S.failed (source_of reader.old)) (S.failed (source_of reader.new)) (reads_left reader.new) result }
    ensures writer { TellsOfWriter (W.failed writer.old) (W.failed writer.new) result }
{
    let mut player = Player::<R>::new(alloc);
    let mut held = Vec::new(alloc);
    play_all(alloc, &mut player, &mut held, reader, writer)
}

/// Plays the script that a reader gives, and writes the answers. What was read is answered before more is read.
///
/// `Read`: the reader failed, or gave no end within 1,000,000 reads of at most 8192 bytes; all whole lines that were read are answered.
/// `NoMemory`: all lines are answered but those that end in the last 8192 bytes that were read; of these, some first ones may be.
/// `Write`: the writer failed; the same lines are answered, and of what follows it took a front, but not all of it.
///
/// What is written is promised where it is known what the reader had left and what the writer holds, as of a slice and a `Vec`. It is the
/// only text for its script, up to the first line that says that memory was refused (`only`).
pub fn run_play<R: Source, W: Sink>(
    alloc: Global,
    reader: &mut CountedSource<R>,
    writer: &mut W,
) -> Result<Ended, PlayFault>
    requires { reads_left reader.old ≡ READS }
    ensures ok { IfOk result (λ e. Writes (R.remaining (source_of reader.old)) (W.contents writer.old) (W.contents writer.new) (λ script text. IsWrittenFor script text e)) }
    ensures only { IfOk result (λ e. Writes (R.remaining (source_of reader.old)) (W.contents writer.old) (W.contents writer.new) (λ script text. IsOnlyTextFor script text e)) }
    ensures read { result ≡ Err PlayFault.Read
        → Writes (R.remaining (source_of reader.old)) (W.contents writer.old) (W.contents writer.new) (λ script text. AnswersLinesRead script text
        (R.remaining (source_of reader.new))) }
    ensures memory { result ≡ Err PlayFault.NoMemory
        → Writes (R.remaining (source_of reader.old)) (W.contents writer.old) (W.contents writer.new) (λ script text. IsFrontOf script text (R.remaining
        (source_of reader.new))) }
    ensures write { result ≡ Err PlayFault.Write
        → Writes (R.remaining (source_of reader.old)) (W.contents writer.old) (W.contents writer.new) (λ script text. IsCutOf script text (R.remaining
        (source_of reader.new))) }
    ensures reader { TellsOfReader (R.failed (source_of reader.old)) (R.failed (source_of reader.new)) (reads_left reader.new) result }
    ensures writer { TellsOfWriter (W.failed writer.old) (W.failed writer.new) result }
{
    play_over::<RawRings<Stored>, R, W>(alloc, reader, writer)
}
