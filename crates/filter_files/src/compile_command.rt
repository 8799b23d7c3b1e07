//! The command `compile`.

ghost use Rattle.std.specs.Prelude.{◌≡◌, ◌≢◌, All, IfErr, IfOk, IfSome};
ghost use Rattle.filter_files.specs.Prelude.{reads_left, source_of, TellsOfReader, TellsOfWriter, Writes, WritesText, IsCompileOutput, IsOutputFront};
ghost use Rattle.filter_files.specs.Settings.{IsUsed};
ghost use Rattle.module_commands.specs.declared.ended.Ended.TheVariants as ended;

use crate::compiling::{FilterFault, FilterRead, compile_text};
use crate::settings::ParamSetting;
use author_compile::Compiled;
use byte_streams::{CountedSource, READS, Sink, Source};
use module_commands::{CommandOutput, Ended, PlayFault, read_all, write_text};
use std::alloc::{AllocError, Global};

/// The line of a fault.
fn fault_answer(fault: FilterFault) -> CommandOutput
    ensures text { result.text.items ≡ fault.line.items }
    ensures ended { result.ended ≡ ended.Refused }
{
    let FilterFault { place: _, line } = fault;
    CommandOutput {
        text: line,
        ended: Ended::Refused,
    }
}

/// The text of a module.
fn module_answer(compiled: Compiled) -> CommandOutput
    ensures text { result.text.items ≡ compiled.text.items }
    ensures ended { result.ended ≡ ended.Done }
{
    let Compiled {
        code: _,
        cert: _,
        text,
        per_byte: _,
    } = compiled;
    let ended = Ended::Done;
    CommandOutput { text, ended }
}

/// What is answered to a text.
fn answer_of(
    alloc: Global,
    text: &[u8],
    settings: &mut [ParamSetting<'_>],
    notes: &mut Vec<u8>,
) -> Result<CommandOutput, AllocError>
    ensures ok { IfOk result (λ a. IsCompileOutput text.now a.text.items a.ended) }
    ensures set { IfOk result (λ a. a.ended ≡ ended.Done → All IsUsed settings.new) }
{
    match compile_text(alloc, text, settings, true, notes)? {
        FilterRead::Compiled(compiled) => Ok(module_answer(compiled)),
        FilterRead::Faulty(fault) => Ok(fault_answer(fault)),
    }
}

/// Writes an answer. `Write`: the writer failed, and a front of the answer is written. `NoMemory`: the writer had none for it, and nothing is.
fn write_answer<W: Sink>(writer: &mut W, answer: &CommandOutput) -> Result<Ended, PlayFault>
    ensures ended { IfOk result (λ e. e ≡ answer.now.ended) }
    ensures text { WritesText (W.contents writer.old) (W.contents writer.new) answer.now.text.items result }
    ensures failed { TellsOfWriter (W.failed writer.old) (W.failed writer.new) result }
    ensures silent { result ≡ Err PlayFault.NoMemory → W.unchanged writer.old writer.new }
{
    write_text(writer, answer.text.as_slice())?;
    Ok(answer.ended)
}

/// Reads the text of a filter to its end: the text of its module, which the check accepted, or the line that tells why there is none. Each
/// setting must be for the filter. Figures of the module, and the source line of a fault, are added to the notes.
///
/// `Read`: the reader failed, or gave no end within the reads that were left to it. `NoMemory`: there was none for the text, the filter, the
/// module or the answer.
pub fn compile_output<R: Source>(
    alloc: Global,
    reader: &mut CountedSource<R>,
    settings: &mut [ParamSetting<'_>],
    notes: &mut Vec<u8>,
) -> Result<CommandOutput, PlayFault>
    ensures ok { IfOk result (λ a. IfSome (R.remaining (source_of reader.old)) (λ text. IsCompileOutput text a.text.items a.ended)) }
    ensures set { IfOk result (λ a. a.ended ≡ ended.Done → All IsUsed settings.new) }
    ensures fault { IfErr result (λ f. f ≢ PlayFault.Write) }
    ensures reader { TellsOfReader (R.failed (source_of reader.old)) (R.failed (source_of reader.new)) (reads_left reader.new) result }
{
    let text = read_all(alloc, reader)?;
    Ok(answer_of(alloc, text.as_slice(), settings, notes)?)
}

/// Reads the text of a filter to its end, and writes the text of its module, which the check accepted, or one line: `line L, column C: WHAT`
/// for the first fault of the text, or `cannot set NAME: WHY` for a setting. Figures of the module, and the source line of a fault, are added
/// to the notes.
///
/// `Read`: the reader failed, or gave no end within 1,000,000 reads of at most 8192 bytes. `NoMemory`: there was none for the text, the
/// filter, the module or the answer. Both write nothing. `Write`: the writer failed, and what it took is the front of the answer.
pub fn run_compile<R: Source, W: Sink>(
    alloc: Global,
    reader: &mut CountedSource<R>,
    settings: &mut [ParamSetting<'_>],
    writer: &mut W,
    notes: &mut Vec<u8>,
) -> Result<Ended, PlayFault>
    requires { reads_left reader.old ≡ READS }
    ensures ok { IfOk result (λ e. Writes (R.remaining (source_of reader.old)) (W.contents writer.old) (W.contents writer.new) (λ text out. IsCompileOutput text out e)) }
    ensures set { IfOk result (λ e. e ≡ ended.Done → All IsUsed settings.new) }
    ensures write { result ≡ Err PlayFault.Write
        → Writes (R.remaining (source_of reader.old)) (W.contents writer.old) (W.contents writer.new) (λ text out. IsOutputFront (IsCompileOutput text) out) }
    ensures silent { IfErr result (λ f. f ≢ PlayFault.Write → W.unchanged writer.old writer.new) }
    ensures reader { TellsOfReader (R.failed (source_of reader.old)) (R.failed (source_of reader.new)) (reads_left reader.new) result }
    ensures writer { TellsOfWriter (W.failed writer.old) (W.failed writer.new) result }
{
    let text = read_all(alloc, reader)?;
    let answer = answer_of(alloc, text.as_slice(), settings, notes)?;
    write_answer(writer, &answer)
}
