//! The command `assemble`.

ghost use Rattle.std.specs.Prelude.{◌≡◌, IfOk, IfErr, ◌≢◌};
ghost use Rattle.module_commands.specs.Prelude.{reads_left, source_of, Program, TellsOfReader, TellsOfWriter, Writes, IsModuleText, IsAssembled, IsOutputFront};

use crate::answer::{CommandOutput, asm_fault, write_answer};
use crate::ended::Ended;
use crate::fault::PlayFault;
use crate::streams::read_all;
use byte_streams::{CountedSource, READS, Sink, Source};
use byte_text::{TextWriter, WriteFault};
use module_code::Module;
use module_lang::{assemble, print_module};
use std::alloc::{AllocError, Global};

fn module_text(alloc: Global, code: &Module) -> Result<CommandOutput, AllocError>
    ensures { IfOk result (λ a. IsModuleText code.now a.text.items a.ended) }
{
    let mut out = TextWriter::new(Vec::new(alloc));
    match print_module(code, &mut out) {
        Ok(()) => {
            let text = out.into_writer();
            let ended = Ended::Done;
            Ok(CommandOutput { text, ended })
        }
        Err(WriteFault) => Err(AllocError),
    }
}

fn assembled(alloc: Global, text: &[u8]) -> Result<CommandOutput, AllocError>
    ensures { IfOk result (λ a. IsAssembled text.now a.text.items a.ended) }
{
    match assemble(alloc, text) {
        Ok(code) => module_text(alloc, &code),
        Err(refusal) => asm_fault(alloc, refusal),
    }
}

/// Reads a module text to its end, and writes the module as it is printed, or `asm line L code C` for its first fault.
///
/// `Read`: the reader failed, or gave no end within 1,000,000 reads of at most 8192 bytes. `NoMemory`: there was none for the
/// text, the module or the answer. Both write nothing. `Write`: the writer failed, and what it took is the front of the answer.
///
/// What is written is promised where it is known what the reader had left and what the writer holds, as of a slice and a `Vec`.
pub fn run_assemble<R: Source, W: Sink>(
    alloc: Global,
    reader: &mut CountedSource<R>,
    writer: &mut W,
) -> Result<Ended, PlayFault>
    requires { reads_left reader.old ≡ READS }
    ensures ok { IfOk result (λ e. Writes (R.remaining (source_of reader.old)) (W.contents writer.old) (W.contents writer.new) (λ text out. IsAssembled text out e)) }
    ensures write { result ≡ Err PlayFault.Write → Writes (R.remaining (source_of reader.old)) (W.contents writer.old) (W.contents writer.new) (λ text out. IsOutputFront (IsAssembled text) out) }
    ensures silent { IfErr result (λ f. f ≢ PlayFault.Write → W.unchanged writer.old writer.new) }
    ensures reader { TellsOfReader (R.failed (source_of reader.old)) (R.failed (source_of reader.new)) (reads_left reader.new) result }
    ensures writer { TellsOfWriter (W.failed writer.old) (W.failed writer.new) result }
{
    let text = read_all(alloc, reader)?;
    let answer = assembled(alloc, text.as_slice())?;
    write_answer(writer, &answer)
}
