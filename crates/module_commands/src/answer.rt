//! What a command writes that is given texts, and how it ends.

ghost use Rattle.std.specs.Prelude.{◌≡◌, IfOk};
ghost use Rattle.life_check.specs.Seen.{seen_cert};
ghost use Rattle.life_cert.specs.CertText.{cert_text};
ghost use Rattle.module_commands.specs.declared.ended.Ended.TheVariants as ended;
ghost use Rattle.module_commands.specs.StreamFaults.{TellsOfWriter};
ghost use Rattle.module_commands.specs.Streams.{WritesText};
ghost use Rattle.module_commands.specs.TextAnswers.{TellsAsmFault, TellsRefusal};

use crate::ended::Ended;
use crate::fault::PlayFault;
use crate::streams::write_text;
use byte_streams::Sink;
use byte_text::{TextWriter, WriteFault};
use life_cert::print_cert;
use life_check::{Cert, CheckRefusal};
use module_lang::AsmRefusal;
use script_text::{put_asm_fault, put_refused_at};
use std::alloc::{AllocError, Global};

/// What a command writes, and how it ends.
#[derive(Drop)]
pub struct CommandOutput {
    /// The text, whole lines.
    pub text: Vec<u8>,
    /// How the command ends.
    pub ended: Ended,
}

/// The line that tells why a text is no module.
pub fn asm_fault(alloc: Global, refusal: AsmRefusal) -> Result<CommandOutput, AllocError>
    ensures { IfOk result (λ a. TellsAsmFault refusal a.text.items a.ended) }
{
    match refusal {
        AsmRefusal::Fault { line, code } => {
            let mut text = Vec::new(alloc);
            put_asm_fault(alloc, &mut text, line, code.number())?;
            let ended = Ended::Refused;
            Ok(CommandOutput { text, ended })
        }
        AsmRefusal::NoMemory => Err(AllocError),
    }
}

/// The line that tells what a certificate fails.
pub fn refused_at(alloc: Global, refusal: CheckRefusal) -> Result<CommandOutput, AllocError>
    ensures { IfOk result (λ a. TellsRefusal refusal a.text.items a.ended) }
{
    let mut text = Vec::new(alloc);
    put_refused_at(alloc, &mut text, refusal.pc, refusal.rule)?;
    let ended = Ended::Refused;
    Ok(CommandOutput { text, ended })
}

/// The text of a certificate.
pub fn cert_text(alloc: Global, cert: &Cert) -> Result<CommandOutput, AllocError>
    ensures { IfOk result (λ a. (a.text.items ≡ cert_text cert.now.version cert.now.slim (seen_cert cert.now)) × (a.ended ≡ ended.Done)) }
{
    let mut out = TextWriter::new(Vec::new(alloc));
    match print_cert(cert, &mut out) {
        Ok(()) => {
            let text = out.into_writer();
            let ended = Ended::Done;
            Ok(CommandOutput { text, ended })
        }
        Err(WriteFault) => Err(AllocError),
    }
}

/// The answer of one line.
pub fn line_answer(alloc: Global, line: &str, ended: Ended) -> Result<CommandOutput, AllocError>
    ensures { IfOk result (λ a. (a.text.items ≡ line.now) × (a.ended ≡ ended)) }
{
    let text = Vec::from_slice(alloc, line.as_bytes())?;
    Ok(CommandOutput { text, ended })
}

/// Writes an answer. `Write`: the writer failed, and a front of the answer is written. `NoMemory`: the writer had none for it, and nothing is.
pub fn write_answer<W: Sink>(writer: &mut W, answer: &CommandOutput) -> Result<Ended, PlayFault>
    ensures ended { IfOk result (λ e. e ≡ answer.now.ended) }
    ensures text { WritesText (W.contents writer.old) (W.contents writer.new) answer.now.text.items result }
    ensures failed { TellsOfWriter (W.failed writer.old) (W.failed writer.new) result }
    ensures silent { result ≡ Err PlayFault.NoMemory → W.unchanged writer.old writer.new }
{
    write_text(writer, answer.text.as_slice())?;
    Ok(answer.ended)
}
