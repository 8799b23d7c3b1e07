//! The command `certify`.

ghost use Rattle.std.specs.Prelude.{◌≡◌, ◌≢◌, false, IfOk, IfErr};
ghost use Rattle.module_commands.specs.Prelude.{reads_left, source_of, seen_cert, version_two, cert_text, made, TellsOfReader, TellsOfWriter, Writes, made_form, IsCertification, IsCertified, IsOutputFront};
ghost use Rattle.module_commands.specs.declared.ended.Ended.TheVariants as ended;

use crate::answer::{CommandOutput, asm_fault, cert_text, refused_at, write_answer};
use crate::ended::Ended;
use crate::fault::PlayFault;
use crate::streams::read_all;
use byte_streams::{CountedSource, READS, Sink, Source};
use life_cert::{MakeRefusal, make, slim};
use life_check::{Cert, CheckRefusal};
use module_code::Module;
use module_lang::assemble;
use std::alloc::{AllocError, Global};

/// The text of a certificate that was made, or of its slim form.
fn made_text(
    alloc: Global,
    code: &Module,
    cert: &Cert,
    is_slim: bool,
) -> Result<CommandOutput, AllocError>
    requires version { cert.now.version ≡ version_two code.now }
    requires whole { cert.now.slim ≡ false }
    requires made { seen_cert cert.now ≡ made code.now }
    ensures { IfOk result (λ a. (a.text.items ≡ cert_text (version_two code.now) is_slim (made_form is_slim code.now)) × (a.ended ≡ ended.Done)) }
{
    if is_slim {
        let slim = slim(alloc, code, cert)?;
        cert_text(alloc, &slim)
    } else {
        cert_text(alloc, cert)
    }
}

fn certification(alloc: Global, code: &Module, is_slim: bool) -> Result<CommandOutput, AllocError>
    ensures { IfOk result (λ a. IsCertification is_slim code.now a.text.items a.ended) }
{
    match make(alloc, code) {
        Ok(cert) => made_text(alloc, code, &cert, is_slim),
        Err(MakeRefusal::At { pc, rule }) => refused_at(alloc, CheckRefusal { pc, rule }),
        Err(MakeRefusal::NoMemory) => Err(AllocError),
    }
}

fn certified(alloc: Global, text: &[u8], is_slim: bool) -> Result<CommandOutput, AllocError>
    ensures { IfOk result (λ a. IsCertified is_slim text.now a.text.items a.ended) }
{
    match assemble(alloc, text) {
        Ok(code) => certification(alloc, &code, is_slim),
        Err(refusal) => asm_fault(alloc, refusal),
    }
}

/// Reads a module text to its end, and writes a certificate of the module, in its slim form where that is asked for, or `refused at PC: RULE` where none is made, or `asm line
/// L code C` for the first fault of the text.
///
/// `Read`: the reader failed, or gave no end within 1,000,000 reads of at most 8192 bytes. `NoMemory`: there was none for the
/// text, the module, the certificate or the answer. Both write nothing. `Write`: the writer failed, and what it took is the front
/// of the answer.
///
/// What is written is promised where it is known what the reader had left and what the writer holds, as of a slice and a `Vec`.
pub fn run_certify<R: Source, W: Sink>(
    alloc: Global,
    reader: &mut CountedSource<R>,
    writer: &mut W,
    is_slim: bool,
) -> Result<Ended, PlayFault>
    requires { reads_left reader.old ≡ READS }
    ensures ok { IfOk result (λ e. Writes (R.remaining (source_of reader.old)) (W.contents writer.old) (W.contents writer.new) (λ text out. IsCertified is_slim text out e)) }
    ensures write { result ≡ Err PlayFault.Write
        → Writes (R.remaining (source_of reader.old)) (W.contents writer.old) (W.contents writer.new) (λ text out. IsOutputFront (IsCertified is_slim text) out) }
    ensures silent { IfErr result (λ f. f ≢ PlayFault.Write → W.unchanged writer.old writer.new) }
    ensures reader { TellsOfReader (R.failed (source_of reader.old)) (R.failed (source_of reader.new)) (reads_left reader.new) result }
    ensures writer { TellsOfWriter (W.failed writer.old) (W.failed writer.new) result }
{
    let text = read_all(alloc, reader)?;
    let answer = certified(alloc, text.as_slice(), is_slim)?;
    write_answer(writer, &answer)
}
