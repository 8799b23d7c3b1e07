//! The command `check`.

ghost use Rattle.std.specs.Prelude.{◌≡◌, ◌≢◌, IfErr, IfOk, IfSome};
ghost use Rattle.module_commands.specs.Prelude.{reads_left, source_of, TellsOfReaders, TellsOfWriter, Writes, IsCheckOutput, IsOutputFront};

use crate::answer::write_answer;
use crate::cert_answer::{CertTask, answer_to};
use crate::ended::Ended;
use crate::fault::PlayFault;
use crate::streams::read_all;
use byte_streams::{CountedSource, READS, Sink, Source};
use std::alloc::Global;

/// Reads a module text to its end, and then a certificate text, and writes `accepted` where the module is accepted with that
/// certificate, else `refused at PC: RULE`. A text that is none is reported by `asm line L code C` or `cert line L code C`; where the
/// first is no module the second is not read.
///
/// `Read`: a reader failed, or gave no end within 1,000,000 reads of at most 8192 bytes. `NoMemory`: there was none for the texts,
/// the module, the certificate or the answer. Both write nothing. `Write`: the writer failed, and what it took is the front of the
/// answer.
///
/// What is written is promised where it is known what the readers had left and what the writer holds, as of a slice and a `Vec`.
pub fn run_check<R: Source, S: Source, W: Sink>(
    alloc: Global,
    reader: &mut CountedSource<R>,
    cert: &mut CountedSource<S>,
    writer: &mut W,
) -> Result<Ended, PlayFault>
    requires reads { reads_left reader.old ≡ READS }
    requires cert_reads { reads_left cert.old ≡ READS }
    ensures ok { IfOk result (λ e. IfSome (S.remaining (source_of cert.old)) (λ certificate. Writes (R.remaining (source_of reader.old))
        (W.contents writer.old) (W.contents writer.new) (λ text out. IsCheckOutput certificate text out e))) }
    ensures write { result ≡ Err PlayFault.Write
        → IfSome (S.remaining (source_of cert.old)) (λ certificate. Writes (R.remaining (source_of reader.old)) (W.contents writer.old)
        (W.contents writer.new) (λ text out. IsOutputFront (IsCheckOutput certificate text) out)) }
    ensures silent { IfErr result (λ f. f ≢ PlayFault.Write → W.unchanged writer.old writer.new) }
    ensures readers { TellsOfReaders (R.failed (source_of reader.old)) (R.failed (source_of reader.new)) (reads_left reader.new) (S.failed
        (source_of cert.old)) (S.failed (source_of cert.new)) (reads_left cert.new) result }
    ensures writer { TellsOfWriter (W.failed writer.old) (W.failed writer.new) result }
{
    let text = read_all(alloc, reader)?;
    let answer = answer_to(alloc, CertTask::Check, text.as_slice(), cert)?;
    write_answer(writer, &answer)
}
