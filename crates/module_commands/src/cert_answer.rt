//! What a command answers that is given a module text and a certificate text.

ghost use Rattle.std.specs.Prelude.{◌≡◌, ◌≢◌, IfOk, IfErr, IfSome};
ghost use Rattle.module_commands.specs.Prelude.{reads_left, source_of, TellsOfReader, TellsCertFault, IsVerdict, IsUpgrade, IsAnswerFor, IsAnswerWith, IsTaskOutput};

use crate::answer::{CommandOutput, asm_fault, cert_text, line_answer, refused_at};
use crate::ended::Ended;
use crate::fault::PlayFault;
use crate::streams::read_all;
use byte_streams::{CountedSource, Source};
use life_cert::{CertRefusal, UpgradeRefusal, read_cert, upgrade};
use life_check::{Cert, CheckRefusal, check};
use module_code::Module;
use module_lang::assemble;
use script_text::put_cert_fault;
use std::alloc::{AllocError, Global};

/// What is asked of a module and a certificate.
#[derive(Clone, Copy)]
pub enum CertTask {
    /// Whether the module is accepted with the certificate.
    Check,
    /// The same certificate in version 2.
    Upgrade,
}

/// The line that tells why a text is no certificate.
pub fn cert_fault(alloc: Global, refusal: CertRefusal) -> Result<CommandOutput, AllocError>
    ensures { IfOk result (λ a. TellsCertFault refusal a.text.items a.ended) }
{
    match refusal {
        CertRefusal::Fault { line, code } => {
            let mut text = Vec::new(alloc);
            put_cert_fault(alloc, &mut text, 0, line, code.number())?;
            let ended = Ended::Refused;
            Ok(CommandOutput { text, ended })
        }
        CertRefusal::NoMemory => Err(AllocError),
    }
}

fn verdict(alloc: Global, code: &Module, cert: &Cert) -> Result<CommandOutput, AllocError>
    ensures { IfOk result (λ a. IsVerdict code.now cert.now a.text.items a.ended) }
{
    match check(code, cert) {
        Ok(()) => line_answer(alloc, "accepted\n", Ended::Done),
        Err(refusal) => refused_at(alloc, refusal),
    }
}

fn upgraded(alloc: Global, code: &Module, cert: Cert) -> Result<CommandOutput, AllocError>
    ensures { IfOk result (λ a. IsUpgrade code.now cert a.text.items a.ended) }
{
    let mut cert = cert;
    match upgrade(code, &mut cert) {
        Ok(()) => cert_text(alloc, &cert),
        Err(UpgradeRefusal::Already) => line_answer(alloc, "already version 2\n", Ended::Refused),
        Err(UpgradeRefusal::At { pc, rule }) => refused_at(alloc, CheckRefusal { pc, rule }),
    }
}

fn answer_for(
    alloc: Global,
    task: CertTask,
    code: &Module,
    cert: Cert,
) -> Result<CommandOutput, AllocError>
    ensures { IfOk result (λ a. IsAnswerFor task code.now cert a.text.items a.ended) }
{
    match task {
        CertTask::Check => verdict(alloc, code, &cert),
        CertTask::Upgrade => upgraded(alloc, code, cert),
    }
}

fn answer_with(
    alloc: Global,
    task: CertTask,
    code: &Module,
    text: &[u8],
) -> Result<CommandOutput, AllocError>
    ensures { IfOk result (λ a. IsAnswerWith task text.now code.now a.text.items a.ended) }
{
    match read_cert(alloc, text) {
        Ok(cert) => answer_for(alloc, task, code, cert),
        Err(refusal) => cert_fault(alloc, refusal),
    }
}

fn answer_with_next<S: Source>(
    alloc: Global,
    task: CertTask,
    code: &Module,
    cert: &mut CountedSource<S>,
) -> Result<CommandOutput, PlayFault>
    ensures ok { IfOk result (λ a. IfSome (S.remaining (source_of cert.old)) (λ certificate. IsAnswerWith task certificate code.now a.text.items a.ended)) }
    ensures fault { IfErr result (λ f. f ≢ PlayFault.Write) }
    ensures failed { TellsOfReader (S.failed (source_of cert.old)) (S.failed (source_of cert.new)) (reads_left cert.new) result }
{
    let text = read_all(alloc, cert)?;
    Ok(answer_with(alloc, task, code, text.as_slice())?)
}

/// What is answered to a module text and the certificate text that a reader gives, which is read only where the first is a module.
pub fn answer_to<S: Source>(
    alloc: Global,
    task: CertTask,
    text: &[u8],
    cert: &mut CountedSource<S>,
) -> Result<CommandOutput, PlayFault>
    ensures ok { IfOk result (λ a. IfSome (S.remaining (source_of cert.old)) (λ certificate. IsTaskOutput task certificate text.now a.text.items a.ended)) }
    ensures fault { IfErr result (λ f. f ≢ PlayFault.Write) }
    ensures failed { TellsOfReader (S.failed (source_of cert.old)) (S.failed (source_of cert.new)) (reads_left cert.new) result }
{
    match assemble(alloc, text) {
        Ok(code) => answer_with_next(alloc, task, &code, cert),
        Err(refusal) => Ok(asm_fault(alloc, refusal)?),
    }
}
