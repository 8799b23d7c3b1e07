//! The modules of a chain, from files.

ghost use Rattle.std.specs.Prelude.{◌≢◌, IfOk, IfErr, IfSome};
ghost use Rattle.byte_streams.specs.Counted.{reads_left, source_of};
ghost use Rattle.module_commands.specs.Loading.{IsLoaded, IsLoadedWith};
ghost use Rattle.module_commands.specs.StreamFaults.{TellsOfReader, TellsOfReaders};

use crate::answer::{CommandOutput, asm_fault};
use crate::cert_answer::cert_fault;
use crate::fault::PlayFault;
use crate::streams::read_all;
use byte_streams::{CountedSource, Source};
use life_cert::read_cert;
use module_code::Module;
use module_lang::assemble;
use script_text::ScriptModule;
use std::alloc::{AllocError, Global};

/// What two texts are: a module with its certificate, or not.
#[derive(Drop)]
pub enum Loaded {
    /// A module and its certificate, not checked.
    Part(ScriptModule),
    /// A text that is none, and the line that tells it.
    Refused(CommandOutput),
}

/// A module with the certificate that a text says.
fn with_cert(alloc: Global, code: Module, text: &[u8]) -> Result<Loaded, AllocError>
    ensures { IfOk result (λ l. IsLoadedWith text.now code l) }
{
    match read_cert(alloc, text) {
        Ok(cert) => Ok(Loaded::Part(ScriptModule {
            code,
            cert: Some(cert),
        })),
        Err(refusal) => Ok(Loaded::Refused(cert_fault(alloc, refusal)?)),
    }
}

/// A module, with the certificate that a reader gives.
fn load_next<S: Source>(
    alloc: Global,
    code: Module,
    cert: &mut CountedSource<S>,
) -> Result<Loaded, PlayFault>
    ensures ok { IfOk result (λ l. IfSome (S.remaining (source_of cert.old)) (λ certificate. IsLoadedWith certificate code l)) }
    ensures fault { IfErr result (λ f. f ≢ PlayFault.Write) }
    ensures failed { TellsOfReader (S.failed (source_of cert.old)) (S.failed (source_of cert.new)) (reads_left cert.new) result }
{
    let text = read_all(alloc, cert)?;
    Ok(with_cert(alloc, code, text.as_slice())?)
}

/// The module of a text, with the certificate that a reader gives.
fn load_text<S: Source>(
    alloc: Global,
    text: &[u8],
    cert: &mut CountedSource<S>,
) -> Result<Loaded, PlayFault>
    ensures ok { IfOk result (λ l. IfSome (S.remaining (source_of cert.old)) (λ certificate. IsLoaded text.now certificate l)) }
    ensures fault { IfErr result (λ f. f ≢ PlayFault.Write) }
    ensures failed { TellsOfReader (S.failed (source_of cert.old)) (S.failed (source_of cert.new)) (reads_left cert.new) result }
{
    match assemble(alloc, text) {
        Ok(code) => load_next(alloc, code, cert),
        Err(refusal) => Ok(Loaded::Refused(asm_fault(alloc, refusal)?)),
    }
}

/// Reads a module text to its end, and then a certificate text. Where the first is no module the second is not read.
///
/// `Read`: a reader failed, or gave no end within the reads that were left to it. `NoMemory`: there was none for the texts, the module, the
/// certificate or the line.
pub fn load_part<R: Source, S: Source>(
    alloc: Global,
    reader: &mut CountedSource<R>,
    cert: &mut CountedSource<S>,
) -> Result<Loaded, PlayFault>
    ensures ok { IfOk result (λ l. IfSome (R.remaining (source_of reader.old)) (λ text. IfSome (S.remaining (source_of cert.old)) (λ certificate. IsLoaded text certificate l))) }
    ensures fault { IfErr result (λ f. f ≢ PlayFault.Write) }
    ensures readers { TellsOfReaders (R.failed (source_of reader.old)) (R.failed (source_of reader.new)) (reads_left reader.new) (S.failed
        (source_of cert.old)) (S.failed (source_of cert.new)) (reads_left cert.new) result }
{
    let text = read_all(alloc, reader)?;
    load_text(alloc, text.as_slice(), cert)
}
