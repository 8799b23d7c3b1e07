//! A filter is compiled.

ghost use Rattle.std.specs.Prelude.{◌∷◌, [], Ok, IfOk};
ghost use Rattle.module_lang.specs.Prelude.{IsReadAs};
ghost use Rattle.model_laws.specs.OpenRuns.{InstancesAreSafe};
ghost use Rattle.life_check.specs.Slim.{Accepts};
ghost use Rattle.life_check.specs.ChainTheorem.{ChainNeverFaults};

use crate::error::{CompileError, unwritten};
use author_code::{PerByte, Written, per_byte, write_module};
use author_text::tree::Filter;
use life_check::{Cert, CertVersion, check};
use module_code::Module;
use module_lang::{AsmRefusal, assemble};
use std::alloc::Global;

/// A filter that was compiled.
#[derive(Drop)]
pub struct Compiled {
    /// The module.
    pub code: Module,
    /// A slim certificate of version 2, with which it is accepted.
    pub cert: Cert,
    /// The text of the module, with the lines of the source in comments.
    pub text: Vec<u8>,
    /// How many instructions a byte takes at most.
    pub per_byte: PerByte,
}

/// The module that a text spells.
fn assembled(alloc: Global, text: &[u8]) -> Result<Module, CompileError>
    ensures { IfOk result (λ m. IsReadAs text.now (Ok m)) }
{
    match assemble(alloc, text) {
        Ok(code) => Ok(code),
        Err(AsmRefusal::NoMemory) => Err(CompileError::NoMemory),
        Err(refusal) => Err(CompileError::NotAssembled(refusal)),
    }
}

/// What was written, before the check is asked.
fn unchecked(alloc: Global, written: Written) -> Result<Compiled, CompileError>
    ensures { IfOk result (λ c. IsReadAs c.text.items (Ok c.code)) }
{
    let Written {
        text,
        states,
        idle,
        ready,
        data,
    } = written;
    let code = match assembled(alloc, text.as_slice()) {
        Ok(code) => code,
        Err(error) => return Err(error),
    };
    let Ok(per_byte) = per_byte(alloc, &code, data) else {
        return Err(CompileError::NoMemory);
    };
    let cert = Cert {
        version: CertVersion::two(&code),
        slim: true,
        idle: Some(idle),
        ready: Some(ready),
        at: states,
    };
    Ok(Compiled {
        code,
        cert,
        text,
        per_byte,
    })
}

fn made(alloc: Global, filter: &Filter) -> Result<Compiled, CompileError>
    ensures { IfOk result (λ c. IsReadAs c.text.items (Ok c.code)) }
{
    match write_module(alloc, filter) {
        Ok(written) => unchecked(alloc, written),
        Err(error) => Err(unwritten(error)),
    }
}

/// The module of a filter, and a certificate with which `check` accepts it: it is asked here, so that what is answered is typed. No run of the
/// module alone answers a fault, and no instance of it has one, whatever filters stand before and behind. The text is one of the module.
///
/// `At` tells of what does not fit into a module, and of `it` where it was given away before. `NotAssembled` and `NotAccepted` are internal
/// errors: no filter is known for which they come.
pub fn compile(alloc: Global, filter: &Filter) -> Result<Compiled, CompileError>
    ensures typed { IfOk result (λ c. Accepts c.code c.cert) }
    ensures text { IfOk result (λ c. IsReadAs c.text.items (Ok c.code)) }
    ensures safe { IfOk result (λ c. ChainNeverFaults (c.code ∷ [])) }
    ensures instances { IfOk result (λ c. InstancesAreSafe c.code) }
{
    let compiled = match made(alloc, filter) {
        Ok(compiled) => compiled,
        Err(error) => return Err(error),
    };
    match check(&compiled.code, &compiled.cert) {
        Ok(()) => Ok(compiled),
        Err(refusal) => Err(CompileError::NotAccepted(refusal)),
    }
}
