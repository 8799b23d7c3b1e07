//! The modules of a script, each with its certificate.

ghost use Rattle.std.specs.Prelude.{◌≡◌, ◌<◌, ◌≤◌, None, Some, All, length, map, IfErr, IfOk};
ghost use Rattle.script_text.specs.Prelude.{IsModule, ChainNeverFaults, seen_part, AreCertified, HasCertificate, codes_of, first_from, refused_in, unmade};

use life_cert::{MakeRefusal, make};
use life_check::{Cert, ChainRefusal, CheckRefusal, CheckedChain, accept_chain};
use module_code::Module;
use std::alloc::{AllocError, Global};
use thiserror::Error;

/// A module of a script, and the certificate that stands behind it.
#[derive(Drop)]
pub struct ScriptModule {
    /// The module.
    pub code: Module,
    /// Its certificate, where the script has one.
    pub cert: Option<Cert>,
}

/// The certificate of a module, or why none can be made.
#[derive(Drop)]
enum Certified {
    With(Cert),
    Refused(CheckRefusal),
}

/// A module that is refused, by its place in the chain, and why.
#[derive(Clone, Copy, Debug, Error)]
#[error("module {index}, {refusal}")]
pub struct Refused {
    /// Its place, from 0 on.
    pub index: usize,
    /// Why it is refused.
    pub refusal: CheckRefusal,
}

/// The certificate that is given, or else one that is made.
fn certificate_of(alloc: Global, code: &Module, cert: Option<Cert>) -> Result<Certified, AllocError>
    ensures { IfOk result (HasCertificate (record { code = code.now; cert = cert })) }
{
    if let Some(cert) = cert {
        return Ok(Certified::With(cert));
    }
    match make(alloc, code) {
        Ok(cert) => Ok(Certified::With(cert)),
        Err(MakeRefusal::At { pc, rule }) => Ok(Certified::Refused(CheckRefusal { pc, rule })),
        Err(MakeRefusal::NoMemory) => Err(AllocError),
    }
}

/// The modules, each with its certificate; or the first for which one is missing and none can be made.
fn certify_all(
    alloc: Global,
    parts: Vec<ScriptModule>,
) -> Result<Result<Vec<(Module, Cert)>, Refused>, AllocError>
    ensures certified { IfOk result (λ r. IfOk r (λ v. AreCertified v.items (map seen_part parts.items))) }
    ensures count { IfOk result (λ r. IfOk r (λ v. length v.items ≡ length parts.items)) }
    ensures refused { IfOk result (λ r. IfErr r (λ at. first_from 0 (map unmade (map seen_part parts.items)) ≡ Some (at.index, at.refusal))) }
{
    let mut pairs = Vec::new(alloc);
    for part in parts {
        let ScriptModule { code, cert } = part;
        match certificate_of(alloc, &code, cert)? {
            Certified::With(cert) => pairs.push((code, cert))?,
            Certified::Refused(refusal) => {
                let index = pairs.len();
                return Ok(Err(Refused { index, refusal }));
            }
        }
    }
    Ok(Ok(pairs))
}

/// The chain of these modules, where each is accepted; else the first that is refused. Certificates that are missing are made before any
/// module is checked. `AllocError`: there was no memory for a certificate, for the list of modules, or for the check.
pub fn accept_parts(
    alloc: Global,
    parts: Vec<ScriptModule>,
) -> Result<Result<CheckedChain, Refused>, AllocError>
    requires some { 0 < length parts.items }
    requires few { length parts.items ≤ 16 }
    ensures accepted { IfOk result (λ r. IfOk r (λ c. (c ≡ codes_of (map seen_part parts.items)) × (refused_in (map seen_part parts.items) ≡ None) × ChainNeverFaults c)) }
    ensures refused { IfOk result (λ r. IfErr r (λ at. refused_in (map seen_part parts.items) ≡ Some (at.index, at.refusal))) }
{
    let pairs = match certify_all(alloc, parts)? {
        Ok(pairs) => pairs,
        Err(refused) => return Ok(Err(refused)),
    };
    match accept_chain(alloc, pairs) {
        Ok(chain) => Ok(Ok(chain)),
        Err(ChainRefusal::At { index, refusal }) => Ok(Err(Refused { index, refusal })),
        Err(ChainRefusal::NoMemory) => Err(AllocError),
    }
}

/// The module alone.
fn module_of(part: ScriptModule) -> Module
    ensures value { result ≡ part.code }
    ensures sound { IsModule result }
{
    let ScriptModule { code, cert: _ } = part;
    // What is known of each module is told by its calls.
    let _ = code.len();
    code
}

/// The modules alone. `AllocError`: there was no memory for their list.
pub fn modules_of(alloc: Global, parts: Vec<ScriptModule>) -> Result<Vec<Module>, AllocError>
    ensures value { IfOk result (λ v. v.items ≡ codes_of (map seen_part parts.items)) }
    ensures sound { IfOk result (λ v. All IsModule v.items) }
{
    let mut modules = Vec::new(alloc);
    for part in parts {
        modules.push(module_of(part))?;
    }
    Ok(modules)
}
