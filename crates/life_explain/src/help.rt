//! The help on a module text that gets no certificate, and on one that is refused with a certificate.

use crate::certificate::put_certificate;
use crate::flow::meant;
use crate::session::write_refusals;
use explain_text::{ModuleText, Page, ScriptText, write_asm_fault, write_cert_fault};
use life_cert::{CertRefusal, MakeRefusal, least_fixpoint, make, read_cert};
use life_check::{Cert, CertVersion, CheckRefusal, Rule, check};
use module_code::Module;
use module_lang::{AsmRefusal, assemble};
use std::alloc::{AllocError, Global};

/// The module of a text; nothing where it is none, which is told, or where memory was refused.
pub fn module_of(page: &mut Page, text: ScriptText<'_>) -> Option<Module> {
    match assemble(page.alloc, text.text) {
        Ok(code) => return Some(code),
        Err(AsmRefusal::Fault { line, code }) => write_asm_fault(page, text, line, code),
        Err(AsmRefusal::NoMemory) => page.full = true,
    }
    None
}

/// The certificate of a text; nothing where it is none, which is told, or where memory was refused.
pub fn cert_of(page: &mut Page, text: ScriptText<'_>) -> Option<Cert> {
    match read_cert(page.alloc, text.text) {
        Ok(cert) => return Some(cert),
        Err(CertRefusal::Fault { line, code }) => write_cert_fault(page, text, line, code),
        Err(CertRefusal::NoMemory) => page.full = true,
    }
    None
}

/// Tells what is wrong with the texts of a script, or why a module is refused, alone or with its certificate.
pub fn write_texts(page: &mut Page, text: ScriptText<'_>, cert: Option<ScriptText<'_>>) {
    if let Some(code) = module_of(page, text) {
        write_module(page, text, &code, cert);
    }
}

fn write_module(
    page: &mut Page,
    text: ScriptText<'_>,
    code: &Module,
    cert: Option<ScriptText<'_>>,
) {
    match cert {
        Some(given) => write_with(page, text, code, given),
        None => write_unmade(page, text, code),
    }
}

// What is wrong with a certificate of a module, or why it is refused.
fn write_with(page: &mut Page, text: ScriptText<'_>, code: &Module, given: ScriptText<'_>) {
    if let Some(cert) = cert_of(page, given) {
        write_against(page, text, code, &cert);
    }
}

// Why a certificate of a module is refused: of the states that are given where their shape is refused, else of those that are meant.
fn write_against(page: &mut Page, text: ScriptText<'_>, code: &Module, cert: &Cert) {
    let Err(refusal) = check(code, cert) else {
        return;
    };
    if let Rule::Shape = refusal.rule {
        return write_unchecked(page, text, code, cert, refusal);
    }
    match meant(page.alloc, code, cert) {
        Ok(states) => write_unchecked(page, text, code, &states, refusal),
        Err(_) => page.full = true,
    }
}

// The instruction at which the maker refuses a module, if it does. The page is full where memory was refused.
fn refused_at(page: &mut Page, code: &Module) -> Option<usize> {
    match make(page.alloc, code) {
        Ok(_) => None,
        Err(MakeRefusal::At { pc, rule: _ }) => Some(pc),
        Err(MakeRefusal::NoMemory) => {
            page.full = true;
            None
        }
    }
}

fn write_unmade(page: &mut Page, text: ScriptText<'_>, code: &Module) {
    let Some(pc) = refused_at(page, code) else {
        return;
    };
    match least_fixpoint(page.alloc, code) {
        Ok(states) => write_may(page, text, code, &states, pc),
        Err(_) => page.full = true,
    }
}

// Tells of an instruction that may have a fault in these states.
fn write_may(page: &mut Page, text: ScriptText<'_>, code: &Module, states: &Cert, pc: usize) {
    let mut source = ModuleText::of(page.alloc, text.text, text.before);
    page.full |= source.page.full;
    write_refusals(page, &mut source, code, states, pc);
}

fn write_unchecked(
    page: &mut Page,
    text: ScriptText<'_>,
    code: &Module,
    cert: &Cert,
    refusal: CheckRefusal,
) {
    if let Rule::May(_) = refusal.rule {
        return write_may(page, text, code, cert, refusal.pc);
    }
    write_states(page, text, code, cert, refusal);
    let verdict = match refused_at(page, code) {
        None => "`certify` makes a certificate with which the module is accepted\n",
        Some(_) => "the module is refused whatever its certificate; ask `certify --explain`\n",
    };
    page.push(verdict);
}

// Tells what a certificate says against its module.
fn write_states(
    page: &mut Page,
    text: ScriptText<'_>,
    code: &Module,
    cert: &Cert,
    refusal: CheckRefusal,
) {
    let source = ModuleText::of(page.alloc, text.text, text.before);
    page.full |= source.page.full;
    put_certificate(page, &source, code, cert, refusal);
}

// Why a certificate of a module is not upgraded.
fn write_upgrade(page: &mut Page, text: ScriptText<'_>, code: &Module, cert: &Cert) {
    match cert.version {
        CertVersion::One => write_against(page, text, code, cert),
        CertVersion::Two { .. } => page.push(
            "it is of version 2, which is not upgraded; `check` says whether the module is accepted with it\n",
        ),
    }
}

// A text that stands in a file of its own.
fn alone(text: &[u8], is_cert: bool) -> ScriptText<'_> {
    ScriptText {
        is_cert,
        before: 0,
        text,
    }
}

/// Why no certificate of a module text is made, in words; nothing where one is made.
pub fn explain_certify(alloc: Global, text: &[u8]) -> Result<String, AllocError> {
    let mut page = Page::new(alloc);
    write_texts(&mut page, alone(text, false), None);
    page.finished()
}

/// Why a module text is refused with a certificate text, in words; nothing where it is accepted.
pub fn explain_check(alloc: Global, text: &[u8], cert: &[u8]) -> Result<String, AllocError> {
    let mut page = Page::new(alloc);
    write_texts(&mut page, alone(text, false), Some(alone(cert, true)));
    page.finished()
}

/// Why a certificate text of a module text is not upgraded, in words; nothing where it is.
pub fn explain_upgrade(alloc: Global, text: &[u8], cert: &[u8]) -> Result<String, AllocError> {
    let mut page = Page::new(alloc);
    let text = alone(text, false);
    if let Some(code) = module_of(&mut page, text) {
        if let Some(given) = cert_of(&mut page, alone(cert, true)) {
            write_upgrade(&mut page, text, &code, &given);
        }
    }
    page.finished()
}
