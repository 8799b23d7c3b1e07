//! The filters of a chain, from files.

ghost use Rattle.std.specs.Prelude.{IfOk};
ghost use Rattle.filter_files.specs.Stops.{IsStopOf};

use crate::compiling::{FilterFault, FilterRead, read_filter};
use crate::settings::{ParamSetting, unused_setting};
use crate::start_error::{StartCause, StartError, cannot_read, named_lines, stop_with};
use author_code::PerByte;
use author_compile::Compiled;
use byte_streams::CountedSource;
use life_check::CheckedChain;
use module_commands::{CommandOutput, Loaded, NamedFile, PlayFault, load_part};
use script_text::{Refused, ScriptModule, accept_parts, put_refused_at, put_refused_module};
use std::alloc::{AllocError, Global};
use std::rt::Files as FileSystem;

/// How many filters a chain has at most.
const MAX_PARTS: usize = 16;

/// Whether a file of this name has a filter in the language for authors: it ends in `.filter`.
pub fn is_filter_name(name: &str) -> bool {
    name.ends_with(".filter")
}

/// The stop of a fault of reading; none of these functions writes.
fn stop_of(alloc: Global, fault: PlayFault, name: &str, cause: StartCause) -> StartError {
    match fault {
        PlayFault::Read => cannot_read(alloc, name, cause),
        PlayFault::Write | PlayFault::NoMemory => StartError::NoMemory,
    }
}

/// The module with its certificate that was loaded. A fault is one of the file of this name.
fn part_of(
    alloc: Global,
    loaded: Result<Loaded, PlayFault>,
    name: &str,
    cause: StartCause,
) -> Result<ScriptModule, StartError> {
    match loaded {
        Ok(Loaded::Part(part)) => Ok(part),
        Ok(Loaded::Refused(CommandOutput { text, ended: _ })) => {
            let cause = named_lines(alloc, name, text.as_slice(), &[])?;
            Err(StartError::Line(text, cause))
        }
        Err(fault) => Err(stop_of(alloc, fault, name, cause)),
    }
}

/// Reads a module and its certificate from the files of these names.
fn read_files<R: FileSystem + AllocGlobal>(
    rt: &R,
    name: &str,
    cert_name: &str,
) -> Result<ScriptModule, StartError> {
    let alloc = rt.alloc();
    let mut reader = CountedSource::from_reader(NamedFile::new(rt, name));
    let mut cert = CountedSource::from_reader(NamedFile::new(rt, cert_name));
    let loaded = load_part(alloc, &mut reader, &mut cert);
    let last = if cert.source().reader.is_read() {
        cert_name
    } else {
        name
    };
    let fault = match cert.source().reader.fault() {
        Some(fault) => Some(fault),
        None => reader.source().reader.fault(),
    };
    part_of(alloc, loaded, last, StartCause::of_fault(fault))
}

/// Reads a module and its certificate, which stands in the file of its name with `.cert` behind it.
fn read_module<R: FileSystem + AllocGlobal>(
    rt: &R,
    name: &str,
) -> Result<ScriptModule, StartError> {
    let cert_name = format!(in rt.alloc(); "{name}.cert")?;
    read_files(rt, name, cert_name.as_str())
}

/// The stop of a filter of a chain that is not compiled: `refused module I at line L, column C: WHAT` where it has a place, else the line.
fn stop_of_filter(
    alloc: Global,
    index: usize,
    fault: FilterFault,
    cause: StartCause,
) -> Result<StartError, AllocError>
    ensures { IfOk result (IsStopOf index fault) }
{
    let FilterFault { place, line } = fault;
    if place.is_none() {
        return Ok(StartError::Line(line, cause));
    }
    let head = format!(in alloc; "refused module {index} at ")?;
    let mut text = Vec::from_slice(alloc, head.as_bytes())?;
    text.extend_from_slice(line.as_slice())?;
    Ok(StartError::Line(text, cause))
}

/// What is read of the files of a chain.
#[derive(Drop)]
struct ChainParts {
    /// The modules with their certificates.
    modules: Vec<ScriptModule>,
    /// How many instructions a byte takes at most in the filters that were compiled, together.
    per_byte: u64,
}

impl ChainParts {
    fn add(&mut self, module: ScriptModule) -> Result<(), StartError> {
        self.modules.push(module).map_err(AllocError::from)?;
        Ok(())
    }

    /// Adds a filter that was compiled.
    fn add_compiled(&mut self, compiled: Compiled) -> Result<(), StartError> {
        let Compiled {
            code,
            cert,
            text: _,
            per_byte,
        } = compiled;
        if let PerByte::Most(count) = per_byte {
            self.per_byte = self.per_byte.saturating_add(count as u64);
        }
        self.add(ScriptModule {
            code,
            cert: Some(cert),
        })
    }
}

/// Reads and compiles the filter of a file.
fn read_source_file<R: FileSystem + AllocGlobal>(
    rt: &R,
    name: &str,
    settings: &mut [ParamSetting<'_>],
    notes: &mut Vec<u8>,
) -> Result<FilterRead, StartError> {
    let alloc = rt.alloc();
    let mut reader = CountedSource::from_reader(NamedFile::new(rt, name));
    match read_filter(alloc, &mut reader, settings, false, notes) {
        Ok(read) => Ok(read),
        Err(fault) => {
            let cause = StartCause::of_fault(reader.source().reader.fault());
            Err(stop_of(alloc, fault, name, cause))
        }
    }
}

/// Adds the module of a file with its certificate; the file is the one of this index in its chain.
fn read_part<R: FileSystem + AllocGlobal>(
    rt: &R,
    index: usize,
    name: &str,
    settings: &mut [ParamSetting<'_>],
    parts: &mut ChainParts,
) -> Result<(), StartError> {
    let alloc = rt.alloc();
    if !is_filter_name(name) {
        return parts.add(read_module(rt, name)?);
    }
    let mut notes = Vec::new(alloc);
    match read_source_file(rt, name, settings, &mut notes)? {
        FilterRead::Compiled(compiled) => parts.add_compiled(compiled),
        FilterRead::Faulty(fault) => {
            let cause = named_lines(alloc, name, fault.line.as_slice(), notes.as_slice())?;
            Err(stop_of_filter(alloc, index, fault, cause)?)
        }
    }
}

/// The words of the command let no such chain through.
fn no_chain(alloc: Global) -> StartError {
    stop_with(alloc, format!(in alloc; "a chain has 1 to 16 modules\n"))
}

/// Reads these files, each a module with its certificate or a filter.
fn read_parts<R: FileSystem + AllocGlobal>(
    rt: &R,
    names: &[&str],
    settings: &mut [ParamSetting<'_>],
) -> Result<ChainParts, StartError> {
    let mut parts = ChainParts {
        modules: Vec::new(rt.alloc()),
        per_byte: 0,
    };
    for (index, name) in names.iter().enumerate() {
        read_part(rt, index, *name, settings, &mut parts)?;
    }
    Ok(parts)
}

/// The stop of a module of a chain that is refused, which stands in one of these files.
fn stop_of_module(alloc: Global, names: &[&str], at: Refused) -> Result<StartError, AllocError> {
    let mut line = Vec::new(alloc);
    put_refused_module(alloc, &mut line, at.index, at.refusal.pc, at.refusal.rule)?;
    let mut own = Vec::new(alloc);
    put_refused_at(alloc, &mut own, at.refusal.pc, at.refusal.rule)?;
    let name = names.get(at.index).copied().unwrap_or("");
    let cause = named_lines(alloc, name, own.as_slice(), &[])?;
    Ok(StartError::Line(line, cause))
}

/// The chain of these modules, which is checked. They are those of these files.
fn chain_of(
    alloc: Global,
    names: &[&str],
    parts: Vec<ScriptModule>,
) -> Result<CheckedChain, StartError> {
    if parts.is_empty() {
        return Err(no_chain(alloc));
    }
    if parts.len() > MAX_PARTS {
        return Err(no_chain(alloc));
    }
    match accept_parts(alloc, parts)? {
        Ok(chain) => Ok(chain),
        Err(at) => Err(stop_of_module(alloc, names, at)?),
    }
}

/// Stops where a setting is for none of the filters.
fn unless_unused(alloc: Global, settings: &[ParamSetting<'_>]) -> Result<(), StartError> {
    match unused_setting(alloc, settings)? {
        None => Ok(()),
        Some(FilterFault { place: _, line }) => Err(StartError::Line(line, StartCause::InLine)),
    }
}

/// A chain of files.
#[derive(Drop)]
pub struct FileChain {
    /// The chain, which is checked.
    pub chain: CheckedChain,
    /// How many instructions a byte takes at most in those of its filters that were compiled and have such a bound, together.
    pub per_byte: u64,
}

/// The chain of these files, which is checked. A file whose name ends in `.filter` has a filter in the language for authors, which is compiled;
/// any other a module, whose certificate stands in the file of its name with `.cert` behind it. A setting is for each filter that has a `param`
/// of its name, and where it names filters, for each of them.
///
/// `Line`: the first file that cannot be read, or is none of these, or a setting that is for no filter, or a module that is refused.
/// `NoMemory`: there was none.
pub fn read_chain<R: FileSystem + AllocGlobal>(
    rt: &R,
    names: &[&str],
    settings: &mut [ParamSetting<'_>],
) -> Result<FileChain, StartError> {
    let alloc = rt.alloc();
    let ChainParts { modules, per_byte } = read_parts(rt, names, settings)?;
    unless_unused(alloc, settings)?;
    let chain = chain_of(alloc, names, modules)?;
    Ok(FileChain { chain, per_byte })
}
