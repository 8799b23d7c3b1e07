//! A text is compiled to a module, or what is wrong with it is reported.

ghost use Rattle.std.specs.Prelude.{◌≡◌, ◌≢◌, None, true, IfErr, IfOk, IfSome};
ghost use Rattle.filter_files.specs.Prelude.{reads_left, source_of, TellsOfReader, IsFaultOf, TellsInternal, internal_line, place_line};
ghost use Rattle.filter_files.specs.FilterReads.{IsFilterRead, SetsAll};
ghost use Rattle.filter_files.specs.Settings.{KeepsWords};

use crate::notes::{put_figures, put_pointed};
use crate::settings::{ParamSetting, set_params};
use author_code::fault_text;
use author_compile::{CompileError, Compiled, compile};
use author_text::place::Place;
use author_text::tree::Filter;
use author_text::{Refusal, place_in, read_source, resolve_source};
use byte_streams::{CountedSource, Source};
use life_check::CheckRefusal;
use module_commands::{PlayFault, read_all};
use module_lang::AsmRefusal;
use script_text::{put_asm_fault, put_refused_at};
use std::alloc::{AllocError, Global};

/// Why a text is not compiled.
#[derive(Drop)]
pub struct FilterFault {
    /// The place of the text; none where a setting is refused, and for an internal error.
    pub place: Option<Place>,
    /// The line that says it, with its end: `line L, column C: WHAT`, `cannot set NAME: WHY`, or `internal error: WHAT`.
    pub line: Vec<u8>,
}

/// What a text is: a filter that was compiled, or none.
#[derive(Drop)]
pub enum FilterRead {
    /// Its module, which is accepted.
    Compiled(Compiled),
    /// Why it is not compiled.
    Faulty(FilterFault),
}

/// What is wrong at a place of a text; the source line goes to the notes.
fn fault_at(
    alloc: Global,
    text: &[u8],
    place: Place,
    what: &[u8],
    notes: &mut Vec<u8>,
) -> Result<FilterFault, AllocError>
    ensures { IfOk result (λ f. IsFaultOf text.now f.place f.line.items) }
{
    let place = place_in(text, place);
    put_pointed(notes, text, place)?;
    let line = place_line(alloc, place, what)?;
    let place = Some(place);
    Ok(FilterFault { place, line })
}

/// The line of what is wrong at a place.
fn place_line(alloc: Global, place: Place, what: &[u8]) -> Result<Vec<u8>, AllocError>
    ensures { IfOk result (λ v. v.items ≡ place_line place.line place.column what.now) }
{
    let (row, column) = (place.line, place.column);
    let head = format!(in alloc; "line {row}, column {column}: ")?;
    let mut line = Vec::from_slice(alloc, head.as_bytes())?;
    line.extend_from_slice(what)?;
    line.push(b'\n')?;
    Ok(line)
}

/// What is wrong with a text.
fn refusal_fault(
    alloc: Global,
    text: &[u8],
    refusal: Refusal,
    notes: &mut Vec<u8>,
) -> Result<FilterFault, AllocError>
    ensures { IfOk result (λ f. IsFaultOf text.now f.place f.line.items) }
{
    match refusal {
        Refusal::Mistake { line, column, what } => fault_at(
            alloc,
            text,
            Place { line, column },
            what.as_bytes(),
            notes,
        ),
        Refusal::NoMemory => Err(AllocError),
    }
}

/// The line of an internal error.
fn internal_line(alloc: Global, what: &[u8]) -> Result<Vec<u8>, AllocError>
    ensures { IfOk result (λ v. v.items ≡ internal_line what.now) }
{
    let mut line = Vec::from_slice(alloc, b"internal error: ")?;
    line.extend_from_slice(what)?;
    Ok(line)
}

/// An internal error, of which this line says what it is.
fn internal_fault(alloc: Global, what: &[u8]) -> Result<FilterFault, AllocError>
    ensures { IfOk result (λ f. (f.place ≡ None) × TellsInternal f.line.items) }
{
    let line = internal_line(alloc, what)?;
    Ok(FilterFault { place: None, line })
}

/// The internal error that what was written is no module.
fn no_module_fault(alloc: Global, refusal: AsmRefusal) -> Result<FilterFault, AllocError>
    ensures { IfOk result (λ f. (f.place ≡ None) × TellsInternal f.line.items) }
{
    match refusal {
        AsmRefusal::Fault { line, code } => {
            let mut what = Vec::new(alloc);
            put_asm_fault(alloc, &mut what, line, code.number())?;
            internal_fault(alloc, what.as_slice())
        }
        AsmRefusal::NoMemory => Err(AllocError),
    }
}

/// The internal error that the module that was written is refused.
fn refused_fault(alloc: Global, refusal: CheckRefusal) -> Result<FilterFault, AllocError>
    ensures { IfOk result (λ f. (f.place ≡ None) × TellsInternal f.line.items) }
{
    let mut what = Vec::new(alloc);
    put_refused_at(alloc, &mut what, refusal.pc, refusal.rule)?;
    internal_fault(alloc, what.as_slice())
}

/// Why a filter has no module.
fn no_compile_fault(
    alloc: Global,
    text: &[u8],
    filter: &Filter,
    error: CompileError,
    notes: &mut Vec<u8>,
) -> Result<FilterFault, AllocError>
    ensures { IfOk result (λ f. IsFaultOf text.now f.place f.line.items) }
{
    match error {
        CompileError::At { place, fault } => {
            let what = fault_text(alloc, filter, fault)?;
            fault_at(alloc, text, place, what.as_slice(), notes)
        }
        CompileError::NotAssembled(refusal) => no_module_fault(alloc, refusal),
        CompileError::NotAccepted(refusal) => refused_fault(alloc, refusal),
        CompileError::NoMemory => Err(AllocError),
    }
}

/// The module of a filter, or why there is none.
fn compiled(
    alloc: Global,
    text: &[u8],
    filter: &Filter,
    notes: &mut Vec<u8>,
) -> Result<FilterRead, AllocError>
    ensures { IfOk result (IsFilterRead text.now) }
{
    match compile(alloc, filter) {
        Ok(compiled) => {
            put_figures(alloc, notes, filter, &compiled)?;
            Ok(FilterRead::Compiled(compiled))
        }
        Err(error) => Ok(FilterRead::Faulty(no_compile_fault(alloc, text, filter, error, notes)?)),
    }
}

/// Compiles a text, with the params that are set for it. Where the filter `is_alone`, each setting must be for it. Figures of the module, and
/// the source line of a fault, are added to the notes. `AllocError`: there was no memory for the filter, the module or the line.
#[tactic(auto, using(crate::proofs::SetLaws::sets_all))]
pub fn compile_text(
    alloc: Global,
    text: &[u8],
    settings: &mut [ParamSetting<'_>],
    is_alone: bool,
    notes: &mut Vec<u8>,
) -> Result<FilterRead, AllocError>
    ensures ok { IfOk result (IsFilterRead text.now) }
    ensures set { IfOk result (λ r. is_alone ≡ true → SetsAll r settings.new) }
    ensures words { KeepsWords settings.old settings.new }
{
    let mut source = match read_source(alloc, text) {
        Ok(source) => source,
        Err(refusal) => {
            let fault = refusal_fault(alloc, text, refusal, notes)?;
            return Ok(FilterRead::Faulty(fault));
        }
    };
    if let Some(fault) = set_params(alloc, &mut source, settings, is_alone)? {
        return Ok(FilterRead::Faulty(fault));
    }
    match resolve_source(alloc, &source) {
        Ok(filter) => compiled(alloc, text, &filter, notes),
        Err(refusal) => {
            let fault = refusal_fault(alloc, text, refusal, notes)?;
            Ok(FilterRead::Faulty(fault))
        }
    }
}

/// Reads the text of a filter to its end and compiles it, with the params that are set for it; where it `is_alone`, each setting must be for
/// it. Figures of the module, and the source line of a fault, are added to the notes.
///
/// `Read`: the reader failed, or gave no end within the reads that were left to it. `NoMemory`: there was none for the text, the filter, the
/// module or the line.
pub fn read_filter<R: Source>(
    alloc: Global,
    reader: &mut CountedSource<R>,
    settings: &mut [ParamSetting<'_>],
    is_alone: bool,
    notes: &mut Vec<u8>,
) -> Result<FilterRead, PlayFault>
    ensures ok { IfOk result (λ r. IfSome (R.remaining (source_of reader.old)) (λ text. IsFilterRead text r)) }
    ensures fault { IfErr result (λ f. f ≢ PlayFault.Write) }
    ensures reader { TellsOfReader (R.failed (source_of reader.old)) (R.failed (source_of reader.new)) (reads_left reader.new) result }
{
    let text = read_all(alloc, reader)?;
    Ok(compile_text(alloc, text.as_slice(), settings, is_alone, notes)?)
}
