//! Why a filter is not compiled.

use author_code::{CodeError, CompileFault};
use author_text::place::Place;
use life_check::CheckRefusal;
use module_lang::AsmRefusal;
use thiserror::Error;

/// Why a filter is not compiled.
#[derive(Clone, Copy, Debug, Error)]
pub enum CompileError {
    /// The first such place of the source.
    #[error("line {}, column {}: {fault}", .place.line, .place.column)]
    At { place: Place, fault: CompileFault },
    /// An internal error: the text that was written is no module.
    #[error("internal error: {0}")]
    NotAssembled(AsmRefusal),
    /// An internal error: the certificate that was written along is refused.
    #[error("internal error: {0}")]
    NotAccepted(CheckRefusal),
    /// There was no memory.
    #[error("no memory")]
    NoMemory,
}

/// The same of a filter of which no module is written.
pub(crate) fn unwritten(error: CodeError) -> CompileError {
    match error {
        CodeError::At { place, fault } => CompileError::At { place, fault },
        CodeError::NoMemory => CompileError::NoMemory,
    }
}
