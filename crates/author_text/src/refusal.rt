//! Why a text is no filter.

use thiserror::Error;

/// Why a text is no filter.
#[derive(Debug, Error, Drop)]
pub enum Refusal {
    /// What is wrong first, and where.
    #[error("line {line}, column {column}: {what}")]
    Mistake {
        line: usize,
        column: usize,
        what: String,
    },
    /// There was no memory.
    #[error("no memory")]
    NoMemory,
}
