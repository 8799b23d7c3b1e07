//! Why a text is no module.

ghost use Rattle.std.specs.Prelude.{◌≡◌};
ghost use Rattle.module_lang.specs.Codes.{code_number};
ghost use Rattle.module_lang.specs.declared.refusal.AsmRefusal.TheVariants.{NoMemory};

use std::alloc::{AllocError, AllocFailed};
use thiserror::Error;

/// What is wrong with a line of a module text.
#[derive(Clone, Copy, Debug, Error)]
pub enum Code {
    /// A byte outside 0x20 to 0x7E, a last line without LF, or a text that is too long.
    #[error("a byte that may not stand there, a last line without LF, or a text that is too long")]
    BadByte,
    /// A known first word that is not due here, or a line that is missing.
    #[error("a word that is not due, or a missing line")]
    NotDue,
    /// An unknown first word.
    #[error("an unknown word")]
    UnknownWord,
    /// What follows the first word is not as due.
    #[error("wrong operands")]
    WrongOperands,
    /// A faulty text, or one of over 255 bytes.
    #[error("a faulty text")]
    FaultyText,
    /// An undeclared variable.
    #[error("an undeclared variable")]
    Undeclared,
    /// A label that stands twice in the module.
    #[error("a label that stands twice")]
    DoubledLabel,
    /// A label that is not in this handler, or that no instruction follows.
    #[error("a label that leads nowhere")]
    LostLabel,
    /// `in`, `pass` or `ret fail` outside `main`, or a variable under `req` in `open`.
    #[error("not allowed in this handler")]
    Misplaced,
    /// A handler that is empty or does not end by `ret` or `jump`.
    #[error("a handler that is empty or does not end by ret or jump")]
    OpenEnd,
    /// Over 1024 instructions or 64 texts.
    #[error("too many instructions or texts")]
    TooMany,
}

impl Code {
    /// The number by which the code is told, from 1 to 11.
    pub fn number(self) -> u8
        ensures { result ≡ code_number self }
    {
        match self {
            Code::BadByte => 1,
            Code::NotDue => 2,
            Code::UnknownWord => 3,
            Code::WrongOperands => 4,
            Code::FaultyText => 5,
            Code::Undeclared => 6,
            Code::DoubledLabel => 7,
            Code::LostLabel => 8,
            Code::Misplaced => 9,
            Code::OpenEnd => 10,
            Code::TooMany => 11,
        }
    }
}

/// Why no module was made.
#[derive(Clone, Copy, Debug, Error)]
pub enum AsmRefusal {
    /// The first faulty line, counted from 1, and the lowest code that fits it.
    #[error("line {line}: {code}")]
    Fault { line: usize, code: Code },
    /// There was no memory.
    #[error("no memory")]
    NoMemory,
}

impl From<AllocError> for AsmRefusal {
    ghost from_gives = { λ _ e. e ≡ NoMemory };

    fn from(_error: AllocError) -> AsmRefusal {
        AsmRefusal::NoMemory
    }
}
