//! Why a text is no certificate, and why none is made.

ghost use Rattle.std.specs.Prelude.{◌≡◌};
ghost use Rattle.life_cert.specs.Codes.{code_number};
ghost use Rattle.life_cert.specs.declared.refusal.CertRefusal.TheVariants.{NoMemory};
ghost use Rattle.life_cert.specs.declared.refusal.MakeRefusal.TheVariants as making;
ghost use Rattle.life_cert.specs.declared.refusal.UpgradeRefusal.TheVariants as upgrading;

use life_check::{CheckRefusal, Rule};
use std::alloc::{AllocError, AllocFailed};
use thiserror::Error;

/// What is wrong with a line of a certificate text.
#[derive(Clone, Copy, Debug, Error)]
pub enum CertCode {
    /// A byte outside 0x20 to 0x7E, a last line without LF, or a text that is too long.
    #[error("a byte that may not stand there, a last line without LF, or a text that is too long")]
    BadByte,
    /// A line that is unknown or not due, or one that is missing.
    #[error("a line that is not due, or a missing line")]
    NotDue,
    /// What follows the first word is no state in its one spelling; in version 2 also a state that an earlier numbered line writes out,
    /// and a `same` that does not name the first line with its state.
    #[error("not a state")]
    NotState,
}

impl CertCode {
    /// The number by which the code is told, from 1 to 3.
    pub fn number(self) -> u8
        ensures { result ≡ code_number self }
    {
        match self {
            CertCode::BadByte => 1,
            CertCode::NotDue => 2,
            CertCode::NotState => 3,
        }
    }
}

/// Why no certificate was read.
#[derive(Clone, Copy, Debug, Error)]
pub enum CertRefusal {
    /// The first faulty line, counted from 1, and the lowest code that fits it.
    #[error("line {line}: {code}")]
    Fault { line: usize, code: CertCode },
    /// There was no memory.
    #[error("no memory")]
    NoMemory,
}

impl From<AllocError> for CertRefusal {
    ghost from_gives = { λ _ e. e ≡ NoMemory };

    fn from(_error: AllocError) -> CertRefusal {
        CertRefusal::NoMemory
    }
}

/// Why no certificate is made.
#[derive(Clone, Copy, Debug, Error)]
pub enum MakeRefusal {
    /// The instruction may have a fault.
    #[error("instruction {pc}: {rule}")]
    At {
        /// The instruction.
        pc: usize,
        /// What fails there.
        rule: Rule,
    },
    /// There is no memory.
    #[error("no memory")]
    NoMemory,
}

impl From<AllocError> for MakeRefusal {
    ghost from_gives = { λ _ e. e ≡ making.NoMemory };

    fn from(_error: AllocError) -> Self {
        MakeRefusal::NoMemory
    }
}

impl From<CheckRefusal> for MakeRefusal {
    ghost from_gives = { λ why e. e ≡ making.At why.pc why.rule };

    fn from(why: CheckRefusal) -> Self {
        MakeRefusal::At {
            pc: why.pc,
            rule: why.rule,
        }
    }
}

/// Why a certificate is not carried over to version 2.
#[derive(Clone, Copy, Debug, Error)]
pub enum UpgradeRefusal {
    /// It is of version 2.
    #[error("the certificate is of version 2")]
    Already,
    /// It is not accepted.
    #[error("instruction {pc}: {rule}")]
    At {
        /// The instruction.
        pc: usize,
        /// What fails there.
        rule: Rule,
    },
}

impl From<CheckRefusal> for UpgradeRefusal {
    ghost from_gives = { λ why e. e ≡ upgrading.At why.pc why.rule };

    fn from(why: CheckRefusal) -> Self {
        UpgradeRefusal::At {
            pc: why.pc,
            rule: why.rule,
        }
    }
}
