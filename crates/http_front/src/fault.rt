//! How serving a connection ends.

ghost use Rattle.std.specs.Prelude.{◌≡◌};
ghost use Rattle.http_front.specs.declared.fault.FrontKind.TheVariants.{NoMemory};

use std::alloc::AllocError;
use thiserror::Error;

/// How a connection was served.
#[derive(Clone, Copy, Debug, PartialEq, Eq)]
pub struct Served {
    /// How many responses were written.
    pub requests: u64,
}

/// Why serving a connection ended before its end.
#[derive(Clone, Copy, Debug, PartialEq, Eq, Error)]
pub enum FrontKind {
    /// The reader failed.
    #[error("cannot read")]
    Read,
    /// The writer failed, or took nothing.
    #[error("cannot write")]
    Write,
    /// The reader gave no end within the reads that it may be asked for: of a connection that is served by turns, 1,000,000 that brought bytes.
    #[error("too many reads")]
    TooManyReads,
    /// There was no memory.
    #[error("no memory")]
    NoMemory,
    /// Each name of a pool, a bucket or a connection was given.
    #[error("names spent")]
    NamesSpent,
}

impl From<AllocError> for FrontKind {
    ghost from_gives = { λ _ e. e ≡ NoMemory };

    fn from(_error: AllocError) -> FrontKind {
        FrontKind::NoMemory
    }
}

/// Why serving a connection ended before its end, and what it left of it.
#[derive(Clone, Copy, Debug, PartialEq, Eq, Error)]
#[error("{kind}")]
pub struct FrontFault {
    /// Why it ended.
    pub kind: FrontKind,
    /// The number of the connection on the host, where there was no memory to close it.
    pub left: Option<u64>,
}
