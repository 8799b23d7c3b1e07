//! What keeps a command from its end.

ghost use Rattle.std.specs.Prelude.{◌≡◌};
ghost use Rattle.module_commands.specs.declared.fault.PlayFault.TheVariants.{NoMemory};

use std::alloc::AllocError;
use thiserror::Error;

/// A fault of the reader, of the writer or of the memory around a script or a text.
#[derive(Debug, Drop, Error)]
pub enum PlayFault {
    /// The reader failed, or there was more to read than the bound of reads allows.
    #[error("cannot read")]
    Read,
    /// The writer failed, or took nothing.
    #[error("cannot write")]
    Write,
    /// There was no memory for the script or the text, for an answer, for the bytes of a `file` or for the list of pieces of a `bring`.
    #[error("no memory")]
    NoMemory,
}

impl From<AllocError> for PlayFault {
    ghost from_gives = { λ _ e. e ≡ NoMemory };

    fn from(_error: AllocError) -> PlayFault {
        PlayFault::NoMemory
    }
}
