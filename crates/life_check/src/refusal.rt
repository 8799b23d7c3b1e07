//! Why a certificate, or a chain of modules, is refused.

ghost use Rattle.std.specs.Prelude.{◌≡◌};
ghost use Rattle.life_check.specs.declared.refusal.ChainRefusal.TheVariants.{NoMemory};

use run_model::FaultKind;
use std::alloc::AllocError;
use thiserror::Error;

/// What a certificate fails.
#[derive(Clone, Copy, Debug, Error)]
pub enum Rule {
    /// The states are not of this module: other variables, `in` or cursors where there are none, a line for no instruction.
    #[error("the states are not of this module")]
    Shape,
    /// The first instruction of a handler has no state, or one that says more than what the handler begins with.
    #[error("the first instruction of a handler has no state, or one that says too much")]
    Entry,
    /// The instruction may have this fault.
    #[error("the instruction may have the fault {0}")]
    May(FaultKind),
    /// A state that the instruction leads to is not below that of the instruction that follows, or that has none.
    #[error("a state that the instruction leads to is not below that of the next one")]
    Flow,
    /// A return leaves a state that is not below the one between calls, or there is none.
    #[error("a return leaves a state that is not below the one between calls")]
    Exit,
    /// The end of a request leaves a state that is not below the one in which the next begins, or there is none.
    #[error("the end of a request leaves a state that is not below the one in which the next begins")]
    Request,
}

/// The first refusal of a certificate.
#[derive(Clone, Copy, Debug, Error)]
#[error("instruction {pc}: {rule}")]
pub struct CheckRefusal {
    /// The instruction; 0 for `Shape` and `Request`.
    pub pc: usize,
    /// What fails there.
    pub rule: Rule,
}

/// Why a chain is refused.
#[derive(Clone, Copy, Debug, Error)]
pub enum ChainRefusal {
    /// A module is refused with its certificate.
    #[error("module {index}, {refusal}")]
    At {
        /// The first such module, by its place in the chain, from 0 on.
        index: usize,
        /// Its refusal.
        refusal: CheckRefusal,
    },
    /// There is no memory for the list of modules.
    #[error("no memory")]
    NoMemory,
}

impl From<AllocError> for ChainRefusal {
    ghost from_gives = { λ _ e. e ≡ NoMemory };

    fn from(_error: AllocError) -> Self {
        ChainRefusal::NoMemory
    }
}
