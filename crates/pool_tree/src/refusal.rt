//! Why no pool was made.

ghost use Rattle.std.specs.Prelude.{◌≡◌};
ghost use Rattle.pool_tree.specs.declared.refusal.PoolError.TheVariants.{NoMemory};

use std::alloc::AllocError;
use thiserror::Error;

/// Why no pool was made.
#[derive(Clone, Copy, Debug, Error)]
pub enum PoolError {
    /// There is no memory.
    #[error("no memory")]
    NoMemory,
    /// The name that the pool would get is `u64::MAX`, which is never given out.
    #[error("the names are spent")]
    NamesSpent,
}

impl From<AllocError> for PoolError {
    ghost from_gives = { λ _ e. e ≡ NoMemory };

    fn from(_error: AllocError) -> PoolError {
        PoolError::NoMemory
    }
}
