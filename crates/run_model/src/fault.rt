//! The faults that an instruction can have.

use thiserror::Error;

/// What an instruction did wrong. The order is that of the list of faults, not the order of the tests.
#[derive(Clone, Copy, Debug, Error)]
pub enum FaultKind {
    /// A pool variable is null, or its pool is dead.
    #[error("F1")]
    F1,
    /// A brigade variable is null, or its brigade is dead.
    #[error("F2")]
    F2,
    /// A cursor is unset, its bucket is destroyed or another filter's, or it is the end of a dead brigade.
    #[error("F3")]
    F3,
    /// A cursor is an end where a bucket is wanted.
    #[error("F4")]
    F4,
    /// A bucket whose home is dead is read, set aside, copied, split or passed.
    #[error("F5")]
    F5,
    /// A return while an own usable brigade holds a bucket whose home is a call or another filter's pool.
    #[error("F6")]
    F6,
    /// A passed brigade, or a bucket or end of one, is used otherwise than by a clean.
    #[error("F7")]
    F7,
    /// A pass of data after an EOS of the brigade or of the request.
    #[error("F8")]
    F8,
    /// A bucket is in a brigade where a loose one is wanted, or the other way round, or in another brigade.
    #[error("F9")]
    F9,
    /// A pool or brigade is made over a live variable.
    #[error("F10")]
    F10,
}
