//! Why a call on a brigade is refused.

ghost use Rattle.std.specs.Prelude.{◌≡◌};
ghost use Rattle.bucket_store.specs.Refusals.{unsplit, unnamed, unread};
ghost use Rattle.bucket_store.specs.declared.refusal.ReadRefusal.TheVariants as read;
ghost use Rattle.bucket_store.specs.declared.refusal.SplitRefusal.TheVariants as split;

use bucket_kinds::{ReadFault, SplitError};
use bucket_ring::RingRefusal;
use std::alloc::AllocError;
use thiserror::Error;

/// Why a bucket is not split.
#[derive(Clone, Copy, Debug, Error)]
pub enum SplitRefusal {
    /// The bucket is shorter than the point.
    #[error("the bucket is shorter than the point")]
    TooLong,
    /// The bucket is metadata.
    #[error("the bucket is metadata")]
    Metadata,
    /// There is no memory.
    #[error("no memory")]
    NoMemory,
    /// The next name is 2^64 - 1, which is never given out.
    #[error("the names are spent")]
    NamesSpent,
}

/// Why a bucket is not read.
#[derive(Clone, Copy, Debug, Error)]
pub enum ReadRefusal {
    /// The device failed, or the file ends before the last byte that was to be read.
    #[error("the file cannot be read")]
    ReadFault,
    /// There is no memory.
    #[error("no memory")]
    NoMemory,
    /// The next name is 2^64 - 1, which is never given out.
    #[error("the names are spent")]
    NamesSpent,
}

impl From<SplitError> for SplitRefusal {
    ghost from_gives = { λ why e. e ≡ unsplit why };

    fn from(why: SplitError) -> Self {
        match why {
            SplitError::TooLong => SplitRefusal::TooLong,
            SplitError::Metadata => SplitRefusal::Metadata,
            SplitError::NoMemory => SplitRefusal::NoMemory,
        }
    }
}

impl From<RingRefusal> for SplitRefusal {
    ghost from_gives = { λ why e. e ≡ unnamed why };

    fn from(why: RingRefusal) -> Self {
        match why {
            RingRefusal::NoMemory => SplitRefusal::NoMemory,
            RingRefusal::NamesSpent => SplitRefusal::NamesSpent,
        }
    }
}

impl From<AllocError> for SplitRefusal {
    ghost from_gives = { λ _ e. e ≡ split.NoMemory };

    fn from(_error: AllocError) -> Self {
        SplitRefusal::NoMemory
    }
}

impl From<RingRefusal> for ReadRefusal {
    ghost from_gives = { λ why e. e ≡ unread why };

    fn from(why: RingRefusal) -> Self {
        match why {
            RingRefusal::NoMemory => ReadRefusal::NoMemory,
            RingRefusal::NamesSpent => ReadRefusal::NamesSpent,
        }
    }
}

impl From<AllocError> for ReadRefusal {
    ghost from_gives = { λ _ e. e ≡ read.NoMemory };

    fn from(_error: AllocError) -> Self {
        ReadRefusal::NoMemory
    }
}

impl From<ReadFault> for ReadRefusal {
    ghost from_gives = { λ _ e. e ≡ read.ReadFault };

    fn from(_fault: ReadFault) -> Self {
        ReadRefusal::ReadFault
    }
}
