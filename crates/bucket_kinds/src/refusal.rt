//! Why a call on a bucket or on files is refused.

ghost use Rattle.std.specs.Prelude.{◌≡◌};
ghost use Rattle.bucket_kinds.specs.declared.refusal.SplitError.TheVariants as split;
ghost use Rattle.bucket_kinds.specs.declared.refusal.ReadError.TheVariants as read;
ghost use Rattle.bucket_kinds.specs.declared.refusal.FileFault.TheVariants as file;
ghost use Rattle.bucket_kinds.specs.declared.refusal.AddRefusal.TheVariants as add;

use std::alloc::AllocError;
use thiserror::Error;

/// Why a bucket is not split.
#[derive(Clone, Copy, Debug, Error)]
pub enum SplitError {
    /// The bucket is shorter than the point.
    #[error("the bucket is shorter than the point")]
    TooLong,
    /// The bucket is metadata.
    #[error("the bucket is metadata")]
    Metadata,
    /// There is no memory.
    #[error("no memory")]
    NoMemory,
}

/// Why a bucket is not read.
#[derive(Clone, Copy, Debug, Error)]
pub enum ReadError {
    /// The device failed, or the file ends before the last byte that was to be read.
    #[error("the file cannot be read")]
    ReadFault,
    /// There is no memory.
    #[error("no memory")]
    NoMemory,
}

/// Why a file is not opened or not read.
#[derive(Clone, Copy, Debug, Error)]
pub enum FileFault {
    /// There is no file of that name.
    #[error("there is no file of that name")]
    NotThere,
    /// The device failed.
    #[error("the device failed")]
    Failed,
    /// The number that would have to be given out is 2^64 - 1.
    #[error("the numbers are spent")]
    NamesSpent,
    /// There is no memory.
    #[error("no memory")]
    NoMemory,
}

/// A buffer was not filled from a file: the device failed, the file is not open, or it ends too soon.
#[derive(Clone, Copy, Debug, Error)]
#[error("the buffer was not filled")]
pub struct ReadFault;

/// Why a file is not added.
#[derive(Clone, Copy, Debug, Error)]
pub enum AddRefusal {
    /// There is a file of that name.
    #[error("there is a file of that name")]
    Taken,
    /// There is no memory.
    #[error("no memory")]
    NoMemory,
}

impl From<AllocError> for SplitError {
    ghost from_gives = { λ _ e. e ≡ split.NoMemory };

    fn from(_error: AllocError) -> Self {
        SplitError::NoMemory
    }
}

impl From<AllocError> for ReadError {
    ghost from_gives = { λ _ e. e ≡ read.NoMemory };

    fn from(_error: AllocError) -> Self {
        ReadError::NoMemory
    }
}

impl From<AllocError> for FileFault {
    ghost from_gives = { λ _ e. e ≡ file.NoMemory };

    fn from(_error: AllocError) -> Self {
        FileFault::NoMemory
    }
}

impl From<AllocError> for AddRefusal {
    ghost from_gives = { λ _ e. e ≡ add.NoMemory };

    fn from(_error: AllocError) -> Self {
        AddRefusal::NoMemory
    }
}
